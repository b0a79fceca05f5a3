//! What the counts and the logs of a filestore come to, and how many nodes it has.
ghost use Rattle.std.specs.Prelude.{◌≡◌, ◌<◌, IfOk};
ghost use Rattle.std.specs.FinMap.{get};
ghost use Rattle.fx_expr.specs.Eval.{integer_in, read_integer};
ghost use Rattle.fx_expr.specs.Views.{expr_tree, tree_of};
ghost use Rattle.fx_large_commands.specs.Summary.{int_of, integer_or_zero, counted_at, logged_at, counted_in, logged_in, node_count};

use fx_base::{NoMemory, Steps};
use fx_eval::eval;
use fx_expr::{Env, EvalFault, Expr, Text, UnOp, Value};
use fx_gen::{PROJECTS, project_entry};
use fx_store::{Filestore, Node, Path};
use std::alloc::Global;
use std::marker::Brand;
use std::sync::ledger::{Blank, Ledger};

/// The expression that reads the integer that a text spells.
fn reading(alloc: Global, text: Text) -> Result<Expr, NoMemory>
    ensures { IfOk result (λ expr. expr_tree expr ≡ int_of text) }
{
    let text = Box::new(alloc, Expr::Str(text))?;
    Ok(Expr::Un(UnOp::Int, text))
}

/// The integer that a value is; 0 if it is none.
fn integer_in(value: &Value) -> i64
    ensures { result ≡ integer_in (tree_of value.now) }
{
    match value {
        Value::Int(n) => *n,
        _ => 0,
    }
}

/// The integer that a text spells, by its expression; 0 where it spells none.
fn integer_by<L: Ledger>(alloc: Global, text: Text, blank: Blank) -> Result<i64, NoMemory>
    requires name { blank.name ≡ L.name }
    requires parts { blank.parts ≡ L.parts }
    requires some { 0 < L.parts }
    ensures { IfOk result (λ n. n ≡ integer_or_zero (read_integer text)) }
{
    let expr = reading(alloc, text)?;
    let env = Env::new(alloc);
    let mut steps = Steps::<L>::open(blank);
    match eval(alloc, &expr, &env, &mut steps) {
        Ok(value) => Ok(integer_in(&value)),
        Err(EvalFault::Fault(_)) => Ok(0),
        Err(EvalFault::NoMemory) => Err(NoMemory),
    }
}

/// What the node at a path adds to the sum of the counts.
fn counted_at(alloc: Global, store: &Filestore, path: &Path) -> Result<i64, NoMemory>
    ensures { IfOk result (λ n. n ≡ counted_at (get store.now.nodes path.now)) }
{
    match store.get(path) {
        Some(Node::File { bytes, .. }) => {
            let text = Vec::from_slice(alloc, bytes.as_slice())?;
            integer_by::<Brand>(alloc, Text::from_vec(text), Blank::new(1))
        }
        Some(Node::Dir(_)) => Ok(0),
        Some(Node::Link(_)) => Ok(0),
        None => Ok(0),
    }
}

/// How many names the node at a path adds to those of the logs.
fn logged_at(store: &Filestore, path: &Path) -> u64
    ensures { result ≡ logged_at (get store.now.nodes path.now) }
{
    match store.get(path) {
        Some(Node::Dir(names)) => names.len(),
        Some(Node::File { .. }) => 0,
        Some(Node::Link(_)) => 0,
        None => 0,
    }
}

/// The sum of the projects' counts.
pub(crate) fn counted(alloc: Global, store: &Filestore) -> Result<i128, NoMemory>
    ensures { IfOk result (λ sum. sum ≡ counted_in store.now.nodes) }
{
    let mut sum: i128 = 0;
    for number in 0..PROJECTS {
        let path = project_entry(alloc, number, b"count")?;
        sum += i128::from(counted_at(alloc, store, &path)?);
    }
    Ok(sum)
}

/// The number of names in the projects' logs.
pub(crate) fn logged(alloc: Global, store: &Filestore) -> Result<u128, NoMemory>
    ensures { IfOk result (λ sum. sum ≡ logged_in store.now.nodes) }
{
    let mut sum: u128 = 0;
    for number in 0..PROJECTS {
        let path = project_entry(alloc, number, b"log")?;
        sum += u128::from(logged_at(store, &path));
    }
    Ok(sum)
}

/// The number of nodes.
pub(crate) fn node_count(store: &Filestore) -> u64
    ensures { result ≡ node_count store.now.nodes }
{
    let mut count = 0;
    for i in 0..store.places() {
        count += u64::from(store.at(i).is_some());
    }
    count
}
