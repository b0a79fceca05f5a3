//! The node that a value makes at a form, and the empty node of a form.
ghost use Rattle.std.specs.Prelude.{◌≡◌, None, [], false, IfOk, IfSome};
ghost use Rattle.fx_store.specs.declared.node.Node.TheVariants.{File, Dir};
ghost use Rattle.fx_store.specs.Names.{IsContent};
ghost use Rattle.fx_expr.specs.Parts.{text_of};
ghost use Rattle.fx_expr.specs.Sets.{IsAscending};
ghost use Rattle.fx_expr.specs.Tree.{Tree};
ghost use Rattle.fx_expr.specs.Views.{tree_of};
ghost use Rattle.fx_spec.specs.Edit as edit;
ghost use Rattle.fx_spec.specs.Move.{needed};
ghost use Rattle.fx_spec.specs.SpecTree.{SpecTree};
ghost use Rattle.fx_spec.specs.Parts.{part_of};
ghost use Rattle.fx_spec.specs.declared.refusal.Refusal.TheVariants as refusal;
ghost use Rattle.fx_edit.specs.Values.{name_read, Tells};

use fx_base::{Items, NoMemory, compare_bytes};
use fx_expr::{Text, TextSet, Value};
use fx_session::Halt;
use fx_spec::{Form, Part, Refusal};
use fx_store::{Bytes, LinkText, Name, Names, Node};
use std::alloc::Global;
use std::cmp::Ordering;

/// The node that the value makes at a form, or why it makes none. A directory shares the names that it has with the likely
/// ones.
pub(crate) fn stored_node(
    alloc: Global,
    form: &Part<'_>,
    value: &Value,
    likely: &Names,
) -> Result<Node, Halt>
    ensures { Tells (λ n. n) (edit.stored_node (part_of form.now) (tree_of value.now)) result }
{
    match form.form() {
        Form::File => file_node(alloc, value),
        Form::Dir => dir_node(alloc, value, likely),
        Form::Link => link_node(alloc, value),
        Form::Focus(_, _)
        | Form::Pair(_, _, _)
        | Form::Comp(_, _, _)
        | Form::Opt(_)
        | Form::Pred(_)
        | Form::Call(_, _, _)
        | Form::Last(_) => Err(Halt::Refused(Refusal::WrongForm)),
    }
}

fn file_node(alloc: Global, value: &Value) -> Result<Node, Halt>
    ensures { Tells (λ n. n) (edit.stored_node SpecTree.file (tree_of value.now)) result }
{
    match value.as_text() {
        Some(text) => Ok(Node::File {
            bytes: content(alloc, text)?.share(alloc)?,
            exec: false,
        }),
        None => flag_node(alloc, value),
    }
}

/// An empty file with the flag that a value is.
fn flag_node(alloc: Global, value: &Value) -> Result<Node, Halt>
    requires { text_of (tree_of value.now) ≡ None }
    ensures { Tells (λ n. n) (edit.stored_node SpecTree.file (tree_of value.now)) result }
{
    match value.as_truth() {
        Some(exec) => Ok(Node::File {
            bytes: Bytes::new(alloc),
            exec,
        }),
        None => Err(Halt::Refused(Refusal::WrongForm)),
    }
}

/// An empty file that is not to be run.
pub(crate) fn empty_file(alloc: Global) -> Node
    ensures { result ≡ File [] false }
{
    Node::File {
        bytes: Bytes::new(alloc),
        exec: false,
    }
}

/// Whether a value is a file's flag.
pub(crate) fn is_flag(value: &Value) -> bool
    ensures { result ≡ edit.is_flag (tree_of value.now) }
{
    match value {
        Value::Bool(_) => true,
        Value::Str(_)
        | Value::Int(_)
        | Value::Names(_)
        | Value::Pair(_, _)
        | Value::Nothing
        | Value::Some(_)
        | Value::Table(_) => false,
    }
}

fn link_node(alloc: Global, value: &Value) -> Result<Node, Halt>
    ensures { Tells (λ n. n) (edit.stored_node SpecTree.link (tree_of value.now)) result }
{
    match value.as_text() {
        Some(text) => link_of(alloc, text),
        None => Err(Halt::Refused(Refusal::WrongForm)),
    }
}

fn dir_node(alloc: Global, value: &Value, likely: &Names) -> Result<Node, Halt>
    ensures { Tells (λ n. n) (edit.stored_node SpecTree.dir (tree_of value.now)) result }
{
    match value.as_names() {
        Some(texts) => Ok(Node::Dir(names_of(alloc, texts, likely)?)),
        None => Err(Halt::Refused(Refusal::WrongForm)),
    }
}

/// The text as a file's content.
fn content(alloc: Global, text: &Text) -> Result<Bytes, NoMemory>
    ensures { IfOk result (λ bytes. (bytes ≡ text.now) × IsContent text.now) }
{
    let bytes = Bytes::from_slice(alloc, text.as_slice())?;
    // A content is within its limits.
    let _limits = bytes.as_slice();
    Ok(bytes)
}

/// The link of a text.
fn link_of(alloc: Global, text: &Text) -> Result<Node, Halt>
    ensures { Tells (λ n. n) (edit.stored_node SpecTree.link (Tree.str text.now)) result }
{
    let bytes = content(alloc, text)?;
    Ok(Node::Link(LinkText::read(alloc, bytes.as_slice())?))
}

/// The names that the texts of a set are, shared where they are among the likely ones, beside that set.
fn names_of(alloc: Global, texts: &TextSet, likely: &Names) -> Result<Names, Halt>
    ensures names { Tells (λ names. Dir names) (edit.names_node texts.now) result }
    ensures order { IsAscending texts.now }
{
    // The texts ascend.
    let len = texts.len();
    let mut names = Vec::with_capacity(alloc, len as usize)?;
    let mut left = likely.iter();
    for text in texts.iter() {
        names.push(next_name(alloc, text, &mut left)?)?;
    }
    Ok(Names::from_parts(alloc, names, texts)?)
}

/// The name that a text is, shared where it is among those that are left.
fn next_name(alloc: Global, text: &Text, left: &mut Items<'_, Name>) -> Result<Name, Halt>
    ensures { Tells (λ name. name) (name_read text.now) result }
{
    match shared_name(text, left) {
        Some(name) => Ok(name.copy(alloc)?),
        None => name_of(alloc, text),
    }
}

/// Goes on among ascending names behind the one that a text is, or to the first above it.
fn shared_name<'a>(text: &Text, left: &mut Items<'a, Name>) -> Option<&'a Name>
    ensures { IfSome result (λ name. name.now ≡ text.now) }
{
    while let Some((name, rest)) = left.split_first() {
        match compare_bytes(name.as_slice(), text.as_slice()) {
            Ordering::Less => *left = rest,
            Ordering::Equal => {
                *left = rest;
                return Some(name);
            }
            Ordering::Greater => return None,
        }
    }
    None
}

/// The name that a text is.
fn name_of(alloc: Global, text: &Text) -> Result<Name, Halt>
    ensures { Tells (λ name. name) (name_read text.now) result }
{
    Ok(Name::read(alloc, text.as_slice())?)
}

/// The empty node of a form, or that it has none.
pub(crate) fn bare_node(alloc: Global, form: &Part<'_>) -> Result<Node, Halt>
    ensures { Tells (λ n. n)
        (needed refusal.NoDefault (edit.bare_node (part_of form.now))) result }
{
    match bare(alloc, form) {
        Some(node) => Ok(node),
        None => Err(Halt::Refused(Refusal::NoDefault)),
    }
}

#[cycle(bare)]
fn bare(alloc: Global, form: &Part<'_>) -> Option<Node>
    ensures { result ≡ edit.bare_node (part_of form.now) }
{
    match form.form() {
        Form::File => Some(empty_file(alloc)),
        Form::Dir => Some(Node::Dir(Names::new(alloc))),
        Form::Pair(_, first, _) => bare(alloc, &first),
        Form::Opt(part) => bare(alloc, &part),
        Form::Link
        | Form::Focus(_, _)
        | Form::Comp(_, _, _)
        | Form::Pred(_)
        | Form::Call(_, _, _)
        | Form::Last(_) => None,
    }
}
