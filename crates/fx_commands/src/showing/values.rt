//! What `show` prints.
ghost use Rattle.std.specs.Prelude.{◌≡◌, ◌++◌, ◌<◌, [], IfOk, Some, None};
ghost use Rattle.std.specs.FinMap.{get};
ghost use Rattle.std.specs.Option.{option_map};
ghost use Rattle.fx_store.specs.Rule.{answer};
ghost use Rattle.fx_expr.specs.Views.{tree_of};
ghost use Rattle.fx_spec.specs.Shaped.{IsDescribedPlace};
ghost use Rattle.fx_session.specs.Places.{place_tree};
ghost use Rattle.fx_walk.specs.Places.{value_at as rule_at};
ghost use Rattle.fx_commands.specs.Shows.Shown as print;
ghost use Rattle.fx_commands.specs.Shows.Shown.{root_value};

use fx_base::{NoMemory, Steps};
use fx_expr::{Env, Value};
use fx_report::value_line;
use fx_session::Session;
use fx_spec::{Checked, Place};
use fx_store::{Filestore, LongText, Path};
use fx_view::{Overlay, Stop, Whole};
use fx_walk::value;
use std::alloc::Global;
use std::marker::Brand;
use std::sync::ledger::{Blank, Ledger};

/// The value at a place of a filestore of which nothing is read yet.
fn value_at<L: Ledger>(
    alloc: Global,
    reader: &mut Whole,
    place: &Place,
    blank: Blank,
) -> Result<Option<Value>, NoMemory>
    requires name { blank.name ≡ L.name }
    requires parts { blank.parts ≡ L.parts }
    requires some { 0 < L.parts }
    requires described { IsDescribedPlace (place_tree place.now) }
    requires unread { reader.old.reads ≡ [] }
    ensures { IfOk result (λ value.
        answer (get reader.old.store.now.nodes) (rule_at (place_tree place.now))
        ≡ option_map tree_of value) }
{
    let mut session = Session {
        alloc,
        reader,
        own: Overlay::new(alloc),
        steps: Steps::<L>::open(blank),
    };
    match value(&mut session, place) {
        Ok(value) => Ok(value),
        Err(Stop::NoMemory) => Err(NoMemory),
        Err(Stop::Needs(_)) => unreachable!(),
    }
}

/// The value of a root description on a filestore; `None` where it has none.
fn value_of(alloc: Global, spec: &Checked, store: &Filestore) -> Result<Option<Value>, NoMemory>
    ensures { IfOk result
        (λ value. root_value (get store.now.nodes) spec.now ≡ option_map tree_of value) }
{
    let mut reader = Whole::new(alloc, store);
    let path = Path::root(alloc);
    let env = Env::new(alloc);
    let root = spec.root();
    let place = Place {
        path: &path,
        env: &env,
        spec: root.spec,
        defs: root.defs,
        level: root.level,
    };
    value_at::<Brand>(alloc, &mut reader, &place, Blank::new(1))
}

/// The lines of a value.
fn lines_of(alloc: Global, value: &Value) -> Result<LongText, NoMemory>
    ensures { IfOk result (λ text. text ≡ print.shown (Some (tree_of value.now))) }
{
    let line = value_line(alloc, value)?;
    let mut bytes = Vec::new(alloc);
    bytes.extend_from_slice(b"valid yes\n")?;
    bytes.extend_from_slice(line.as_slice())?;
    Ok(LongText::from_vec(bytes))
}

/// The line where there is no value.
fn no_lines(alloc: Global) -> Result<LongText, NoMemory>
    ensures { IfOk result (λ text. text ≡ print.shown None) }
{
    let mut bytes = Vec::new(alloc);
    bytes.extend_from_slice(b"valid no\n")?;
    Ok(LongText::from_vec(bytes))
}

/// What `show` prints of a value, if there is one.
fn text_of(alloc: Global, value: &Option<Value>) -> Result<LongText, NoMemory>
    ensures { IfOk result (λ text. text ≡ print.shown (option_map tree_of value.now)) }
{
    match value {
        Some(value) => lines_of(alloc, value),
        None => no_lines(alloc),
    }
}

/// What `show` prints of a filestore by a description: whether it has a value at the root, and which.
pub fn shown(alloc: Global, spec: &Checked, store: &Filestore) -> Result<LongText, NoMemory>
    ensures { IfOk result (λ text.
        text ≡ print.shown (root_value (get store.now.nodes) spec.now)) }
{
    let value = value_of(alloc, spec, store)?;
    text_of(alloc, &value)
}
