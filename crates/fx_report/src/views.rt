//! The lines of views.
ghost use Rattle.std.specs.Prelude.{◌≡◌, ◌++◌, OnOk, IfOk};
ghost use Rattle.fx_report.specs.Views as text;

use crate::lines::{add_count_line, add_end, add_field, add_print_lines};
use crate::printed::{View, Viewed};
use fx_base::{NoMemory, add_bytes};
use fx_spec::End;
use fx_store::LongText;
use std::alloc::Global;

#[tactic(auto, unfolding(crate::specs::Views::view_line))]
fn add_view_line(out: &mut Vec<u8>, number: u64, position: u64, end: &End) -> Result<(), NoMemory>
    ensures { OnOk result
        (out.new.items ≡ out.old.items ++ text.view_line number position end.now) }
{
    add_field(out, b"view ", number)?;
    add_field(out, b" at ", position)?;
    add_bytes(out, b" ")?;
    add_end(out, end)?;
    add_bytes(out, b"\n")
}

#[tactic(auto, unfolding(crate::specs::Views::view_text))]
fn add_view(out: &mut Vec<u8>, number: u64, view: &View) -> Result<(), NoMemory>
    ensures { OnOk result (out.new.items ≡ out.old.items ++ text.view_text number view.now) }
{
    add_view_line(out, number, view.position, &view.end)?;
    add_print_lines(out, &view.outputs)
}

#[tactic(auto, using(std::proofs::lemmas::List::drop_more, std::proofs::lemmas::List::drop_all))]
fn add_views(out: &mut Vec<u8>, views: &Viewed) -> Result<(), NoMemory>
    ensures { OnOk result (out.new.items ≡ out.old.items ++ text.view_texts 0 views.now) }
{
    for (i, view) in views.as_slice().iter().enumerate() {
        add_view(out, i as u64, view)?;
    }
    Ok(())
}

/// What is printed of views: how many there are, each with its outputs, and a last line.
#[tactic(auto, unfolding(crate::specs::Views::views_text))]
pub fn views_text(alloc: Global, views: &Viewed) -> Result<LongText, NoMemory>
    ensures { IfOk result (λ printed. printed ≡ text.views_text views.now) }
{
    let mut out = Vec::new(alloc);
    add_count_line(&mut out, b"views ", views.len() as u64)?;
    add_views(&mut out, views)?;
    add_bytes(&mut out, b"end\n")?;
    Ok(LongText::from_vec(out))
}
