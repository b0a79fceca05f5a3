//! Runs with views, whose order is free. Each view is compared with its transaction, run whole after as many transactions of
//! the printed order as it tells.

use crate::replay::replayed;
use crate::shells::{entry_lines, shells_of};
use crate::threads::{add_run, parts_of};
use fx_base::NoMemory;
use fx_board::answer_of;
use fx_report::{View, Viewed, views_text};
use fx_run::run;
use fx_spec::Base;
use fx_store::Filestore;
use fx_view::{Stop, Whole};
use std::alloc::Global;
use std::sync::Arc;
use test_lines::{number, split_word, tell, tell_bytes};
use test_stage::{Program, Stage};

/// The lines behind a report.
fn behind_report(printed: &str) -> &str {
    match printed.split_once("\nend\n") {
        Some((_, behind)) => behind,
        None => "",
    }
}

/// The position of a line `view J at I ..`.
fn position_of(line: &str) -> Option<u32> {
    let mut words = line.split(' ');
    if words.next()? != "view" {
        return None;
    }
    words.nth(2)?.parse::<u32>().ok()
}

/// The positions of the views that are told, in order.
fn positions_of(alloc: Global, lines: &str) -> Result<Vec<u32>, NoMemory> {
    let mut positions = Vec::new(alloc);
    for line in lines.lines() {
        if let Some(position) = position_of(line) {
            positions.push(position)?;
        }
    }
    Ok(positions)
}

/// Whether no position is below the one before.
fn never_fall(positions: &[u32]) -> bool {
    positions.is_sorted()
}

/// A view of a filestore, where there is a transaction of this number.
fn view_of(
    alloc: Global,
    views: &Arc<Base>,
    store: &Filestore,
    txn: u32,
    position: u32,
) -> Result<Option<View>, NoMemory> {
    if views.plan.txn(0, txn).is_none() {
        return Ok(None);
    }
    let mut reader = Whole::new(alloc, store);
    match run(alloc, views, 0, txn, &mut reader) {
        Ok(attempt) => {
            let (outputs, end) = answer_of(attempt);
            Ok(Some(View {
                position: u64::from(position),
                outputs,
                end,
            }))
        }
        Err(Stop::Needs(_)) => Ok(None),
        Err(Stop::NoMemory) => Err(NoMemory),
    }
}

/// Adds the view of the filestore after so many of the next transactions of these shells.
fn add_view(
    alloc: Global,
    base: &Arc<Base>,
    views: &Arc<Base>,
    shells: &[u32],
    txn: u32,
    position: u32,
    viewed: &mut Viewed,
) -> Result<(), NoMemory> {
    let front = shells.get(..position as usize).unwrap_or(shells);
    let world = replayed(alloc, base, front)?;
    let view = view_of(alloc, views, world.board().store(), txn, position);
    world.let_go();
    if let Some(view) = view? {
        viewed.push(view)?;
    }
    Ok(())
}

/// The views at these positions of the order of these shells' next transactions.
fn viewed_at(
    alloc: Global,
    base: &Arc<Base>,
    views: &Arc<Base>,
    shells: &[u32],
    positions: &[u32],
) -> Result<Viewed, NoMemory> {
    let mut viewed = Viewed::new(alloc);
    let mut txn = 0u32;
    for position in positions {
        add_view(alloc, base, views, shells, txn, *position, &mut viewed)?;
        txn = txn.saturating_add(1);
    }
    Ok(viewed)
}

/// Whether the views that are printed are those of the states at their positions, which never fall.
fn are_views(
    alloc: Global,
    base: &Arc<Base>,
    views: &Arc<Base>,
    printed: &str,
) -> Result<bool, NoMemory> {
    let lines = behind_report(printed);
    let shells = shells_of(alloc, entry_lines(printed))?;
    let positions = positions_of(alloc, lines)?;
    let viewed = viewed_at(alloc, base, views, &shells, &positions)?;
    let wanted = views_text(alloc, &viewed)?;
    Ok(never_fall(&positions) && wanted.as_slice() == lines.as_bytes())
}

fn is_as_told<P: Program>(
    program: &P,
    alloc: Global,
    stage: &mut Stage,
    rest: &str,
    printed: &str,
) -> Result<bool, NoMemory> {
    let (views, scripts) = split_word(rest);
    let base = match program.base(alloc, stage, scripts) {
        Ok(base) => base,
        Err(_) => return Ok(false),
    };
    let as_told = match program.base(alloc, stage, views) {
        Ok(views) => {
            let same = are_views(alloc, &base, &views, printed);
            Base::let_go(views);
            same
        }
        Err(_) => Ok(false),
    };
    Base::let_go(base);
    as_told
}

/// Runs the scripts with the views once, and tells what is printed where a view is not as it tells.
fn is_right<P: Program>(
    program: &P,
    alloc: Global,
    stage: &mut Stage,
    rest: &str,
    out: &mut String,
) -> Result<bool, NoMemory> {
    let mut left = String::new(alloc);
    add_run(program, alloc, stage, "views", rest, &mut left)?;
    let (printed, _) = parts_of(left.as_str());
    let right = is_as_told(program, alloc, stage, rest, printed)?;
    if !right {
        tell_bytes(out, left.as_str().as_bytes())?;
    }
    Ok(right)
}

/// Runs the scripts with the views so many times, each time on a fresh stage, and tells whether each view is what its
/// transaction comes to at the state after as many entries as it tells: a line is a count, the views and the scripts. The
/// description is at `spec`, the folder at `in`.
pub fn tell_views<P: Program>(
    program: &P,
    alloc: Global,
    stage: &mut Stage,
    line: &str,
    out: &mut String,
) -> Result<(), NoMemory> {
    let (count, rest) = split_word(line);
    for _ in 0..number(count) {
        if !is_right(program, alloc, stage, rest, out)? {
            return Ok(());
        }
    }
    tell(out, "each view as of its position")
}
