//! What an event adds to the output.
ghost use Rattle.std.specs.Prelude.{◌≡◌, ◌++◌, ◌≤◌, ℕ, Some, IfOk, IfErr, IfSome, OnOk, take};
ghost use Rattle.fx_report.specs.Events.{event_line};
ghost use Rattle.fx_journaling.specs.Taken.{HasGrown, TellCause};

use crate::fault::RecordFault;
use fx_base::NoMemory;
use fx_board::Event;
use fx_command::print_all;
use fx_outside::Sink;
use fx_report::add_event_line;
use fx_store::LongText;
use std::alloc::Global;

/// The line of one event.
fn line_of(alloc: Global, event: Event) -> Result<LongText, NoMemory>
    ensures { IfOk result (λ line. line ≡ event_line event) }
{
    let mut line = Vec::new(alloc);
    add_event_line(&mut line, &event)?;
    Ok(LongText::from_vec(line))
}

/// Writes the line of an event. After a refusal a front of it is written.
pub(crate) fn tell<S: Sink>(alloc: Global, out: &mut S, event: Event) -> Result<(), RecordFault>
    ensures written { OnOk result (HasGrown (event_line event) (S.view out.old) (S.view out.new)) }
    ensures front { IfSome (S.view out.old).written (λ w.
        (n : ℕ) × ((S.view out.new).written ≡ Some (w ++ take n (event_line event)))) }
    ensures later { (S.view out.old).faults ≤ (S.view out.new).faults }
    ensures cause { IfErr result (λ stop. TellCause stop (S.view out.old) (S.view out.new)) }
{
    let line = line_of(alloc, event)?;
    print_all(out, line.as_slice())?;
    Ok(())
}
