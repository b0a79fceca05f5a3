//! The lines of a watched run.
ghost use Rattle.std.specs.Prelude.{◌≡◌, ◌++◌, OnOk};
ghost use Rattle.fx_report.specs.Events.{event_line};
ghost use Rattle.fx_watch.specs.Lines.{valid_line};

use fx_base::NoMemory;
use fx_board::Event;
use fx_report::add_event_line;

/// Adds the line of an event, and lets the event go.
pub(crate) fn add_event(output: &mut Vec<u8>, event: Event) -> Result<(), NoMemory>
    ensures { OnOk result (output.new.items ≡ output.old.items ++ event_line event) }
{
    add_event_line(output, &event)
}

/// Adds a line that says whether there is a value.
pub(crate) fn add_valid(output: &mut Vec<u8>, valid: bool) -> Result<(), NoMemory>
    ensures { OnOk result (output.new.items ≡ output.old.items ++ valid_line valid) }
{
    if valid {
        output.extend_from_slice(b"valid yes\n")?;
    } else {
        output.extend_from_slice(b"valid no\n")?;
    }
    Ok(())
}
