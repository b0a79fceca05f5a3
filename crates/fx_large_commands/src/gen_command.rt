//! The command `gen`.
ghost use Rattle.std.specs.Prelude.{◌≡◌, IfSome};
ghost use Rattle.fx_outside.specs.Host.{WritesIn};
ghost use Rattle.fx_command.specs.Out.{WritesOut};
ghost use Rattle.fx_folder.specs.Folder.{IsReady};
ghost use Rattle.fx_command.specs.StatusOf.{status_of};
ghost use Rattle.fx_command.specs.Table.{CommandRow, making_only};
ghost use Rattle.fx_large_commands.specs.Case.{case_of, case_in};
ghost use Rattle.fx_large_commands.specs.GenRows.{gen_making};

use crate::writing::write_case;
use fx_command::{Status, print_all, ready_out};
use fx_folder::Out;
use fx_gen::{Generated, generate};
use fx_outside::{Host, HostText, Sink};
use std::alloc::Global;

/// Writes the case of a number, and then prints that it is written.
fn write_and_print<H: Host, S: Sink>(
    alloc: Global,
    number: u32,
    path: &HostText,
    there: Out,
    case: &Generated,
    host: &mut H,
    out: &mut S,
) -> Result<(), Status>
    requires ready { IfSome (H.view host.old).told (λ t. IsReady t path.now there) }
    requires case { case_in case.now ≡ case_of number }
    ensures row { CommandRow (making_only (gen_making number path.now)) (H.view host.old) (H.view host.new)
        (S.view out.old) (S.view out.new) (status_of result) }
    ensures fit { WritesIn path.now (H.view host.old) (H.view host.new) }
{
    write_case(alloc, host, path, there, case)?;
    print_all(out, b"generated\n")?;
    Ok(())
}

/// Writes the case of a number as a folder: its description, its scripts and its filestore.
pub fn write_generated<H: Host, S: Sink>(
    alloc: Global,
    number: u32,
    path: &HostText,
    host: &mut H,
    out: &mut S,
) -> Result<(), Status>
    ensures row { CommandRow (making_only (gen_making number path.now)) (H.view host.old) (H.view host.new)
        (S.view out.old) (S.view out.new) (status_of result) }
    ensures fit { WritesOut path.now (H.view host.old) (H.view host.new) }
{
    let there = ready_out(alloc, path, host)?;
    let case = generate(alloc, number)?;
    let ended = write_and_print(alloc, number, path, there, &case, host, out);
    case.let_go();
    ended
}
