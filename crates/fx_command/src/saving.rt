//! The stage that saves and prints.
ghost use Rattle.std.specs.Prelude.{IfSome};
ghost use Rattle.fx_outside.specs.Host.{WritesIn};
ghost use Rattle.fx_folder.specs.Folder.{IsReady};
ghost use Rattle.fx_command.specs.Saved.{SaveEnd};
ghost use Rattle.fx_command.specs.StatusOf.{status_of};

use crate::print::print_all;
use crate::status::Status;
use fx_folder::{Out, save};
use fx_outside::{Host, HostText, Sink};
use fx_store::Filestore;
use std::alloc::Global;

/// Saves a filestore at OUT, where an empty folder stands or can be made, and then prints the output. After a refusal OUT may
/// hold a part of the folder, or all of it and a front of the output be printed.
pub fn save_and_print<H: Host, S: Sink>(
    alloc: Global,
    path: &HostText,
    there: Out,
    store: &Filestore,
    output: &[u8],
    host: &mut H,
    out: &mut S,
) -> Result<(), Status>
    requires { IfSome (H.view host.old).told (λ t. IsReady t path.now there) }
    ensures end { SaveEnd path.now there store.now.nodes output.now
        (H.view host.old) (H.view host.new) (S.view out.old) (S.view out.new) (status_of result) }
    ensures fit { WritesIn path.now (H.view host.old) (H.view host.new) }
{
    save(alloc, host, path, there, store)?;
    print_all(out, output)?;
    Ok(())
}
