//! A host: a tree of folders and files outside the program.
ghost use Rattle.std.specs.Prelude.{◌≡◌, ◌<◌, ◌≤◌, length, IfOk, OnOk, IfSome};
ghost use Rattle.fx_outside.specs.declared.kind.HostFault.TheVariants.{Failed, NoMemory};
ghost use Rattle.fx_outside.specs.Path.{is_fit};
ghost use Rattle.fx_outside.specs.Tree.{IsWhole, is_folder_at, is_file_at, is_free_at, file, folder};
ghost use Rattle.fx_outside.specs.Host.{HostView, ReadsOnly, HasCause, CountsStray, TellsStanding, TellsNames, TellsBytes, IsAsTold, Adds, MayAdd, MayHoldPrefix};

use crate::{HostFault, HostText, Listing, Standing};
use std::alloc::Global;

/// A tree of folders and files that may fail. A host may tell what it holds: then every answer is that of its tree, and
/// a call that does not suit the tree is refused, changes nothing and counts no fault. A host that tells nothing
/// promises what it counts alone: its faults, with the path of the last one, and the calls outside of its fences. A fence is
/// any test on paths: one says where a host may be asked what stands, one where it may be asked to write.
pub trait Host {
    /// The tree that it holds, if it tells one, and what it counts.
    ghost view: { Self → HostView };

    /// What stands at a path.
    fn standing(&mut self, alloc: Global, path: &HostText) -> Result<Standing, HostFault>
        ensures answer { IfOk result (TellsStanding (view self.old) path.now) }
        ensures same { ReadsOnly (view self.old) (view self.new) }
        ensures cause { HasCause path.now (λ _. is_fit path.now) (view self.old)
            (view self.new) result }
        ensures strays { CountsStray (view self.old).guard.may_read path.now
            (view self.old) (view self.new) };

    /// The names and kinds of what a folder holds directly.
    fn list(&mut self, alloc: Global, path: &HostText) -> Result<Listing, HostFault>
        ensures answer { IfOk result (TellsNames (view self.old) path.now) }
        ensures same { ReadsOnly (view self.old) (view self.new) }
        ensures cause { HasCause path.now (λ t. is_folder_at t path.now) (view self.old)
            (view self.new) result }
        ensures strays { CountsStray (view self.old).guard.may_read path.now
            (view self.old) (view self.new) };

    /// Reads bytes of a file from a place on into the front of a buffer; 0 means the end of the file.
    fn read(
        &mut self,
        alloc: Global,
        path: &HostText,
        from: u64,
        buf: &mut [u8],
    ) -> Result<usize, HostFault>
        requires { 0 < length buf.old }
        ensures bound { IfOk result (λ n. n ≤ length buf.new) }
        ensures answer { IfOk result (TellsBytes (view self.old) path.now from buf.new) }
        ensures same { ReadsOnly (view self.old) (view self.new) }
        ensures cause { HasCause path.now (λ t. is_file_at t path.now) (view self.old)
            (view self.new) result }
        ensures strays { CountsStray (view self.old).guard.may_read path.now
            (view self.old) (view self.new) };

    /// Makes an empty folder where nothing stands. After `Failed` it may be there or not.
    fn make_dir(&mut self, alloc: Global, path: &HostText) -> Result<(), HostFault>
        ensures made { OnOk result (Adds path.now folder (view self.old) (view self.new)) }
        ensures failed { result ≡ Err Failed
            → MayAdd path.now folder (view self.old) (view self.new) }
        ensures memory { result ≡ Err NoMemory → IsAsTold (view self.old) (view self.new) }
        ensures cause { HasCause path.now (λ t. is_free_at t path.now) (view self.old)
            (view self.new) result }
        ensures strays { CountsStray (view self.old).guard.may_write path.now
            (view self.old) (view self.new) };

    /// Writes a file where nothing stands. After `Failed` it may be missing or hold a prefix of the bytes.
    fn write_new(&mut self, alloc: Global, path: &HostText, bytes: &[u8]) -> Result<(), HostFault>
        ensures written { OnOk result
            (Adds path.now (file bytes.now) (view self.old) (view self.new)) }
        ensures failed { result ≡ Err Failed
            → MayHoldPrefix path.now bytes.now (view self.old) (view self.new) }
        ensures memory { result ≡ Err NoMemory → IsAsTold (view self.old) (view self.new) }
        ensures cause { HasCause path.now (λ t. is_free_at t path.now) (view self.old)
            (view self.new) result }
        ensures strays { CountsStray (view self.old).guard.may_write path.now
            (view self.old) (view self.new) };

    /// In a told tree every entry stands in a folder, under parts that can name it.
    ghost whole: { (host : Self) → IfSome (view host).told IsWhole };
}
