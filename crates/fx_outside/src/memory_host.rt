//! A host in memory, for tests.
ghost use Rattle.std.specs.Prelude.{◌≡◌, ◌≤◌, [], IfOk, OnOk, OnErr, None, true, false};
ghost use Rattle.std.specs.FinMap.{empty, insert};
ghost use Rattle.fx_outside.specs.Path.{is_fit, parts};
ghost use Rattle.fx_outside.specs.Tree.{IsWhole, is_free_at};
ghost use Rattle.fx_outside.specs.Memory.{tree_of};

use crate::calls::Calls;
use crate::memory_tree::{Entries, add, has_folder, is_free, kind_at, names_in, read_at};
use crate::parts::Parts;
use crate::{Host, HostFault, HostKind, HostText, Listing, Standing};
use std::alloc::Global;
use std::collections::BTreeMap;

/// Holds a tree that it tells, and fails at the calls that it is told to fail.
#[derive(Debug)]
pub struct MemoryHost {
    tree: Entries,
    calls: Calls,
    last_fault: Option<HostText>,
    strays: u64,
    ghost whole: { IsWhole (tree_of tree.entries) },
}

/// It is written out, so that its parts are dropped in this crate alone.
impl Drop for MemoryHost {
    fn drop(self) {
        let MemoryHost {
            tree: _tree,
            calls: _calls,
            last_fault: _last_fault,
            strays: _strays,
        } = self;
    }
}

impl MemoryHost {
    ghost use Rattle.fx_outside.specs.Calls.{no_calls, with_call, with_failing, with_fault, is_next_failing};
    ghost use Rattle.fx_outside.specs.Tree.{is_file_kind};
    ghost use Rattle.fx_outside.specs.Host.{CountsStray, FaultAt};
    ghost use Rattle.fx_outside.specs.MemoryHost.{host_tree, host_calls, host_last_fault, host_guard, host_view};

    /// The tree's root alone.
    pub fn new(alloc: Global) -> MemoryHost
        ensures tree { host_tree result ≡ empty }
        ensures calls { host_calls result ≡ no_calls }
        ensures last { host_last_fault result ≡ None }
        ensures strays { (host_guard result).strays ≡ 0 }
    {
        MemoryHost {
            tree: BTreeMap::new(alloc),
            calls: Calls::new(alloc),
            last_fault: None,
            strays: 0,
        }
    }

    /// Whether an entry may be put at a path: nothing stands there, and a folder stands above.
    pub fn is_free(&self, alloc: Global, path: &HostText) -> Result<bool, fx_base::NoMemory>
        ensures { IfOk result (λ free. free ≡ is_free_at (host_tree self.now) path.now) }
    {
        match Parts::read(alloc, path)? {
            None => Ok(false),
            Some(names) => is_free(alloc, &self.tree, &names),
        }
    }

    /// Adds an entry. It is no call that is counted. A refusal changes nothing.
    pub fn put(
        &mut self,
        alloc: Global,
        path: &HostText,
        kind: HostKind,
        bytes: &[u8],
    ) -> Result<(), fx_base::NoMemory>
        requires free { is_free_at (host_tree self.old) path.now ≡ true }
        requires bytes { is_file_kind kind ≡ false → bytes.now ≡ [] }
        ensures added { OnOk result (host_tree self.new
            ≡ insert (host_tree self.old) (parts path.now)
            (record { kind = kind; bytes = bytes.now })) }
        ensures same { OnErr result (host_tree self.new ≡ host_tree self.old) }
        ensures calls { host_calls self.new ≡ host_calls self.old }
        ensures last { host_last_fault self.new ≡ host_last_fault self.old }
        ensures guard { host_guard self.new ≡ host_guard self.old }
    {
        match Parts::read(alloc, path)? {
            None => unreachable!(),
            Some(names) => {
                let bytes = Vec::from_slice(alloc, bytes)?;
                add(&mut self.tree, names, kind, bytes)
            }
        }
    }

    /// Has the call of a number, counted from 0 over all calls of `Host`, fail.
    pub fn fail(&mut self, _alloc: Global, call: u64) -> Result<(), fx_base::NoMemory>
        ensures added { OnOk result
            (host_calls self.new ≡ with_failing (host_calls self.old) call) }
        ensures same { OnErr result (host_calls self.new ≡ host_calls self.old) }
        ensures last { host_last_fault self.new ≡ host_last_fault self.old }
        ensures tree { host_tree self.new ≡ host_tree self.old }
        ensures guard { host_guard self.new ≡ host_guard self.old }
    {
        self.calls.fail(call)
    }

    /// How often it has failed.
    pub fn faults(&self) -> u64
        ensures { result ≡ (host_view self.now).faults }
    {
        self.calls.faults()
    }

    /// Counts a call at this path, and says whether it is to fail.
    fn begin(&mut self, path: &HostText) -> bool
        ensures fails { result ≡ is_next_failing (host_calls self.old) }
        ensures counts { host_calls self.new ≡ with_call (host_calls self.old) }
        ensures last { host_last_fault self.new ≡ host_last_fault self.old }
        ensures tree { host_tree self.new ≡ host_tree self.old }
        ensures strays { CountsStray is_fit path.now (host_view self.old) (host_view self.new) }
    {
        if !path.is_fit() {
            self.strays = self.strays.saturating_add(1);
        }
        self.calls.begin()
    }

    /// Counts a fault at this path. A refusal counts none.
    fn count_fault(&mut self, alloc: Global, path: &HostText) -> Result<(), fx_base::NoMemory>
        ensures fault { OnOk result
            (FaultAt path.now (host_view self.old) (host_view self.new)) }
        ensures counts { OnOk result (host_calls self.new ≡ with_fault (host_calls self.old)) }
        ensures same { OnErr result (host_view self.new ≡ host_view self.old) }
        ensures calls { OnErr result (host_calls self.new ≡ host_calls self.old) }
        ensures later { (host_view self.old).faults ≤ (host_view self.new).faults }
        ensures tree { host_tree self.new ≡ host_tree self.old }
        ensures guard { host_guard self.new ≡ host_guard self.old }
    {
        let place = path.copy(alloc)?;
        self.calls.fault();
        self.last_fault = Some(place);
        Ok(())
    }
}

impl Host for MemoryHost {
    ghost use Rattle.std.specs.Prelude.{◌≡◌, ◌<◌, ◌≤◌, length, IfOk, OnOk, IfSome, Some, true, false};
    ghost use Rattle.fx_outside.specs.Path.{is_fit};
    ghost use Rattle.fx_outside.specs.Tree.{is_folder_at, is_file_at, is_free_at, file, folder};
    ghost use Rattle.fx_outside.specs.Host.{ReadsOnly, HasCause, CountsStray, TellsStanding, TellsNames, TellsBytes, IsAsTold, Adds, MayAdd, MayHoldPrefix};
    ghost use Rattle.fx_outside.specs.Calls.{FollowsPlan};
    ghost use Rattle.fx_outside.specs.MemoryHost.{host_tree, host_calls, host_view};
    ghost use Rattle.fx_outside.specs.declared.kind.HostFault.TheVariants.{Failed, NoMemory};

    ghost view = { host_view };

    ghost whole = { λ h. h.whole };

    fn standing(&mut self, alloc: Global, path: &HostText) -> Result<Standing, HostFault>
        ensures answer { IfOk result (TellsStanding (host_view self.old) path.now) }
        ensures same { ReadsOnly (host_view self.old) (host_view self.new) }
        ensures cause { HasCause path.now (λ _. is_fit path.now) (host_view self.old)
            (host_view self.new) result }
        ensures strays { CountsStray is_fit path.now (host_view self.old) (host_view self.new) }
        ensures plan { FollowsPlan (host_calls self.old) (host_calls self.new)
            (is_fit path.now) Failed result }
    {
        let fails = self.begin(path);
        let Some(names) = Parts::read(alloc, path)? else {
            return Err(HostFault::Failed);
        };
        if fails {
            self.count_fault(alloc, path)?;
            return Err(HostFault::Failed);
        }
        match kind_at(&self.tree, &names) {
            None => Ok(Standing::Absent),
            Some(kind) => Ok(Standing::Is(kind)),
        }
    }

    fn list(&mut self, alloc: Global, path: &HostText) -> Result<Listing, HostFault>
        ensures answer { IfOk result (TellsNames (host_view self.old) path.now) }
        ensures same { ReadsOnly (host_view self.old) (host_view self.new) }
        ensures cause { HasCause path.now (λ t. is_folder_at t path.now) (host_view self.old)
            (host_view self.new) result }
        ensures strays { CountsStray is_fit path.now (host_view self.old) (host_view self.new) }
        ensures plan { FollowsPlan (host_calls self.old) (host_calls self.new)
            (is_folder_at (host_tree self.old) path.now) Failed result }
    {
        let fails = self.begin(path);
        let Some(names) = Parts::read(alloc, path)? else {
            return Err(HostFault::Failed);
        };
        if kind_at(&self.tree, &names) != Some(HostKind::Folder) {
            return Err(HostFault::Failed);
        }
        if fails {
            self.count_fault(alloc, path)?;
            return Err(HostFault::Failed);
        }
        Ok(names_in(alloc, &self.tree, &names)?)
    }

    fn read(
        &mut self,
        alloc: Global,
        path: &HostText,
        from: u64,
        buf: &mut [u8],
    ) -> Result<usize, HostFault>
        requires { 0 < length buf.old }
        ensures bound { IfOk result (λ n. n ≤ length buf.new) }
        ensures answer { IfOk result (TellsBytes (host_view self.old) path.now from buf.new) }
        ensures same { ReadsOnly (host_view self.old) (host_view self.new) }
        ensures cause { HasCause path.now (λ t. is_file_at t path.now) (host_view self.old)
            (host_view self.new) result }
        ensures strays { CountsStray is_fit path.now (host_view self.old) (host_view self.new) }
        ensures plan { FollowsPlan (host_calls self.old) (host_calls self.new)
            (is_file_at (host_tree self.old) path.now) Failed result }
    {
        let fails = self.begin(path);
        let Some(names) = Parts::read(alloc, path)? else {
            return Err(HostFault::Failed);
        };
        if kind_at(&self.tree, &names) != Some(HostKind::File) {
            return Err(HostFault::Failed);
        }
        if fails {
            self.count_fault(alloc, path)?;
            return Err(HostFault::Failed);
        }
        Ok(read_at(&self.tree, &names, from, buf))
    }

    fn make_dir(&mut self, alloc: Global, path: &HostText) -> Result<(), HostFault>
        ensures made { OnOk result
            (Adds path.now folder (host_view self.old) (host_view self.new)) }
        ensures failed { result ≡ Err Failed
            → MayAdd path.now folder (host_view self.old) (host_view self.new) }
        ensures memory { result ≡ Err NoMemory
            → IsAsTold (host_view self.old) (host_view self.new) }
        ensures cause { HasCause path.now (λ t. is_free_at t path.now) (host_view self.old)
            (host_view self.new) result }
        ensures strays { CountsStray is_fit path.now (host_view self.old) (host_view self.new) }
        ensures plan { FollowsPlan (host_calls self.old) (host_calls self.new)
            (is_free_at (host_tree self.old) path.now) Failed result }
    {
        let fails = self.begin(path);
        let Some(names) = Parts::read(alloc, path)? else {
            return Err(HostFault::Failed);
        };
        if !is_free(alloc, &self.tree, &names)? {
            return Err(HostFault::Failed);
        }
        if fails {
            self.count_fault(alloc, path)?;
            return Err(HostFault::Failed);
        }
        add(&mut self.tree, names, HostKind::Folder, Vec::new(alloc))?;
        Ok(())
    }

    fn write_new(&mut self, alloc: Global, path: &HostText, bytes: &[u8]) -> Result<(), HostFault>
        ensures written { OnOk result
            (Adds path.now (file bytes.now) (host_view self.old) (host_view self.new)) }
        ensures failed { result ≡ Err Failed
            → MayHoldPrefix path.now bytes.now (host_view self.old) (host_view self.new) }
        ensures memory { result ≡ Err NoMemory
            → IsAsTold (host_view self.old) (host_view self.new) }
        ensures cause { HasCause path.now (λ t. is_free_at t path.now) (host_view self.old)
            (host_view self.new) result }
        ensures strays { CountsStray is_fit path.now (host_view self.old) (host_view self.new) }
        ensures plan { FollowsPlan (host_calls self.old) (host_calls self.new)
            (is_free_at (host_tree self.old) path.now) Failed result }
    {
        let fails = self.begin(path);
        let Some(names) = Parts::read(alloc, path)? else {
            return Err(HostFault::Failed);
        };
        if !is_free(alloc, &self.tree, &names)? {
            return Err(HostFault::Failed);
        }
        if fails {
            self.count_fault(alloc, path)?;
            return Err(HostFault::Failed);
        }
        let bytes = Vec::from_slice(alloc, bytes)?;
        add(&mut self.tree, names, HostKind::File, bytes)?;
        Ok(())
    }
}
