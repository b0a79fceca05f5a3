//! Room for the retries of a run.
ghost use Rattle.std.specs.Prelude.{◌≡◌, ◌≤◌, ◌+◌, [], OnOk, vec_capacity};

use fx_base::NoMemory;
use fx_machine::Retry;
use std::alloc::Global;

/// Room for so many retries, taken before each of them is noted, so that gathering them takes none.
#[derive(Drop)]
pub(crate) struct Room {
    items: Vec<Retry>,
    count: usize,
    ghost empty: { items.items ≡ [] },
    ghost reserved: { count ≤ vec_capacity items },
}

impl Room {
    /// Room for no retries.
    pub(crate) fn new(alloc: Global) -> Room
        ensures { result.count ≡ 0 }
    {
        Room {
            items: Vec::new(alloc),
            count: 0,
        }
    }

    /// Takes room for one retry more, which is not counted yet.
    pub(crate) fn grow(&mut self) -> Result<(), NoMemory>
        ensures more { OnOk result (self.old.count + 1 ≤ vec_capacity self.new.items) }
        ensures count { self.new.count ≡ self.old.count }
    {
        let Some(more) = self.count.checked_add(1) else {
            return Err(NoMemory);
        };
        self.items.reserve(more)?;
        Ok(())
    }

    /// Counts one retry more, for which there is room.
    pub(crate) fn note(&mut self)
        requires { self.old.count + 1 ≤ vec_capacity self.old.items }
        ensures { self.new.count ≡ self.old.count + 1 }
    {
        let _capacity = self.items.capacity();
        self.count += 1;
    }

    /// The room, as an empty vector.
    pub(crate) fn into_vec(self) -> Vec<Retry>
        ensures empty { result.items ≡ [] }
        ensures reserved { self.count ≤ vec_capacity result }
    {
        let Room { items, count: _ } = self;
        items
    }
}
