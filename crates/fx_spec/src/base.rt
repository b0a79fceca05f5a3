ghost use Rattle.std.specs.Prelude.{◌≡◌, IfOk};

use crate::checked::Checked;
use crate::plan::Plan;
use fx_base::NoMemory;
use fx_store::Filestore;
use std::alloc::Global;
use std::sync::Arc;

/// What a run begins with: a description, the scripts of its shells, and the loaded filestore.
pub struct Base {
    pub description: Checked,
    pub plan: Plan,
    pub loaded: Filestore,
}

/// It is written out, so that its parts are dropped in this crate alone.
impl Drop for Base {
    fn drop(self) {
        let Base {
            description: _description,
            plan: _plan,
            loaded: _loaded,
        } = self;
    }
}

impl Base {
    /// A base of these parts, to be shared.
    pub fn shared(
        alloc: Global,
        description: Checked,
        plan: Plan,
        loaded: Filestore,
    ) -> Result<Arc<Base>, NoMemory>
        ensures { IfOk result (λ base.
            base.value ≡ record { description = description; plan = plan; loaded = loaded }) }
    {
        let base = Base {
            description,
            plan,
            loaded,
        };
        Ok(Arc::new(alloc, base)?)
    }

    /// Lets go of a base.
    pub fn let_go(_: Arc<Base>) {}
}
