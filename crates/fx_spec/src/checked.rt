ghost use Rattle.std.specs.Prelude.{◌≡◌, [], IfOk};
ghost use Rattle.fx_spec.specs.Views.{spec_tree};
ghost use Rattle.fx_spec.specs.Parts.{part_of};
ghost use Rattle.fx_spec.specs.TextViews.{written};
ghost use Rattle.fx_spec.specs.Written.{TextTree, text_tree};
ghost use Rattle.fx_spec.specs.WellShaped.{IsChecked, IsTextOf, IsScript, IsDescription, AreDefined};

use crate::description::{Defs, Description};
use crate::part::Part;
use crate::spec::Spec;
use crate::txn::Txns;
use fx_base::NoMemory;
use std::alloc::Global;
use std::marker::Model;
use std::sync::Arc;

/// A well-shaped description, nested at most 64 deep. What is written is shared. Contracts see what it means.
pub struct Checked {
    description: Arc<Description>,
}

/// It is written out, so that its parts are dropped in this crate alone.
impl Drop for Checked {
    fn drop(self) {
        let Checked {
            description: _description,
        } = self;
    }
}

impl Model for Checked {
    ghost use Rattle.fx_spec.specs.SpecTree.{SpecTree};
    ghost use Rattle.fx_spec.specs.Codes.{coded_spec};

    ghost Value = { SpecTree };

    ghost coded = { coded_spec };

    ghost use Rattle.fx_spec.specs.TextViews.{written};
    ghost use Rattle.fx_spec.specs.Written.{text_tree};
    ghost use Rattle.fx_spec.specs.WellShaped.{IsChecked};

    ghost view = { λ c. text_tree (written c.description.value) };

    ghost invariant = { λ c. IsChecked (written c.description.value) };
}

impl Checked {
    /// The description, which the caller has found to be well shaped.
    pub fn of(alloc: Global, description: Description) -> Result<Checked, NoMemory>
        requires { IsChecked (written description) }
        ensures { IfOk result (λ checked. checked ≡ text_tree (written description)) }
    {
        let description = Arc::new(alloc, description)?;
        Ok(Checked { description })
    }

    /// An equal description: both share what is written.
    pub fn copy(&self) -> Result<Checked, NoMemory>
        ensures { IfOk result (λ checked. checked ≡ self.now) }
    {
        let description = Arc::try_clone(&self.description)?;
        Ok(Checked { description })
    }

    /// Lets go of the description.
    pub fn let_go(self) {}

    /// The root description, as it is written.
    pub fn spec(&self) -> &Spec
        ensures { (text : TextTree) × IsTextOf text self.now × (text.root ≡ spec_tree result.now) }
    {
        &self.description.root
    }

    /// The definitions, as they are written.
    pub fn defs(&self) -> &Defs
        ensures { (text : TextTree) × IsTextOf text self.now × (text.defs ≡ result.now) }
    {
        &self.description.defs
    }

    /// The root description and the definitions, as they are written: both of one text.
    pub fn parts(&self) -> (&Spec, &Defs)
        ensures text { text_tree (record { root = spec_tree result.0.now; defs = result.1.now })
            ≡ self.now }
    {
        (&self.description.root, &self.description.defs)
    }

    /// The root description, with its definitions.
    pub fn root(&self) -> Part<'_>
        ensures tree { part_of result ≡ self.now }
        ensures described { IsDescription [] self.now }
        ensures defined { AreDefined result.defs.now }
    {
        Part {
            spec: &self.description.root,
            defs: &self.description.defs,
            level: 0,
        }
    }
}

/// A list of well-shaped transactions. Contracts see the list of their commands.
pub struct Script {
    txns: Txns,
}

/// It is written out, so that its parts are dropped in this crate alone.
impl Drop for Script {
    fn drop(self) {
        let Script { txns: _txns } = self;
    }
}

impl Model for Script {
    ghost use Rattle.std.specs.Prelude.{List};
    ghost use Rattle.std.specs.Coded.{coded_list};
    ghost use Rattle.fx_spec.specs.CommandTree.{CommandTree};
    ghost use Rattle.fx_spec.specs.Codes.{coded_commands};

    ghost Value = { List (List CommandTree) };

    ghost coded = { coded_list coded_commands };

    ghost use Rattle.fx_spec.specs.WellShaped.{IsScript};

    ghost view = { λ s. s.txns };

    ghost invariant = { λ s. IsScript s.txns };
}

impl Script {
    /// The transactions, which the caller has found to be well shaped.
    pub fn of(txns: Txns) -> Script
        requires { IsScript txns }
        ensures { result ≡ txns }
    {
        Script { txns }
    }

    /// Lets go of the script.
    pub fn let_go(self) {}

    /// The transactions of the script.
    pub(crate) fn txns(&self) -> &Txns
        ensures value { result.now ≡ self.now }
        ensures script { IsScript self.now }
    {
        &self.txns
    }
}
