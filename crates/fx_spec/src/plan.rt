ghost use Rattle.std.specs.Prelude.{◌≡◌, ◌++◌, [], ◌∷◌, OnOk, IfErr, length};
ghost use Rattle.std.specs.Option.{option_map};
ghost use Rattle.fx_spec.specs.Plans.{IsPlan, count_of, txn_of};

use crate::checked::Script;
use crate::txn::Txn;
use fx_base::NoMemory;
use std::alloc::Global;
use std::marker::Model;

/// The scripts of a run, one for each shell: at most 64, with at most 100,000 transactions together. Contracts see the list
/// of scripts, each as the list of its transactions' commands.
pub struct Plan {
    scripts: Vec<Script>,
}

/// It is written out, so that its parts are dropped in this crate alone.
impl Drop for Plan {
    fn drop(self) {
        let Plan { scripts: _scripts } = self;
    }
}

impl Model for Plan {
    ghost use Rattle.std.specs.Prelude.{List};
    ghost use Rattle.std.specs.Coded.{coded_list};
    ghost use Rattle.fx_spec.specs.CommandTree.{CommandTree};
    ghost use Rattle.fx_spec.specs.Codes.{coded_commands};

    ghost Value = { List (List (List CommandTree)) };

    ghost coded = { coded_list (coded_list coded_commands) };

    ghost use Rattle.fx_spec.specs.Plans.{IsPlan};

    ghost view = { λ p. p.scripts.items };

    ghost invariant = { λ p. IsPlan p.scripts.items };
}

impl Plan {
    /// No scripts.
    pub fn new(alloc: Global) -> Plan
        ensures { result ≡ [] }
    {
        Plan {
            scripts: Vec::new(alloc),
        }
    }

    /// Adds the script of one more shell; the caller keeps both limits. A refusal changes nothing and hands the script back.
    pub fn push(&mut self, _alloc: Global, script: Script) -> Result<(), (Script, NoMemory)>
        requires { IsPlan (self.old ++ script ∷ []) }
        ensures ok { OnOk result (self.new ≡ self.old ++ script ∷ []) }
        ensures err { IfErr result (λ e. (e.0 ≡ script) × (self.new ≡ self.old)) }
    {
        match self.scripts.push(script) {
            Ok(()) => Ok(()),
            Err(refused) => Err((refused.value, NoMemory)),
        }
    }

    /// Adds the script of one more shell; the caller keeps both limits. After a refusal the script is let go.
    pub fn add(&mut self, alloc: Global, script: Script) -> Result<(), NoMemory>
        requires { IsPlan (self.old ++ script ∷ []) }
        ensures ok { OnOk result (self.new ≡ self.old ++ script ∷ []) }
        ensures err { IfErr result (λ _. self.new ≡ self.old) }
    {
        match self.push(alloc, script) {
            Ok(()) => Ok(()),
            Err((script, fault)) => {
                script.let_go();
                Err(fault)
            }
        }
    }

    /// Lets go of the scripts.
    pub fn let_go(self) {}

    /// The number of scripts.
    pub fn len(&self) -> u32
        ensures len { result ≡ length self.now }
        ensures plan { IsPlan self.now }
    {
        self.scripts.len() as u32
    }

    /// The number of a script's transactions; 0 where there is no such script.
    pub fn count(&self, shell: u32) -> u32
        ensures { result ≡ count_of self.now shell }
    {
        match self.scripts.get(shell as usize) {
            Some(script) => script.txns().len() as u32,
            None => 0,
        }
    }

    /// A transaction of a script; None exactly where there is none.
    pub fn txn(&self, shell: u32, txn: u32) -> Option<&Txn>
        ensures { option_map (λ t. t.now.commands) result ≡ txn_of self.now (shell, txn) }
    {
        match self.scripts.get(shell as usize) {
            Some(script) => script.txns().at(txn as u64),
            None => None,
        }
    }
}
