//! The text of a script, which may be read ahead of those before it.
ghost use Rattle.std.specs.Prelude.{◌≡◌, ◌+◌, ◌≤◌, List, length, IfOk, IfErr, IfSome, IsSomeAnd};
ghost use Rattle.fx_base.specs.Limits.{txn_limit};
ghost use Rattle.fx_spec.specs.CommandTree.{CommandTree};
ghost use Rattle.fx_spec.specs.WellShaped.{IsScript};
ghost use Rattle.fx_command.specs.Scripted.{Scripts, IsUnscripted};
ghost use Rattle.fx_command.specs.Ahead.{IsAlone};

use crate::fault::SourceFault;
use crate::scripted::script_of;
use fx_base::TXN_LIMIT;
use fx_check::check_script;
use fx_source_parse::script::parse;
use fx_spec::Script;
use std::alloc::Global;
use std::marker::Model;

/// A script that follows no other, and the number of its transactions.
#[derive(Drop)]
pub(crate) struct Alone {
    pub script: Script,
    pub count: u64,
}

/// The script of a text that follows no other; none where the text is refused, or memory runs out.
fn alone_of(alloc: Global, text: &[u8]) -> Result<Alone, SourceFault>
    ensures { IfOk result (λ alone. IsAlone text.now alone) }
{
    let txns = parse(alloc, text)?;
    let count = txns.len();
    let script = check_script(alloc, txns, 0)?;
    Ok(Alone { script, count })
}

/// The script, where it may follow so many transactions.
fn script_after(alone: Option<Alone>, before: u32) -> Option<Script>
    requires { before ≤ txn_limit }
    ensures { IfSome result (λ script. IsSomeAnd alone (λ alone.
        (alone.script ≡ script) × (before + alone.count ≤ txn_limit))) }
{
    match alone {
        Some(Alone { script, count }) => {
            if count <= TXN_LIMIT - u64::from(before) {
                Some(script)
            } else {
                None
            }
        }
        None => None,
    }
}

/// The text of a script. It may be read before those that it follows are. What is then found is kept beside it, and contracts
/// see the text alone.
pub struct Source {
    text: Vec<u8>,
    alone: Option<Alone>,
}

impl Model for Source {
    ghost use Rattle.std.specs.Prelude.{ℕ, List, IfSome};
    ghost use Rattle.fx_command.specs.Ahead.{IsAlone};

    ghost Value = { List ℕ };

    ghost view = { λ s. s.text.items };

    ghost invariant = { λ s. IfSome s.alone (IsAlone s.text.items) };
}

/// It is written out, so that its parts are dropped in this crate alone.
impl Drop for Source {
    fn drop(self) {
        let Source {
            text: _text,
            alone: _alone,
        } = self;
    }
}

impl Source {
    /// A text that is not read ahead.
    pub fn new(text: Vec<u8>) -> Source
        ensures { result ≡ text.items }
    {
        Source { text, alone: None }
    }

    /// The number of bytes.
    pub fn len(&self) -> usize
        ensures { result ≡ length self.now }
    {
        self.text.len()
    }

    /// The text, read ahead.
    pub fn read_ahead(self, alloc: Global) -> Source
        ensures { result ≡ self }
    {
        let Source { text, alone: _ } = self;
        let alone = alone_of(alloc, &text).ok();
        Source { text, alone }
    }

    /// The script that the text stands for, after so many transactions, as `script_of` tells it.
    pub fn into_script(self, alloc: Global, before: u32) -> Result<Script, SourceFault>
        requires { before ≤ txn_limit }
        ensures read { IfOk result (λ script. Scripts self before script) }
        ensures only { IfOk result (λ script. (others : List (List CommandTree))
            → Scripts self before others → others ≡ script) }
        ensures shaped { IfOk result IsScript }
        ensures refused { IfErr result (IsUnscripted self before) }
    {
        let Source { text, alone } = self;
        match script_after(alone, before) {
            Some(script) => Ok(script),
            None => script_of(alloc, &text, before),
        }
    }
}
