ghost use Rattle.std.specs.Prelude.{◌≡◌, IsSome, IfOk, IfErr, Some};
ghost use Rattle.fx_spec.specs.Bases.{base_tree};
ghost use Rattle.fx_spec.specs.Plans.{txn_of};
ghost use Rattle.fx_spec.specs.WellShaped.{IsTransaction};
ghost use Rattle.fx_machine.specs.Explained.{IsExplained};
ghost use Rattle.fx_run.specs.Finishing.{Finishes};
ghost use Rattle.fx_machine.specs.Needs.{ReadsFit, Foretells};
ghost use Rattle.fx_run.specs.Running.{IsAttemptOf, StoppedAt};

use crate::finishing::finish;
use crate::pursuing::pursue;
use fx_machine::Attempt;
use fx_spec::{Base, Commands, Plan};
use fx_view::{Reader, Stop};
use std::alloc::Global;
use std::marker::Brand;
use std::sync::Arc;
use std::sync::ledger::Blank;

/// The commands of a transaction of the plan.
fn commands_of(plan: &Plan, shell: u32, txn: u32) -> &Commands
    requires planned { IsSome (txn_of plan.now (shell, txn)) }
    ensures txn { txn_of plan.now (shell, txn) ≡ Some result.now }
    ensures shaped { IsTransaction result.now }
{
    let _scripts = plan.len();
    match plan.txn(shell, txn) {
        Some(txn) => &txn.commands,
        None => unreachable!(),
    }
}

/// Runs the commands of a transaction as an attempt.
fn attempt<R: Reader>(
    alloc: Global,
    base: &Arc<Base>,
    commands: &Commands,
    shell: u32,
    txn: u32,
    reader: &mut R,
) -> Result<Attempt, Stop>
    requires { IsTransaction commands.now }
    ensures { Finishes R.meaning base.now.value.description commands.now shell txn
        reader.old reader.new result }
{
    let ran = pursue::<R, Brand>(alloc, reader, base, commands, Blank::new(1))?;
    let finished = finish(alloc, reader.reads(), ran)?;
    Ok(Attempt {
        shell,
        txn,
        reads: reader.take_reads(alloc),
        changes: finished.changes,
        outputs: finished.outputs,
        end: finished.end,
    })
}

/// Runs a transaction of the plan over what the reader reads. The reader's reads, on each whole filestore that agrees with
/// them, need to be of paths that the transaction consults there; no reads are. The attempt holds the reads that the reader
/// had at the end, in the order in which the transaction came to their paths, and the reader then has none. After `Needs` the
/// reads with the needed path are such again.
pub fn run<R: Reader>(
    alloc: Global,
    base: &Arc<Base>,
    shell: u32,
    txn: u32,
    reader: &mut R,
) -> Result<Attempt, Stop>
    requires planned { IsSome (txn_of base.now.value.plan (shell, txn)) }
    requires fit { ReadsFit (base_tree base.now.value) (shell, txn) (R.meaning.reads reader.old) }
    ensures explained { IfOk result (IsExplained (base_tree base.now.value)) }
    ensures attempted { IfOk result (IsAttemptOf R.meaning reader.old reader.new shell txn) }
    ensures foretold { IfOk result (λ a. Foretells (base_tree base.now.value) (shell, txn)
        (R.meaning.reads reader.old) a.reads) }
    ensures stopped { IfErr result
        (StoppedAt R.meaning (base_tree base.now.value) (shell, txn) reader.old reader.new) }
{
    let commands = commands_of(&base.plan, shell, txn);
    attempt(alloc, base, commands, shell, txn, reader)
}
