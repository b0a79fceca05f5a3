//! The base of a number.
ghost use Rattle.std.specs.Prelude.{◌≡◌, ◌+◌, ◌≤◌, ◌<◌, [], ℕ, IfOk, OnOk};
ghost use Rattle.fx_spec.specs.Bases.{base_tree};
ghost use Rattle.fx_gen.specs.Scripts.{description, generated_script};
ghost use Rattle.fx_gen.specs.Trees.{description_tree, script_tree};
ghost use Rattle.fx_large_commands.specs.Base.{generated_base, AreGenerated, IsPlanOf, IsReading};
ghost use Rattle.fx_spec.specs.WellShaped.{IsScript};

use fx_base::{Listed, NoMemory};
use fx_command::{SourceFault, description_of, script_of};
use fx_expr::Text;
use fx_gen::{Generated, generate};
use fx_spec::{Base, Checked, Plan, Script};
use std::alloc::Global;
use std::sync::Arc;

/// How many scripts a case has, and how many transactions each of them.
const SCRIPTS: u32 = 8;

const TXNS: u32 = 200;

/// The description for which the generated text stands.
fn description(alloc: Global, text: &[u8]) -> Result<Checked, NoMemory>
    requires { text.now ≡ description }
    ensures { IfOk result (λ spec. spec ≡ description_tree) }
{
    match description_of(alloc, text) {
        Ok(spec) => Ok(spec),
        Err(fault) => Err(no_memory(fault)),
    }
}

/// What is left of a fault where the text is refused for no cause.
fn no_memory(fault: SourceFault) -> NoMemory
    requires { fault ≡ SourceFault.NoMemory }
{
    NoMemory
}

/// The script for which a generated text stands.
fn script(alloc: Global, text: &[u8], before: u32) -> Result<Script, NoMemory>
    requires text { (number : ℕ) × (k : ℕ) × (k < 8) × (text.now ≡ generated_script number k) }
    requires few { before ≤ 1400 }
    ensures script { IfOk result (λ script. (number k : ℕ) → k < 8 → text.now ≡ generated_script number k
        → script ≡ script_tree number k) }
    ensures shaped { IfOk result IsScript }
{
    match script_of(alloc, text, before) {
        Ok(script) => Ok(script),
        Err(fault) => Err(no_memory(fault)),
    }
}

/// Adds the script of a number to a plan that has those before it.
fn add_script(alloc: Global, plan: &mut Plan, texts: &Listed<Text>, k: u32) -> Result<(), NoMemory>
    requires generated { AreGenerated texts.now }
    requires small { k < 8 }
    requires before { IsReading texts.now k plan.old }
    ensures { OnOk result (IsReading texts.now (k + 1) plan.new) }
{
    let text = match texts.get(k as usize) {
        Some(text) => text,
        None => unreachable!(),
    };
    let script = script(alloc, text.as_slice(), TXNS * k)?;
    plan.add(alloc, script)
}

/// Adds the scripts for which generated texts stand to an empty plan.
fn add_scripts(alloc: Global, plan: &mut Plan, texts: &Listed<Text>) -> Result<(), NoMemory>
    requires generated { AreGenerated texts.now }
    requires none { plan.old ≡ [] }
    ensures { OnOk result (IsPlanOf texts.now 8 plan.new) }
{
    'scripts: for k in 0..SCRIPTS {
        add_script(alloc, plan, texts, k)?;
    }
    Ok(())
}

/// The plan for which generated texts stand.
fn plan(alloc: Global, texts: &Listed<Text>) -> Result<Plan, NoMemory>
    requires { AreGenerated texts.now }
    ensures { IfOk result (IsPlanOf texts.now 8) }
{
    let mut plan = Plan::new(alloc);
    match add_scripts(alloc, &mut plan, texts) {
        Ok(()) => Ok(plan),
        Err(fault) => {
            plan.let_go();
            Err(fault)
        }
    }
}

/// The description and the plan of a case.
fn read(alloc: Global, case: &Generated) -> Result<(Checked, Plan), NoMemory>
    requires description { case.now.description ≡ description }
    requires scripts { AreGenerated case.now.scripts }
    ensures description { IfOk result (λ r. r.0 ≡ description_tree) }
    ensures plan { IfOk result (λ r. IsPlanOf case.now.scripts 8 r.1) }
{
    let description = description(alloc, case.description.as_slice())?;
    match plan(alloc, &case.scripts) {
        Ok(plan) => Ok((description, plan)),
        Err(fault) => {
            description.let_go();
            Err(fault)
        }
    }
}

/// The base of a number.
pub(crate) fn base(alloc: Global, number: u32) -> Result<Arc<Base>, NoMemory>
    ensures { IfOk result (λ base. base_tree base.value ≡ generated_base number) }
{
    let case = generate(alloc, number)?;
    let texts = read(alloc, &case);
    let store = case.into_store();
    match texts {
        Ok((description, plan)) => Base::shared(alloc, description, plan, store),
        Err(fault) => {
            store.let_go();
            Err(fault)
        }
    }
}
