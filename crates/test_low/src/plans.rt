//! Plans, where memory is ample.

use fx_base::NoMemory;
use fx_spec::{Command, Commands, Plan, Script, Txn, Txns};
use std::alloc::Global;
use std::fmt::Write;

/// A plan of one script, which has one transaction.
fn one_script(alloc: Global) -> Result<Plan, NoMemory> {
    let mut commands = Commands::new(alloc);
    commands.add(alloc, Command::Abort)?;
    let mut txns = Txns::new(alloc);
    txns.add(alloc, Txn { commands })?;
    let mut plan = Plan::new(alloc);
    match plan.push(alloc, Script::of(txns)) {
        Ok(()) => Ok(plan),
        Err(_) => Err(NoMemory),
    }
}

/// How many transactions the first two shells have, and whether each has a first one.
fn counts(plan: &Plan) -> (u32, u32, bool, bool) {
    (
        plan.count(0),
        plan.count(1),
        plan.txn(0, 0).is_some(),
        plan.txn(1, 0).is_some(),
    )
}

/// How many scripts there are, their counts, and whether the first has a second transaction.
fn plan_told(alloc: Global) -> Result<(u32, (u32, u32, bool, bool), bool), NoMemory> {
    let plan = one_script(alloc)?;
    Ok((plan.len(), counts(&plan), plan.txn(0, 1).is_some()))
}

fn commands_told(alloc: Global) -> Result<u64, NoMemory> {
    let mut commands = Commands::new(alloc);
    commands.add(alloc, Command::Abort)?;
    Ok(commands.len())
}

fn txns_told(alloc: Global) -> Result<u64, NoMemory> {
    let mut txns = Txns::new(alloc);
    let commands = Commands::new(alloc);
    txns.add(alloc, Txn { commands })?;
    Ok(txns.len())
}

/// Tells what is counted of a plan, of commands and of transactions.
pub fn tell_plans(alloc: Global, out: &mut String) -> Result<(), NoMemory> {
    writeln!(out, "> plan {:?}", plan_told(alloc)?)?;
    writeln!(out, "> commands {:?}", commands_told(alloc)?)?;
    writeln!(out, "> transactions {:?}", txns_told(alloc)?)?;
    Ok(())
}
