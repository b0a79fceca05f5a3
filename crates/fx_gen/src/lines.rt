//! The texts of the scripts.
ghost use Rattle.std.specs.Prelude.{◌≡◌, ◌==◌, ◌<◌, ◌≤◌, ◌+◌, ◌*◌, ◌++◌, [], length, map, IfOk, OnOk};
ghost use Rattle.std.specs.Fmt.{decimal};
ghost use Rattle.std.specs.List.{flat_map, range_with_len};
ghost use Rattle.fx_base.specs.Limits.{source_limit};
ghost use Rattle.fx_gen.specs.Draws.{draws_after};
ghost use Rattle.fx_gen.specs.Notes.{two_digits};
ghost use Rattle.fx_gen.specs.Scripts.{front, tag, count_line, log_line, txn_line, kind_of, generated_script, logging_of};

use crate::draws::Draws;
use fx_base::{NoMemory, add_bytes};
use std::alloc::Global;

/// How many scripts there are, and how many transactions each has.
pub(crate) const SCRIPTS: u32 = 8;

pub(crate) const TXNS: u32 = 200;

/// The most bytes of a transaction's line.
const LINE: usize = 128;

/// A number below 100 in two digits.
pub(crate) fn two_digits(number: u32) -> [u8; 2]
    requires { number < 100 }
    ensures { result ≡ two_digits number }
{
    [b'0' + (number / 10) as u8, b'0' + (number % 10) as u8]
}

/// Adds a number in decimal digits.
fn add_number(out: &mut Vec<u8>, number: u32) -> Result<(), NoMemory>
    ensures { OnOk result (out.new.items ≡ out.old.items ++ decimal number) }
{
    let digits = number.to_string(*out.allocator())?;
    add_bytes(out, digits.as_bytes())
}

/// Adds the front of a transaction, which goes to a project.
fn add_front(out: &mut Vec<u8>, project: u32) -> Result<(), NoMemory>
    requires { project < 100 }
    ensures { OnOk result (out.new.items ≡ out.old.items ++ front project) }
{
    add_bytes(out, b"txn { into next into to(\"p")?;
    add_bytes(out, &two_digits(project))?;
    add_bytes(out, b"\") down ")
}

/// Adds a transaction that counts in a project.
#[tactic(auto, unfolding(crate::specs::Scripts::count_line))]
fn add_count(out: &mut Vec<u8>, project: u32) -> Result<(), NoMemory>
    requires { project < 100 }
    ensures { OnOk result (out.new.items ≡ out.old.items ++ count_line project) }
{
    add_front(out, project)?;
    add_bytes(
        out,
        b"into down fetch n : str store(text((int(n) + 1))) }\n",
    )
}

/// Adds the name that a transaction logs.
fn add_tag(out: &mut Vec<u8>, script: u32, place: u32) -> Result<(), NoMemory>
    ensures { OnOk result (out.new.items ≡ out.old.items ++ tag script place) }
{
    add_bytes(out, b"s")?;
    add_number(out, script)?;
    add_bytes(out, b"t")?;
    add_number(out, place)
}

/// Adds a transaction that logs its script and its place in a project.
#[tactic(auto, unfolding(crate::specs::Scripts::log_line))]
fn add_log(out: &mut Vec<u8>, project: u32, script: u32, place: u32) -> Result<(), NoMemory>
    requires { project < 100 }
    ensures { OnOk result (out.new.items ≡ out.old.items ++ log_line project script place) }
{
    add_front(out, project)?;
    add_bytes(
        out,
        b"into next into down fetch l : names store((l union one(\"",
    )?;
    add_tag(out, script, place)?;
    add_bytes(out, b"\"))) }\n")
}

/// Adds the transaction at a place of a script, and gives whether it logs.
#[tactic(auto, unfolding(crate::specs::Scripts::kind_of, crate::specs::Scripts::project_of))]
fn add_txn(out: &mut Vec<u8>, draws: &mut Draws, script: u32, place: u32) -> Result<bool, NoMemory>
    requires script { script < SCRIPTS }
    requires place { place < TXNS }
    requires made { draws.old.made ≡ 257 + 2 * (TXNS * script + place) }
    ensures line { OnOk result
        (out.new.items ≡ out.old.items ++ txn_line draws.old.number script place) }
    ensures logs { IfOk result
        (λ logs. logs ≡ (kind_of draws.old.number (TXNS * script + place) == 3)) }
    ensures made { draws.new ≡ draws_after 2 draws.old }
    ensures short { OnOk result (length out.new.items ≤ length out.old.items + LINE) }
{
    let project = draws.draw(16);
    let logs = draws.draw(4) == 3;
    if logs {
        add_log(out, project, script, place)?;
    } else {
        add_count(out, project)?;
    }
    Ok(logs)
}

/// The text of a script. It counts the transactions that log.
pub(crate) fn script_text(
    alloc: Global,
    draws: &mut Draws,
    script: u32,
    logging: &mut u32,
) -> Result<Vec<u8>, NoMemory>
    requires script { script < SCRIPTS }
    requires made { draws.old.made ≡ 257 + 2 * (TXNS * script) }
    requires few { logging.old ≤ TXNS * script }
    requires logging { logging.old ≡ logging_of draws.old.number (TXNS * script) }
    ensures text { IfOk result (λ text. text.items ≡ generated_script draws.old.number script) }
    ensures short { IfOk result (λ text. length text.items ≤ source_limit) }
    ensures made { OnOk result (draws.new ≡ draws_after (2 * TXNS) draws.old) }
    ensures few { OnOk result (logging.new ≤ TXNS * script + TXNS) }
    ensures logging { OnOk result
        (logging.new ≡ logging_of draws.old.number (TXNS * script + TXNS)) }
{
    let mut text = Vec::new(alloc);
    for place in 0..TXNS {
        let logs = add_txn(&mut text, draws, script, place)?;
        *logging += u32::from(logs);
    }
    Ok(text)
}
