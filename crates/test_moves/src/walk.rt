//! A zipper that goes through the commands of a case.
ghost use Rattle.std.specs.Prelude.{◌≡◌, ◌<◌, IfOk, IsOk};
ghost use Rattle.fx_session.specs.Halts.{split};
ghost use Rattle.test_moves.specs.Ready.{IsReadyWalk};

use crate::acts::{ask, edit_by, move_by};
use crate::spelled::{node_of, path_of, shape_of, text_of, value_of};
use crate::telling::{tell_answer, tell_done, tell_own, tell_place, tell_reads, tell_refusal};
use crate::verbs::{Edit, Move, Put, Question, Verb, verb_of};
use fx_base::{NoMemory, Steps};
use fx_session::{Halt, Session};
use fx_spec::Base;
use fx_store::Path;
use fx_view::{Overlay, Reader, Whole};
use fx_zip::Zip;
use std::alloc::Global;
use std::sync::Arc;
use std::sync::ledger::{Blank, Ledger};
use test_lines::split_word;

/// A zipper over a base, with what it reads through.
#[derive(Drop)]
pub struct Walk<'a, 'b, L: Ledger> {
    pub zip: Zip,
    pub session: Session<'a, Whole<'b>, L>,
}

fn tell_move<L: Ledger>(
    walk: &mut Walk<'_, '_, L>,
    act: Move,
    spelled: &str,
    out: &mut String,
) -> Result<(), NoMemory>
    requires { IsReadyWalk walk.old }
    ensures { IfOk result (λ _. IsReadyWalk walk.new) }
{
    let text = text_of(walk.session.alloc, spelled)?;
    let answer = move_by(walk, act, &text);
    tell_done(out, answer)
}

fn tell_question<L: Ledger>(
    walk: &mut Walk<'_, '_, L>,
    question: Question,
    spelled: &str,
    out: &mut String,
) -> Result<(), NoMemory>
    requires { IsReadyWalk walk.old }
    ensures { IfOk result (λ _. IsReadyWalk walk.new) }
{
    let shape = shape_of(walk.session.alloc, spelled)?;
    let answer = ask(walk, question, &shape);
    tell_answer(walk.session.alloc, out, answer)
}

fn tell_edit<L: Ledger>(
    walk: &mut Walk<'_, '_, L>,
    edit: Edit,
    spelled: &str,
    out: &mut String,
) -> Result<(), NoMemory>
    requires { IsReadyWalk walk.old }
    ensures { IfOk result (λ _. IsReadyWalk walk.new) }
{
    let value = value_of(walk.session.alloc, spelled)?;
    let answer = edit_by(walk, edit, &value);
    tell_done(out, answer)
}

/// Reads a path, and says whether that was done.
fn is_read(alloc: Global, reader: &mut Whole, path: &Path) -> bool {
    reader.read(alloc, path).is_ok()
}

fn read(alloc: Global, reader: &mut Whole, spelled: &str) -> Result<(), NoMemory> {
    let path = path_of(alloc, spelled)?;
    if is_read(alloc, reader, &path) {
        Ok(())
    } else {
        Err(NoMemory)
    }
}

/// Puts an own change at a path.
fn change(
    alloc: Global,
    overlay: &mut Overlay,
    put: Put,
    path: &str,
    text: &str,
) -> Result<(), NoMemory> {
    let path = path_of(alloc, path)?;
    let node = node_of(alloc, put, text)?;
    overlay.put(alloc, path, node)
}

/// Reads a path, puts an own change there, and says so to the zipper.
fn put_by<L: Ledger>(walk: &mut Walk<'_, '_, L>, put: Put, spelled: &str) -> Result<(), NoMemory>
    ensures { IfOk result (λ _. IsReadyWalk walk.new) }
{
    let (path, text) = split_word(spelled);
    read(walk.session.alloc, &mut *walk.session.reader, path)?;
    change(walk.session.alloc, &mut walk.session.own, put, path, text)?;
    walk.zip.stored();
    Ok(())
}

/// Tells the place where the zipper stands, or the refusal.
fn tell_standing<L: Ledger>(
    walk: &Walk<'_, '_, L>,
    answer: Result<(), Halt>,
    out: &mut String,
) -> Result<(), NoMemory>
    ensures { IfOk result (λ _. IsOk (split answer)) }
{
    match answer {
        Ok(()) => tell_place(walk.session.alloc, out, &walk.zip.here()),
        Err(Halt::Refused(refusal)) => tell_refusal(out, &refusal),
        Err(Halt::Stopped(_)) => Err(NoMemory),
    }
}

fn tell_found<L: Ledger>(walk: &mut Walk<'_, '_, L>, out: &mut String) -> Result<(), NoMemory>
    requires { IsReadyWalk walk.old }
    ensures { IfOk result (λ _. IsReadyWalk walk.new) }
{
    let answer = walk.zip.find(&mut walk.session);
    tell_standing(walk, answer, out)
}

/// Tells what the reader of a session has read.
fn tell_known<L: Ledger>(
    session: &Session<'_, Whole<'_>, L>,
    out: &mut String,
) -> Result<(), NoMemory> {
    tell_reads(out, session.reader.reads())
}

/// Does what a line says, and tells what it gives.
fn obey<L: Ledger>(walk: &mut Walk<'_, '_, L>, line: &str, out: &mut String) -> Result<(), NoMemory>
    requires { IsReadyWalk walk.old }
    ensures { IfOk result (λ _. IsReadyWalk walk.new) }
{
    let (word, rest) = split_word(line);
    match verb_of(word) {
        Verb::Note => Ok(()),
        Verb::Move(act) => tell_move(walk, act, rest, out),
        Verb::Question(question) => tell_question(walk, question, rest, out),
        Verb::Edit(edit) => tell_edit(walk, edit, rest, out),
        Verb::Put(put) => put_by(walk, put, rest),
        Verb::Place => tell_found(walk, out),
        Verb::Reads => tell_known(&walk.session, out),
        Verb::Own => tell_own(out, &walk.session.own),
    }
}

fn add_line(out: &mut String, line: &str) -> Result<(), NoMemory> {
    out.push_str(line)?;
    out.push_str("\n")?;
    Ok(())
}

/// Adds lines, each command with what it gives.
fn add_lines<L: Ledger>(
    walk: &mut Walk<'_, '_, L>,
    lines: &str,
    out: &mut String,
) -> Result<(), NoMemory>
    requires { IsReadyWalk walk.old }
{
    'commands: for line in lines.lines() {
        add_line(out, line)?;
        obey(walk, line, out)?;
    }
    Ok(())
}

/// Adds the lines of a case, each command with what it gives. The case is no `&str`, so that a caller can pick the counter.
pub fn add_walk<L: Ledger>(
    alloc: Global,
    base: &Arc<Base>,
    case: &String,
    out: &mut String,
    blank: Blank,
) -> Result<(), NoMemory>
    requires name { blank.name ≡ L.name }
    requires parts { blank.parts ≡ L.parts }
    requires some { 0 < L.parts }
{
    let mut reader = Whole::new(alloc, &base.loaded);
    let mut walk = Walk {
        zip: Zip::new(alloc, base.clone()?),
        session: Session {
            alloc,
            reader: &mut reader,
            own: Overlay::new(alloc),
            steps: Steps::<L>::open(blank),
        },
    };
    add_lines(&mut walk, case.as_str(), out)
}
