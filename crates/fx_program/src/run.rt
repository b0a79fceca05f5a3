//! The program.
ghost use Rattle.std.specs.Prelude.{◌≡◌, []};
ghost use Rattle.std.specs.Process.{exit_status};
ghost use Rattle.fx_command.specs.Codes.{status_code};
ghost use Rattle.fx_program.specs.Ends.{IsEndOf, IsCodeOf};

use core::thread::Stack;
use fx_base::NoMemory;
use fx_command::Message;
use fx_disk::{Disk, Output, RealDisk};
use fx_outside::{HostText, OpenGate, Words};
use fx_threads::STACK_BYTES;
use fx_top::status::Status;
use fx_top::top::top;
use std::alloc::Global;
use std::env::{self, Args};
use std::fs::File;
use std::io::{self, ErrorKind};
use std::os::fd::AsRawFd;
use std::process::{ExitCode, Termination};
use std::rt::{Env, Files};
use std::sync::Wait;
use std::thread::{self, Promise, Scope, Threads};

/// The number of the last standard stream.
const LAST_STREAM: i32 = 2;

/// The words of the command line, without the program's name.
fn read_words<R: Env + AllocGlobal>(rt: &R) -> io::Result<Words> {
    let args = env::args(rt)?;
    match words_of(rt.alloc(), args) {
        Ok(words) => Ok(words),
        Err(NoMemory) => Err(io::Error::from(ErrorKind::OutOfMemory)),
    }
}

fn words_of(alloc: Global, args: Args) -> Result<Words, NoMemory> {
    let mut words = Words::new(alloc);
    for word in args.skip(1) {
        words.add(alloc, HostText::from_string(word))?;
    }
    Ok(words)
}

/// Runs the words over the machine's files, the file of a journal and the standard output.
fn run_over<R>(rt: &R, machine: HostRuntime, words: &Words, files: R, file: R) -> Status
where
    R: Files + Print + AllocGlobal + Clone + Drop + Threads + Wait + Sync,
    ensures { IsEndOf words.now result }
{
    let mut host = Disk::new(files, machine, rt);
    let mut out = Output::new(rt);
    let mut disk = RealDisk::new(file);
    top(
        rt,
        rt.alloc(),
        words,
        &mut host,
        &mut out,
        &OpenGate,
        &mut disk,
    )
}

fn run<R>(rt: &R, machine: &HostRuntime, words: &Words) -> Status
where
    R: Files + Print + AllocGlobal + Clone + Drop + Threads + Wait + Sync,
    ensures { IsEndOf words.now result }
{
    let Ok(files) = rt.clone() else {
        return Status::NoMemory;
    };
    let Ok(machine) = machine.clone() else {
        return Status::NoMemory;
    };
    match rt.clone() {
        Ok(file) => run_over(rt, machine, words, files, file),
        Err(_) => Status::NoMemory,
    }
}

/// That a thread's status is one with which a run of these words may end.
#[derive(Clone, Copy)]
struct EndOf<'a>(&'a Words);

impl<'a> Promise<Status> for EndOf<'a> {
    ghost kept_by = { λ end status. IsEndOf end.0.now status };
}

/// Runs the words in a thread of the stated stack; where none can be had, in this one.
fn run_apart<'s, E, R>(
    rt: &'s R,
    machine: &'s HostRuntime,
    scope: &Scope<'s, E>,
    words: &'s Words,
) -> Status
where
    R: Files + Print + AllocGlobal + Clone + Drop + Threads + Wait + Sync,
    R::File: Send,
    R::Dir: Send,
    ensures { IsEndOf words.now result }
{
    let stack = Stack::new().stack_size(STACK_BYTES);
    match stack.spawn_scoped_with(scope, EndOf(words), || run(rt, machine, words)) {
        Ok(running) => running.join(rt),
        Err(refused) => (refused.value)(),
    }
}

/// Runs the words on a stack that the shell's limit does not make smaller.
fn run_on_stack<R>(rt: &R, machine: &HostRuntime, words: &Words) -> Status
where
    R: Files + Print + AllocGlobal + Clone + Drop + Threads + Wait + Sync,
    R::File: Send,
    R::Dir: Send,
    ensures { IsEndOf words.now result }
{
    thread::scope(
        thread::scope_env(),
        rt,
        |scope| -> Status
            ensures { IsEndOf words.entry.now result }
        { run_apart(rt, machine, scope, words) },
    )
}

/// Prints the line of a run that is not done to the standard error, and gives the run's code.
fn code_of<R: Eprint>(rt: &R, words: &Words, status: &Status) -> ExitCode
    ensures { exit_status result ≡ status_code status.now }
{
    if let Some(line) = Message::of(words, status) {
        let _ = rt.eprintln(line);
    }
    ExitCode::from(status.code())
}

fn run_to_end<R>(rt: &R, machine: &HostRuntime, words: Words) -> Ended
where
    R: Files + Print + Eprint + AllocGlobal + Clone + Drop + Threads + Wait + Sync,
    R::File: Send,
    R::Dir: Send,
{
    let status = run_on_stack(rt, machine, &words);
    let code = code_of(rt, &words, &status);
    Ended { words, code }
}

/// The status where the words are not read. Words that are not UTF-8 have no command's form.
fn unread(error: io::Error) -> Status
    ensures { IsEndOf [] result }
{
    match error.kind() {
        ErrorKind::OutOfMemory => Status::NoMemory,
        _ => Status::Usage,
    }
}

/// The end where the words are not read: that of no words, which have no command's form either.
fn end_unread<R: Eprint + AllocGlobal>(rt: &R, error: io::Error) -> Ended {
    let words = Words::new(rt.alloc());
    let code = code_of(rt, &words, &unread(error));
    Ended { words, code }
}

/// How a run ended: with which words, and with which code. There are no words where they are not read. The code is that of
/// a status with which a run of these words may end. [`program`] alone makes an end, and it can't be dropped: a `main` that
/// runs the program gives its code.
pub struct Ended {
    words: Words,
    code: ExitCode,
    ghost told: { ∥ IsCodeOf words (exit_status code) ∥₁ },
}

impl Termination for Ended {
    fn report<R: Eprint>(self, _rt: &R) -> ExitCode
        ensures { result ≡ self.code }
    {
        let Ended { words, code } = self;
        drop(words);
        code
    }
}

/// What stands for a closed stream: a file that is opened to be read alone, or a folder where there is no such file.
fn stand_in<R: Files>(rt: &R) -> io::Result<R::File> {
    match File::open(rt, "/dev/null") {
        Ok(file) => Ok(file),
        Err(_) => File::open(rt, "/"),
    }
}

/// What stands for the least closed standard stream, from now on; nothing where all three are open. Where it can't be opened,
/// nothing is held: as a rule, a file that the program opens later can't be opened then either.
fn hold_stream<R: Files>(rt: &R) -> Option<R::File>
where
    R::File: AsRawFd,
{
    match stand_in(rt) {
        Ok(file) if file.as_raw_fd() <= LAST_STREAM => Some(file),
        _ => None,
    }
}

/// Reads the words, runs them and says the end.
fn run_words<R>(rt: &R, machine: &HostRuntime) -> Ended
where
    R: Env + Files + Print + Eprint + AllocGlobal + Clone + Drop + Threads + Wait + Sync,
    R::File: Send,
    R::Dir: Send,
{
    match read_words(rt) {
        Ok(words) => run_to_end(rt, machine, words),
        Err(error) => end_unread(rt, error),
    }
}

/// Runs the words of the command line and says the end: its code, and its line where the run is not done. What stands in a
/// folder is looked at through `machine`, by several threads: these can be sent a runtime that is known alone.
///
/// Each closed standard stream is held first. The system gives the least free number to the file that is opened next: a file
/// of the run, as that of a journal, would take the number of a closed output, and what is printed would be written into it.
/// What holds a stream can't be written, so a write to it fails.
pub fn program<R>(rt: &R, machine: &HostRuntime) -> Ended
where
    R: Env + Files + Print + Eprint + AllocGlobal + Clone + Drop + Threads + Wait + Sync,
    R::File: AsRawFd + Send,
    R::Dir: Send,
{
    let held = (hold_stream(rt), hold_stream(rt), hold_stream(rt));
    let ended = run_words(rt, machine);
    drop(held);
    ended
}
