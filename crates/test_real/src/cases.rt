//! The lines of cases, and what each gives.

use crate::calls::tell_call;
use crate::run::tell_run;
use crate::stage::Stage;
use crate::telling::tell_tree;
use fx_base::NoMemory;
use std::fs::{self, File};
use std::io::{self, PipeReader, Write};
use std::os::fd::AsRawFd;
use std::os::unix::fs::symlink;
use std::sync::Wait;
use std::thread::Threads;
use test_lines::{Call, number, split_word, tell, verb_of};

/// What a line sets up.
#[derive(Clone, Copy)]
enum Setting {
    Folder,
    File,
    Line,
    Link,
    Pipe,
    Room,
}

#[derive(Clone, Copy)]
enum Verb {
    Note,
    Set(Setting),
    Call(Call),
    Run,
    Tree,
}

const VERBS: &[(&str, Verb)] = &[
    ("", Verb::Note),
    ("#", Verb::Note),
    ("folder", Verb::Set(Setting::Folder)),
    ("file", Verb::Set(Setting::File)),
    ("line", Verb::Set(Setting::Line)),
    ("link", Verb::Set(Setting::Link)),
    ("pipe", Verb::Set(Setting::Pipe)),
    ("room", Verb::Set(Setting::Room)),
    ("standing", Verb::Call(Call::Standing)),
    ("list", Verb::Call(Call::List)),
    ("read", Verb::Call(Call::Read)),
    ("make-dir", Verb::Call(Call::MakeDir)),
    ("write-new", Verb::Call(Call::WriteNew)),
    ("txforest", Verb::Run),
    ("tree", Verb::Tree),
];

/// What the lines before have set up for the next runs.
#[derive(Drop)]
pub struct Before {
    /// A pipe that is read at the word `PIPE`.
    pub pipe: Option<PipeReader>,
    /// The most bytes that the output of a run takes.
    pub room: u64,
}

/// A pipe that holds a text and then ends.
fn pipe_of(rt: &HostRuntime, text: &str) -> io::Result<PipeReader> {
    let (reader, mut writer) = io::pipe(rt)?;
    writer.write_all(text.as_bytes())?;
    Ok(reader)
}

/// Makes a file whose text ends its last line.
fn put_line(rt: &HostRuntime, path: &str, text: &str) -> io::Result<()> {
    let line = format!(in rt.alloc(); "{text}\n")?;
    File::create_new(rt, path)?.write_all(line.as_bytes())
}

fn put(rt: &HostRuntime, setting: Setting, path: &str, text: &str) -> io::Result<()> {
    match setting {
        Setting::Folder => fs::create_dir(rt, path),
        Setting::Line => put_line(rt, path, text),
        Setting::Link => symlink(rt, text, path),
        _ => File::create_new(rt, path)?.write_all(text.as_bytes()),
    }
}

fn set(rt: &HostRuntime, setting: Setting, rest: &str, before: &mut Before) -> io::Result<()> {
    let (path, text) = split_word(rest);
    match setting {
        Setting::Pipe => before.pipe = Some(pipe_of(rt, rest)?),
        Setting::Room => before.room = u64::from(number(rest)),
        _ => put(rt, setting, path, text)?,
    }
    Ok(())
}

fn set_up(
    rt: &HostRuntime,
    setting: Setting,
    rest: &str,
    before: &mut Before,
    out: &mut String,
) -> Result<(), NoMemory> {
    if set(rt, setting, rest, before).is_err() {
        return tell(out, "not set up");
    }
    Ok(())
}

/// The words, with the path of the pipe at the word `PIPE`.
fn words_of(rt: &HostRuntime, words: &str, pipe: &Option<PipeReader>) -> Result<String, NoMemory> {
    match pipe {
        None => Ok(String::from_str(rt.alloc(), words)?),
        Some(pipe) => {
            let path = format!(in rt.alloc(); "/dev/fd/{}", pipe.as_raw_fd())?;
            Ok(words.replace(rt.alloc(), "PIPE", path.as_str())?)
        }
    }
}

/// Runs the program.
fn run<T: Clone + Threads + Wait + Sync>(
    rt: &HostRuntime,
    threads: &T,
    words: &str,
    before: &Before,
    out: &mut String,
) -> Result<(), NoMemory> {
    let words = words_of(rt, words, &before.pipe)?;
    let stage = Stage {
        rt,
        threads,
        words: words.as_str(),
        room: before.room,
    };
    tell_run(&stage, out)
}

/// Adds what a line gives.
fn answer<T: Clone + Threads + Wait + Sync>(
    rt: &HostRuntime,
    threads: &T,
    line: &str,
    before: &mut Before,
    out: &mut String,
) -> Result<(), NoMemory> {
    let (word, rest) = split_word(line);
    match verb_of(VERBS, word) {
        None => tell(out, "no such word"),
        Some(Verb::Note) => Ok(()),
        Some(Verb::Set(setting)) => set_up(rt, setting, rest, before, out),
        Some(Verb::Call(call)) => tell_call(rt, threads, call, rest, out),
        Some(Verb::Run) => run(rt, threads, rest, before, out),
        Some(Verb::Tree) => tell_tree(rt, rest, out),
    }
}

/// Adds a line and what it gives.
fn add_answered<T: Clone + Threads + Wait + Sync>(
    rt: &HostRuntime,
    threads: &T,
    line: &str,
    before: &mut Before,
    out: &mut String,
) -> Result<(), NoMemory> {
    out.push_str(line)?;
    out.push_str("\n")?;
    answer(rt, threads, line, before, out)
}

/// Adds the lines that begin with no `>`, each with what it gives. The threads of a run are apart from the machine, since
/// what a thread is sent may rest on no bound of an `impl`: so these lines are no [`test_lines::Case`].
pub fn add_answers<T: Clone + Threads + Wait + Sync>(
    rt: &HostRuntime,
    threads: &T,
    cases: &str,
    before: &mut Before,
    out: &mut String,
) -> Result<(), NoMemory> {
    for line in cases.lines() {
        if !line.starts_with('>') {
            add_answered(rt, threads, line, before, out)?;
        }
    }
    Ok(())
}
