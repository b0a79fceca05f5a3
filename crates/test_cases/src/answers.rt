//! The lines of cases, and what each gives.

use crate::door::Door;
use crate::steps::{tell_attempt, tell_steps};
use crate::threads::{tell_outcomes, tell_threads};
use crate::views::tell_views;
use crate::watches::tell_watch;
use fx_base::NoMemory;
use fx_outside::HostKind;
use std::alloc::Global;
use test_lines::{
    Call, Case, number, split_word, tell, tell_call, tell_tree, tell_writes, verb_of,
};
use test_stage::{
    Program, Stage, tell_changes, tell_disk, tell_faults, tell_message, tell_rooms, tell_schedules,
    tell_stops, tell_top,
};

/// What a line sets up.
#[derive(Clone, Copy)]
enum Setting {
    Case,
    File,
    Line,
    Folder,
    Other,
    Fail,
    FailWrite,
    FailDisk,
    Image,
    Room,
    Tell,
}

/// What a line runs.
#[derive(Clone, Copy)]
enum Trial {
    Top,
    Faults,
    Changes,
    Rooms,
    Schedules,
    Stops,
    Threads,
    Retried,
    Outcomes,
    Views,
    Tree,
    Disk,
    Attempt,
    Steps,
    Watch,
    Writes,
}

#[derive(Clone, Copy)]
enum Verb {
    Note,
    Set(Setting),
    Hold,
    Delay,
    Try(Trial),
    Call(Call),
    Message,
}

const VERBS: &[(&str, Verb)] = &[
    ("", Verb::Note),
    ("#", Verb::Note),
    ("case", Verb::Set(Setting::Case)),
    ("file", Verb::Set(Setting::File)),
    ("line", Verb::Set(Setting::Line)),
    ("folder", Verb::Set(Setting::Folder)),
    ("other", Verb::Set(Setting::Other)),
    ("fail", Verb::Set(Setting::Fail)),
    ("fail-write", Verb::Set(Setting::FailWrite)),
    ("fail-disk", Verb::Set(Setting::FailDisk)),
    ("image", Verb::Set(Setting::Image)),
    ("room", Verb::Set(Setting::Room)),
    ("tell", Verb::Set(Setting::Tell)),
    ("hold", Verb::Hold),
    ("delay", Verb::Delay),
    ("top", Verb::Try(Trial::Top)),
    ("faults", Verb::Try(Trial::Faults)),
    ("changes", Verb::Try(Trial::Changes)),
    ("rooms", Verb::Try(Trial::Rooms)),
    ("schedules", Verb::Try(Trial::Schedules)),
    ("stops", Verb::Try(Trial::Stops)),
    ("threads", Verb::Try(Trial::Threads)),
    ("retried", Verb::Try(Trial::Retried)),
    ("outcomes", Verb::Try(Trial::Outcomes)),
    ("views", Verb::Try(Trial::Views)),
    ("tree", Verb::Try(Trial::Tree)),
    ("disk", Verb::Try(Trial::Disk)),
    ("attempt", Verb::Try(Trial::Attempt)),
    ("steps", Verb::Try(Trial::Steps)),
    ("watch", Verb::Try(Trial::Watch)),
    ("standing", Verb::Call(Call::Standing)),
    ("list", Verb::Call(Call::Find)),
    ("read", Verb::Call(Call::Read)),
    ("make-dir", Verb::Call(Call::MakeDir)),
    ("write-new", Verb::Call(Call::WriteNew)),
    ("writes", Verb::Try(Trial::Writes)),
    ("message", Verb::Message),
];

fn put(alloc: Global, stage: &mut Stage, setting: Setting, rest: &str) -> Result<bool, NoMemory> {
    let (path, text) = split_word(rest);
    match setting {
        Setting::File => stage.put(alloc, path, HostKind::File, text),
        Setting::Line => stage.put_line(alloc, path, text),
        Setting::Folder => stage.put(alloc, path, HostKind::Folder, ""),
        _ => stage.put(alloc, path, HostKind::Other, ""),
    }
}

fn set_up(
    alloc: Global,
    stage: &mut Stage,
    setting: Setting,
    rest: &str,
    out: &mut String,
) -> Result<(), NoMemory> {
    match setting {
        Setting::Case => *stage = Stage::new(alloc),
        Setting::Fail => stage.host.fail(alloc, u64::from(number(rest)))?,
        Setting::FailWrite => stage.fail_write(u64::from(number(rest)))?,
        Setting::FailDisk => stage.fail_disk(alloc, u64::from(number(rest)))?,
        Setting::Image => stage.put_image(alloc, rest)?,
        Setting::Room => stage.set_room(u64::from(number(rest))),
        Setting::Tell => stage.set_detail(rest),
        _ => {
            if !put(alloc, stage, setting, rest)? {
                return tell(out, "not free");
            }
        }
    }
    Ok(())
}

/// Tells the bytes of the file on the disk of a stage.
fn tell_disk_of(alloc: Global, stage: &mut Stage, out: &mut String) -> Result<(), NoMemory> {
    let disk = stage.take_disk(alloc)?;
    tell_disk(out, &disk)?;
    stage.put_disk(disk);
    Ok(())
}

fn try_out<P: Program>(
    program: &P,
    alloc: Global,
    stage: &mut Stage,
    trial: Trial,
    rest: &str,
    out: &mut String,
) -> Result<(), NoMemory> {
    match trial {
        Trial::Top => tell_top(program, alloc, stage, rest, out),
        Trial::Faults => tell_faults(program, alloc, stage, rest, out),
        Trial::Changes => tell_changes(program, alloc, stage, rest, out),
        Trial::Rooms => tell_rooms(program, alloc, stage, rest, out),
        Trial::Schedules => tell_schedules(program, alloc, stage, out),
        Trial::Stops => tell_stops(program, alloc, stage, rest, out),
        Trial::Threads => tell_threads(program, alloc, stage, false, rest, out),
        Trial::Retried => tell_threads(program, alloc, stage, true, rest, out),
        Trial::Outcomes => tell_outcomes(program, alloc, stage, rest, out),
        Trial::Views => tell_views(program, alloc, stage, rest, out),
        Trial::Tree => tell_tree(alloc, &mut stage.host, rest, out),
        Trial::Disk => tell_disk_of(alloc, stage, out),
        Trial::Attempt => tell_attempt(program, alloc, stage, rest, out),
        Trial::Steps => tell_steps(program, alloc, stage, rest, out),
        Trial::Watch => tell_watch(program, alloc, stage, rest, out),
        Trial::Writes => tell_writes(&mut stage.fresh_sink(alloc)?, rest, out),
    }
}

/// Tells where a hold of the gate held no shell as long as it was to.
fn tell_missed(door: &Door, out: &mut String) -> Result<(), NoMemory> {
    if door.is_missed() {
        return tell(out, "not held");
    }
    Ok(())
}

/// What is tried, the gate that its threads pass, and the stage of a case.
#[derive(Drop)]
pub struct Tried<'a, P> {
    pub program: &'a P,
    pub door: &'a Door,
    pub stage: &'a mut Stage,
}

impl<P: Program> Case for Tried<'_, P> {
    fn answer(&mut self, alloc: Global, line: &str, out: &mut String) -> Result<(), NoMemory> {
        let (word, rest) = split_word(line);
        match verb_of(VERBS, word) {
            None => tell(out, "no such word"),
            Some(Verb::Note) => Ok(()),
            Some(Verb::Set(Setting::Case)) => {
                self.door.open();
                set_up(alloc, self.stage, Setting::Case, rest, out)
            }
            Some(Verb::Set(setting)) => set_up(alloc, self.stage, setting, rest, out),
            Some(Verb::Hold) => {
                self.door.hold(rest);
                Ok(())
            }
            Some(Verb::Delay) => {
                self.door.delay();
                Ok(())
            }
            Some(Verb::Try(trial)) => {
                try_out(self.program, alloc, self.stage, trial, rest, out)?;
                tell_missed(self.door, out)
            }
            Some(Verb::Call(call)) => tell_call(alloc, &mut self.stage.host, call, rest, out),
            Some(Verb::Message) => tell_message(alloc, rest, out),
        }
    }
}
