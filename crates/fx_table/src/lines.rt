//! The reader of a table's lines.
ghost use Rattle.std.specs.Prelude.{◌≡◌, ◌≤◌, ◌==◌, ◌∷◌, [], ◌&&◌, cond, not, MatchOption, IfOk, IfErr};
ghost use Rattle.std.specs.List.{slice_split};
ghost use Rattle.fx_store.specs.Whole.{Store};
ghost use Rattle.fx_store.specs.Kinds.{is_file};
ghost use Rattle.fx_table.specs.Table.{can_stand, over, has_flags, is_second, body_of, has_place, is_flag_mark, is_space, read_line, read_parts, Target};
ghost use Rattle.fx_table.specs.Lines.{IsCut, DecidesFollow, AreLines, ReadsNext, StopsNext, ReadsBody, BodyCause, ReadsAll, LinesCause, TakesRoom, line_change, lines_in, mark_in, mark_node};
ghost use Rattle.fx_table.specs.Places.{place_of, table_name};

use crate::line::{Mark, TableLine};
use crate::table::{flag_of, link_of};
use crate::{FolderCause, LoadFault};
use fx_base::NoMemory;
use fx_outside::HostText;
use fx_store::{Bytes, Change, Changes, LinkText, Node, Path};
use std::alloc::Global;

/// What a table of version 2 begins with.
pub(crate) const VERSION_LINE: &[u8] = b"version 2\n";

/// Files and directories, among which links are made.
pub trait Ground {
    /// What stands at each path.
    ghost store: { Self → Store };

    /// Whether a link can be made at a path: nothing stands there, and a directory stands above.
    fn can_stand(&self, alloc: Global, path: &Path) -> Result<bool, NoMemory>
        ensures { IfOk result (λ can. can ≡ can_stand (store self.now) path.now) };

    /// Whether a file stands at a path.
    fn is_file(&self, path: &Path) -> bool
        ensures { result ≡ is_file (store self.now path.now) };
}

/// How many links may still be made, and how many bytes their texts may have together.
#[derive(Clone, Copy, Debug)]
pub struct Room {
    pub links: u64,
    pub bytes: u64,
}

/// The lines of a table's text, in order of path: a change that makes a link for each link, and one that makes an
/// executable file without bytes for each flag. Only a text of version 2 may have flags, and it has at least one.
pub fn read_lines<G: Ground>(
    alloc: Global,
    text: &[u8],
    ground: &G,
    room: Room,
) -> Result<Changes, LoadFault>
    ensures read { IfOk result (ReadsAll (G.store ground.now) room text.now) }
    ensures cause { IfErr result (LinesCause (G.store ground.now) room text.now) }
{
    let flags = is_second(text);
    let lines = read_body(
        alloc,
        body_of(text),
        first_number(flags),
        ground,
        flags,
        room,
    )?;
    if lacks_flags(flags, &lines) {
        return Err(LoadFault::Refused(FolderCause::BadTable(1)));
    }
    Ok(lines)
}

/// Whether a text is of version 2.
fn is_second(text: &[u8]) -> bool
    ensures { result ≡ is_second text.now }
{
    if text.len() < VERSION_LINE.len() {
        return false;
    }
    &text[..VERSION_LINE.len()] == VERSION_LINE
}

/// What stands behind the line of its version, if a text has one.
fn body_of(text: &[u8]) -> &[u8]
    ensures { result.now ≡ body_of text.now }
{
    if is_second(text) {
        return &text[VERSION_LINE.len()..];
    }
    text
}

/// The number of the first line behind that of the version, which is of version 2 or not.
fn first_number(second: bool) -> u64
    ensures number { result ≡ cond second 2 1 }
    ensures small { result ≤ 2 }
{
    if second { 2 } else { 1 }
}

/// Whether a text is of version 2 in vain.
fn lacks_flags(second: bool, lines: &Changes) -> bool
    ensures { result ≡ (second && not (has_flags (lines_in lines.now))) }
{
    if !second {
        return false;
    }
    !has_flags(lines)
}

/// Whether a line says that a file is executable.
fn has_flags(lines: &Changes) -> bool
    ensures { result ≡ has_flags (lines_in lines.now) }
{
    for line in lines.as_slice() {
        if is_flag(line) {
            return true;
        }
    }
    false
}

/// Whether a change stands for an executable file, and for no link.
fn is_flag(line: &Change) -> bool
    ensures { result ≡ is_flag_mark (mark_in line.now.node) }
{
    match &line.node {
        Some(Node::Link(_)) => false,
        Some(Node::File { .. }) => true,
        Some(Node::Dir(_)) => true,
        None => true,
    }
}

/// Reads all lines of a text, of which the first has this number.
fn read_body<G: Ground>(
    alloc: Global,
    text: &[u8],
    first: u64,
    ground: &G,
    flags: bool,
    room: Room,
) -> Result<Changes, LoadFault>
    requires { first ≤ 2 }
    ensures read { IfOk result (ReadsBody (over (G.store ground.now) flags) room text.now) }
    ensures cause { IfErr result (BodyCause (over (G.store ground.now) flags) room first text.now) }
{
    let mut lines = Changes::new(alloc);
    let mut room = room;
    let mut rest = text;
    let mut number = first;
    'reading: while !rest.is_empty() {
        rest = next_line(alloc, rest, number, ground, flags, &mut room, &mut lines)?;
        number += 1;
    }
    Ok(lines)
}

/// Reads the first line of a text, and gives what stands behind its line feed.
fn next_line<'a, G: Ground>(
    alloc: Global,
    text: &'a [u8],
    number: u64,
    ground: &G,
    flags: bool,
    room: &mut Room,
    lines: &mut Changes,
) -> Result<&'a [u8], LoadFault>
    requires { AreLines (over (G.store ground.now) flags) lines.old }
    ensures read { IfOk result (λ rest. ReadsNext (over (G.store ground.now) flags)
        room.old text.now lines.old lines.new room.new rest.now) }
    ensures cause { IfErr result
        (StopsNext (over (G.store ground.now) flags) room.old text.now number lines.old) }
{
    let Some((line, rest)) = split_once(text, b'\n') else {
        return Err(LoadFault::Refused(FolderCause::BadTable(number)));
    };
    let Some(line) = read_line(alloc, line)? else {
        return Err(LoadFault::Refused(FolderCause::BadTable(number)));
    };
    if !can_follow(alloc, ground, flags, lines, &line)? {
        return Err(LoadFault::Refused(FolderCause::BadTable(number)));
    }
    if !room.takes(&line.mark) {
        return Err(LoadFault::Refused(FolderCause::TooLarge(table_place(alloc)?)));
    }
    lines.add(alloc, change_of(alloc, line))?;
    Ok(rest)
}

/// The change that stands for a line.
fn change_of(alloc: Global, line: TableLine) -> Change
    ensures { result ≡ line_change line }
{
    let TableLine { path, mark } = line;
    Change {
        path,
        node: Some(node_of(alloc, mark)),
    }
}

fn node_of(alloc: Global, mark: Mark) -> Node
    ensures { result ≡ mark_node mark }
{
    match mark {
        Mark::Target(text) => Node::Link(text),
        Mark::Executable => Node::File {
            bytes: Bytes::new(alloc),
            exec: true,
        },
    }
}

/// The text before the first byte of this value, and the text behind it.
fn split_once(text: &[u8], byte: u8) -> Option<(&[u8], &[u8])>
    ensures { MatchOption result (slice_split (λ b. b == byte) text.now ≡ text.now ∷ [])
        (λ cut. IsCut byte text.now cut.0.now cut.1.now) }
{
    let Some(i) = text.iter().position(|b| *b == byte) else {
        return None;
    };
    Some((&text[..i], &text[i + 1..]))
}

/// What a line says: a spelled path text, and a star or an arrow and a spelled link text, with a space between each two.
fn read_line(alloc: Global, line: &[u8]) -> Result<Option<TableLine>, NoMemory>
    ensures { IfOk result (λ said. said ≡ read_line line.now) }
{
    let Some((path, rest)) = split_once(line, b' ') else {
        return Ok(None);
    };
    match split_once(rest, b' ') {
        Some((arrow, text)) => read_link(alloc, path, arrow, text),
        None => read_flag(alloc, path, rest),
    }
}

/// What a line of three parts or more says, of which those behind the second are still to be cut.
fn read_link(
    alloc: Global,
    path: &[u8],
    arrow: &[u8],
    text: &[u8],
) -> Result<Option<TableLine>, NoMemory>
    ensures { IfOk result (λ said. said
        ≡ read_parts (path.now ∷ arrow.now ∷ slice_split is_space text.now)) }
{
    match split_once(text, b' ') {
        Some((_, _)) => Ok(None),
        None => read_arrow(alloc, path, arrow, text),
    }
}

/// What a line of three parts says: a spelled path text, an arrow and a spelled link text.
fn read_arrow(
    alloc: Global,
    path: &[u8],
    arrow: &[u8],
    text: &[u8],
) -> Result<Option<TableLine>, NoMemory>
    ensures { IfOk result (λ said. said ≡ read_parts (path.now ∷ arrow.now ∷ text.now ∷ [])) }
{
    if arrow != b"->".as_slice() {
        return Ok(None);
    }
    link_of(alloc, path, text)
}

/// What a line of two parts says: a spelled path text, and a star.
fn read_flag(alloc: Global, path: &[u8], star: &[u8]) -> Result<Option<TableLine>, NoMemory>
    ensures { IfOk result (λ said. said ≡ read_parts (path.now ∷ star.now ∷ [])) }
{
    if star != b"*".as_slice() {
        return Ok(None);
    }
    flag_of(alloc, path)
}

/// Whether a line has its place behind others.
fn can_follow<G: Ground>(
    alloc: Global,
    ground: &G,
    flags: bool,
    lines: &Changes,
    line: &TableLine,
) -> Result<bool, NoMemory>
    ensures { IfOk result
        (DecidesFollow (over (G.store ground.now) flags) lines.now line.now) }
{
    if line.path.len() == 0 {
        return Ok(false);
    }
    if !lines.is_next(&line.path) {
        return Ok(false);
    }
    has_place(alloc, ground, flags, line)
}

/// Whether a link can be made, or a file stands where one is said to be executable, which flags allow.
fn has_place<G: Ground>(
    alloc: Global,
    ground: &G,
    flags: bool,
    line: &TableLine,
) -> Result<bool, NoMemory>
    ensures { IfOk result
        (λ has. has ≡ has_place (over (G.store ground.now) flags) line.now) }
{
    match &line.mark {
        Mark::Target(_) => ground.can_stand(alloc, &line.path),
        Mark::Executable => {
            if !flags {
                return Ok(false);
            }
            Ok(ground.is_file(&line.path))
        }
    }
}

impl Room {
    /// Takes the room of a line that says this, if there is enough.
    fn takes(&mut self, mark: &Mark) -> bool
        ensures { TakesRoom self.old mark.now self.new result }
    {
        match mark {
            Mark::Target(text) => self.takes_link(text),
            Mark::Executable => true,
        }
    }

    /// Takes the room of a link of this text, if there is enough.
    fn takes_link(&mut self, text: &LinkText) -> bool
        ensures { TakesRoom self.old (Target text.now) self.new result }
    {
        let bytes = text.as_slice().len() as u64;
        if self.links == 0 {
            return false;
        }
        if self.bytes < bytes {
            return false;
        }
        self.links -= 1;
        self.bytes -= bytes;
        true
    }
}

/// Where the table stands, as refusals tell it.
pub fn table_place(alloc: Global) -> Result<HostText, NoMemory>
    ensures { IfOk result (λ place. place ≡ place_of (table_name ∷ [])) }
{
    Ok(HostText::from_string(String::from_str(alloc, "/.forest-links")?))
}
