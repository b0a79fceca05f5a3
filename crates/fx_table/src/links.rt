//! The table of a filestore, as a text.
ghost use Rattle.std.specs.Prelude.{◌≡◌, ◌<◌, ◌++◌, ◌∷◌, [], cond, length, true, false, Some, IfOk, OnOk};
ghost use Rattle.std.specs.FinMap.{get};
ghost use Rattle.std.specs.List.{flat_map};
ghost use Rattle.std.specs.Fmt.{digit_glyph};
ghost use Rattle.fx_store.specs.Whole.{IsWhole};
ghost use Rattle.fx_store.specs.Kinds.{is_executable};
ghost use Rattle.fx_table.specs.Table.{table_text, lines_of, version_line};
ghost use Rattle.fx_table.specs.Texts.{link_text, flag_text, line_text_at, AddsLine, whole_text};
ghost use Rattle.fx_table.specs.TableSpelling.{is_plain_byte, spelled, spelling};

use crate::descent::{Descent, Entry};
use crate::lines::VERSION_LINE;
use fx_base::{NoMemory, add_bytes};
use fx_store::{Filestore, LinkText, LongText, Name, Node, Path};
use std::alloc::Global;

/// The text of the table of a filestore: a line for each link, and for each file that is executable, in order of path. It
/// is of version 1 where no file is, and empty where there is no link either.
pub fn write_table(alloc: Global, store: &Filestore) -> Result<LongText, NoMemory>
    ensures text { IfOk result (λ text. text ≡ table_text (lines_of store.now.nodes)) }
    ensures whole { IsWhole (get store.now.nodes) }
{
    let mut table = TableText::new(alloc);
    let mut descent = Descent::new(alloc, store)?;
    'writing: while let Some(entry) = descent.next(alloc, store)? {
        table.add(&entry)?;
    }
    table.into_text(alloc)
}

/// The text of a table to which a walk over a filestore adds the lines.
#[derive(Drop)]
pub struct TableText {
    lines: Vec<u8>,
    flags: bool,
}

impl TableText {
    /// The text without lines.
    pub fn new(alloc: Global) -> TableText
        ensures lines { result.lines.items ≡ [] }
        ensures flags { result.flags ≡ false }
    {
        TableText {
            lines: Vec::new(alloc),
            flags: false,
        }
    }

    /// Adds the line of an entry below the root, if it has one.
    pub fn add(&mut self, entry: &Entry<'_>) -> Result<(), NoMemory>
        requires { 0 < length entry.now.path }
        ensures { OnOk result (AddsLine self.old entry.now.path entry.now.node.now self.new) }
    {
        let flag = add_entry(&mut self.lines, &entry.path, entry.node)?;
        self.flags |= flag;
        Ok(())
    }

    /// The whole text, with the line of its version where it says that a file is executable.
    pub fn into_text(self, alloc: Global) -> Result<LongText, NoMemory>
        ensures { IfOk result (λ text. text ≡ whole_text self) }
    {
        let TableText { lines, flags } = self;
        Ok(LongText::from_vec(with_version(alloc, lines, flags)?))
    }
}

/// Lines behind the line of their version, which they have where they say that a file is executable.
fn with_version(alloc: Global, lines: Vec<u8>, flags: bool) -> Result<Vec<u8>, NoMemory>
    ensures { IfOk result (λ text. text.items ≡ cond flags version_line [] ++ lines.items) }
{
    if !flags {
        return Ok(lines);
    }
    let mut text = Vec::with_capacity(alloc, lines.len().saturating_add(VERSION_LINE.len()))?;
    add_bytes(&mut text, VERSION_LINE)?;
    add_bytes(&mut text, &lines)?;
    Ok(text)
}

/// Adds the line of what stands at a path other than the root, if it has one, and tells whether it says that a file is
/// executable.
fn add_entry(text: &mut Vec<u8>, path: &Path, node: &Node) -> Result<bool, NoMemory>
    requires { 0 < length path.now }
    ensures text { OnOk result
        (text.new.items ≡ text.old.items ++ line_text_at path.now (Some node.now)) }
    ensures flag { IfOk result (λ flag. flag ≡ is_executable (Some node.now)) }
{
    match node {
        Node::Link(link) => {
            add_link(text, path, link)?;
            Ok(false)
        }
        Node::File { exec, .. } => add_flag(text, path, *exec),
        Node::Dir(_) => Ok(false),
    }
}

/// Adds the line of a link at a path other than the root.
fn add_link(text: &mut Vec<u8>, path: &Path, link: &LinkText) -> Result<(), NoMemory>
    requires { 0 < length path.now }
    ensures { OnOk result (text.new.items ≡ text.old.items ++ link_text path.now link.now) }
{
    add_names(text, path)?;
    add_bytes(text, b" -> ")?;
    add_spelled(text, link.as_slice())?;
    add_bytes(text, b"\n")
}

/// Adds the line of a file at a path other than the root, if it is executable, and gives whether it is.
fn add_flag(text: &mut Vec<u8>, path: &Path, exec: bool) -> Result<bool, NoMemory>
    requires { 0 < length path.now }
    ensures text { OnOk result (text.new.items ≡ text.old.items ++ flag_text path.now exec) }
    ensures flag { IfOk result (λ flag. flag ≡ exec) }
{
    if !exec {
        return Ok(false);
    }
    add_names(text, path)?;
    add_bytes(text, b" *\n")?;
    Ok(true)
}

/// Adds each name with `/` before it, as the table spells it.
fn add_names(text: &mut Vec<u8>, path: &Path) -> Result<(), NoMemory>
    ensures { OnOk result
        (text.new.items ≡ text.old.items ++ spelling (flat_map (λ name. 47 ∷ name) path.now)) }
{
    for name in path.iter() {
        add_name(text, name)?;
    }
    Ok(())
}

fn add_name(text: &mut Vec<u8>, name: &Name) -> Result<(), NoMemory>
    ensures { OnOk result (text.new.items ≡ text.old.items ++ spelling (47 ∷ name.now)) }
{
    add_byte(text, b'/')?;
    add_spelled(text, name.as_slice())
}

/// Adds bytes as the table spells them.
fn add_spelled(text: &mut Vec<u8>, bytes: &[u8]) -> Result<(), NoMemory>
    ensures { OnOk result (text.new.items ≡ text.old.items ++ spelling bytes.now) }
{
    for byte in bytes {
        add_byte(text, *byte)?;
    }
    Ok(())
}

/// Adds a byte as the table spells it.
fn add_byte(text: &mut Vec<u8>, byte: u8) -> Result<(), NoMemory>
    ensures { OnOk result (text.new.items ≡ text.old.items ++ spelled byte) }
{
    if is_plain(byte) {
        return add_bytes(text, &[byte]);
    }
    let escape = [b'%', hex_digit(byte / 16), hex_digit(byte % 16)];
    add_bytes(text, &escape)
}

/// Whether a byte stands for itself.
fn is_plain(byte: u8) -> bool
    ensures { result ≡ is_plain_byte byte }
{
    if byte < b'!' {
        return false;
    }
    if byte > b'~' {
        return false;
    }
    byte != b'%'
}

/// An upper-case hexadecimal digit.
fn hex_digit(value: u8) -> u8
    requires { value < 16 }
    ensures { result ≡ digit_glyph true value }
{
    if value < 10 {
        b'0' + value
    } else {
        b'A' + (value - 10)
    }
}
