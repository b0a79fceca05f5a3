//! The lines of a table set among files and directories.
ghost use Rattle.std.specs.Prelude.{◌≡◌, ◌++◌, ◌∷◌, [], map, IfOk, OnOk};
ghost use Rattle.fx_store.specs.Kinds.{is_link};
ghost use Rattle.fx_table.specs.Flags.{flagged_at, flag_change, links_alone};
ghost use Rattle.fx_table.specs.Listed.{with_links, with_lines};
ghost use Rattle.fx_table.specs.Lines.{link_change, links_in, line_change, lines_in};
ghost use Rattle.fx_table.specs.Mapped.{mapped_of};
ghost use Rattle.fx_table.specs.Merges.{CanMerge, MakeLinks, MovesAll, pending};
ghost use Rattle.fx_table.specs.Shaped.{changes_of};
ghost use Rattle.fx_table.specs.Table.{links_among};

use crate::ground::node_in;
use fx_base::NoMemory;
use fx_store::{Change, Changes, Node, Path};
use std::alloc::Global;

/// What was found, each file with the flag that the lines give it, and the links of the lines, in order of path. The links
/// stand where nothing was found.
pub fn merged(
    alloc: Global,
    mut found: Vec<Change>,
    lines: Changes,
) -> Result<Vec<Change>, NoMemory>
    requires found { found.items ≡ changes_of (mapped_of found.items) }
    requires lines { lines ≡ map line_change (lines_in lines) }
    requires merge { CanMerge (mapped_of found.items) (links_among (lines_in lines)) }
    ensures { IfOk result (λ all.
        all.items ≡ changes_of (with_lines (mapped_of found.items) (lines_in lines))) }
{
    set_flags(&mut found, &lines);
    let links = links_of(alloc, lines)?;
    merged_links(alloc, found, links)
}

/// Gives each file the flag that the lines give it.
fn set_flags(found: &mut Vec<Change>, lines: &Changes)
    ensures { found.new.items ≡ map (flag_change lines.now) found.old.items }
{
    for i in 0..found.len() {
        set_flag(&mut found[i], lines);
    }
}

/// Gives a file the flag that the lines give it.
fn set_flag(change: &mut Change, lines: &Changes)
    ensures { change.new ≡ flag_change lines.now change.old }
{
    let flag = is_flagged(lines, &change.path);
    if let Some(Node::File { exec, .. }) = &mut change.node {
        *exec = flag;
    }
}

/// Whether the line of a path says that the file there is executable.
fn is_flagged(lines: &Changes, path: &Path) -> bool
    ensures { result ≡ flagged_at lines.now path.now }
{
    match node_in(lines, path) {
        Some(Node::File { exec, .. }) => *exec,
        Some(Node::Dir(_)) => false,
        Some(Node::Link(_)) => false,
        None => false,
    }
}

/// The lines that stand for links.
fn links_of(alloc: Global, lines: Changes) -> Result<Vec<Change>, NoMemory>
    ensures { IfOk result (λ links. links.items ≡ links_alone lines) }
{
    let mut links = Vec::new(alloc);
    for line in lines.into_vec() {
        keep_link(&mut links, line)?;
    }
    Ok(links)
}

/// Adds a change if it makes a link.
fn keep_link(links: &mut Vec<Change>, line: Change) -> Result<(), NoMemory>
    ensures { OnOk result (links.new.items ≡ links.old.items ++ links_alone (line ∷ [])) }
{
    if is_link(&line) {
        links.push(line)?;
    }
    Ok(())
}

fn is_link(change: &Change) -> bool
    ensures { result ≡ is_link change.now.node }
{
    matches!(&change.node, Some(Node::Link(_)))
}

/// What was found and the links, in order of path. The links stand where nothing was found.
fn merged_links(
    alloc: Global,
    found: Vec<Change>,
    links: Vec<Change>,
) -> Result<Vec<Change>, NoMemory>
    requires found { found.items ≡ changes_of (mapped_of found.items) }
    requires links { MakeLinks links.items }
    requires merge { CanMerge (mapped_of found.items) (links_in links.items) }
    ensures { IfOk result (λ all.
        all.items ≡ changes_of (with_links (mapped_of found.items) (links_in links.items))) }
{
    let mut rest = links;
    rest.reverse();
    let mut all = Vec::new(alloc);
    for change in found {
        move_before(&mut rest, &change.path, &mut all)?;
        all.push(change)?;
    }
    move_rest(&mut rest, &mut all)?;
    Ok(all)
}

/// Moves the links that stand before a path; the last of them is the first.
fn move_before(rest: &mut Vec<Change>, path: &Path, all: &mut Vec<Change>) -> Result<(), NoMemory>
    requires { MakeLinks rest.old.items }
    ensures { OnOk result
        (MovesAll rest.old.items rest.new.items path.now all.old.items all.new.items) }
{
    'moving: while let Some(next) = rest.pop() {
        if !next.path.compare(path).is_lt() {
            rest.push(next)?;
            return Ok(());
        }
        all.push(next)?;
    }
    Ok(())
}

/// Moves all links that are left.
fn move_rest(rest: &mut Vec<Change>, all: &mut Vec<Change>) -> Result<(), NoMemory>
    requires { MakeLinks rest.old.items }
    ensures { OnOk result
        (all.new.items ≡ all.old.items ++ map link_change (pending rest.old.items)) }
{
    'moving: while let Some(next) = rest.pop() {
        all.push(next)?;
    }
    Ok(())
}
