//! Texts as parts with one `/` between each two.
ghost use Rattle.std.specs.Prelude.{◌≡◌, ◌++◌, ◌+◌, ◌-◌, ◌<◌, true, length, nat_lt, count_by, OnOk};
ghost use Rattle.std.specs.List.{list_all, slice_split};
ghost use Rattle.fx_store.specs.Names.{is_name, is_component, is_slash, after_slash};

use crate::name::{Name, is_name};
use fx_base::NoMemory;
use std::alloc::Global;

/// Whether the byte is `/`.
pub fn is_slash(byte: &u8) -> bool
    ensures { result ≡ is_slash byte.now }
{
    *byte == b'/'
}

/// Whether each part is a name.
pub(crate) fn are_names(text: &[u8]) -> bool
    ensures { result ≡ list_all is_name (slice_split is_slash text.now) }
{
    text.split(|b| is_slash(b)).all(|part| is_name(part))
}

/// Whether each part is a name, `.` or `..`.
pub(crate) fn are_components(text: &[u8]) -> bool
    ensures { result ≡ list_all is_component (slice_split is_slash text.now) }
{
    text.split(|b| is_slash(b)).all(|part| is_component(part))
}

fn is_component(part: &[u8]) -> bool
    ensures { result ≡ is_component part.now }
{
    is_name(part) || part == b".".as_slice() || part == b"..".as_slice()
}

/// Whether there are more parts than the limit.
pub(crate) fn has_more_parts(text: &[u8], limit: usize) -> bool
    ensures { result ≡ nat_lt limit (length (slice_split is_slash text.now)) }
{
    count_parts(text) > limit
}

/// The number of parts.
pub(crate) fn count_parts(text: &[u8]) -> usize
    ensures { result ≡ length (slice_split is_slash text.now) }
{
    count_slashes(text) + 1
}

fn count_slashes(text: &[u8]) -> usize
    ensures { result ≡ count_by is_slash text.now }
{
    text.iter().filter(|b| is_slash(b)).count()
}

/// The text without its leading `/`, if it has one.
pub fn after_slash(text: &[u8]) -> &[u8]
    ensures { result.now ≡ after_slash text.now }
{
    match text.split_first() {
        Some((b'/', rest)) => rest,
        _ => text,
    }
}

/// Adds the parts, which are names, at the end.
pub(crate) fn add_names(alloc: Global, names: &mut Vec<Name>, text: &[u8]) -> Result<(), NoMemory>
    requires { list_all is_name (slice_split is_slash text.now) ≡ true }
    ensures { OnOk result (names.new.items ≡ names.old.items ++ slice_split is_slash text.now) }
{
    for part in text.split(|b| is_slash(b)) {
        names.push(Name::of(alloc, part)?)?;
    }
    Ok(())
}
