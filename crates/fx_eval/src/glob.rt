ghost use Rattle.std.specs.Prelude.{◌≡◌, ◌≤◌, ◌||◌, IfOk, drop, length, nat_eq};
ghost use Rattle.std.specs.List.{filter};
ghost use Rattle.fx_expr.specs.Globs.{glob_matches, some_suffix};
ghost use Rattle.fx_eval.specs.Attempts.{Attempted};

use fx_base::NoMemory;
use fx_text::TextSet;
use std::alloc::Global;

/// What comes of one attempt to match a glob at the start of a text.
enum Attempt {
    /// The glob has no `*` and matches the whole text.
    Whole,
    /// It does not match here.
    Fails,
    /// As many bytes before the first `*` match as many bytes of the text.
    Star(usize),
}

/// The texts of a set that match the glob.
pub(crate) fn only(alloc: Global, set: &TextSet, glob: &[u8]) -> Result<TextSet, NoMemory>
    ensures { IfOk result (λ kept. kept ≡ filter (λ text. glob_matches glob.now text) set.now) }
{
    // The texts ascend.
    let _len = set.len();
    let mut kept = Vec::new(alloc);
    for text in set.iter() {
        if matches(glob, text.as_slice()) {
            kept.push(text.copy(alloc)?)?;
        }
    }
    TextSet::from_ascending(alloc, kept)
}

/// Whether the whole text matches the glob, byte by byte: `*` stands for any bytes, `?` for any one byte, each other byte
/// for itself. It takes no memory, and at most as many steps as the two lengths multiplied: what follows the last `*` so
/// far is tried at each later place, and no earlier `*` is tried again.
pub fn matches(glob: &[u8], text: &[u8]) -> bool
    ensures { result ≡ glob_matches glob.now text.now }
{
    match try_here(glob, text) {
        Attempt::Whole => true,
        Attempt::Fails => false,
        Attempt::Star(n) => matches_suffix(after(after(glob, n), 1), after(text, n)),
    }
}

// Whether the glob matches some suffix of the text, as after a `*`.
fn matches_suffix(glob: &[u8], text: &[u8]) -> bool
    ensures { result ≡ some_suffix (glob_matches glob.now) text.now }
{
    let mut glob = glob;
    let mut text = text;
    loop {
        match try_here(glob, text) {
            Attempt::Whole => return true,
            Attempt::Star(n) => {
                glob = after(after(glob, n), 1);
                text = after(text, n);
            }
            Attempt::Fails => {
                if text.is_empty() {
                    return false;
                }
                text = after(text, 1);
            }
        }
    }
}

fn try_here(glob: &[u8], text: &[u8]) -> Attempt
    ensures { Attempted result glob.now text.now }
{
    for (i, byte) in glob.iter().enumerate() {
        if *byte == b'*' {
            return Attempt::Star(i);
        }
        if i >= text.len() {
            return Attempt::Fails;
        }
        if !stands_for(*byte, text[i]) {
            return Attempt::Fails;
        }
    }
    if text.len() == glob.len() {
        Attempt::Whole
    } else {
        Attempt::Fails
    }
}

// Whether a byte of a glob, which is no `*`, stands for this byte.
fn stands_for(byte: u8, other: u8) -> bool
    ensures { result ≡ (nat_eq byte 63 || nat_eq byte other) }
{
    byte == b'?' || byte == other
}

fn after(bytes: &[u8], n: usize) -> &[u8]
    requires { n ≤ length bytes.now }
    ensures { result.now ≡ drop n bytes.now }
{
    &bytes[n..]
}
