ghost use Rattle.std.specs.Prelude.{◌≡◌, ◌<◌, ◌≤◌, ◌++◌, [], ◌∷◌, true, false, length, take, OnOk};
ghost use Rattle.std.specs.Fmt.{decimal, digit_glyph};
ghost use Rattle.std.specs.List.{flat_map};
ghost use Rattle.fx_store.specs.Names.{path_text};
ghost use Rattle.fx_report.specs.Print.{hex_pair, quote, spelled};

use fx_base::{NoMemory, add_bytes};
use fx_store::{Name, Path};
use itoa::Buffer;

/// Adds a number in decimal digits, without leading zeros.
pub fn add_number(out: &mut Vec<u8>, number: u64) -> Result<(), NoMemory>
    ensures { OnOk result (out.new.items ≡ out.old.items ++ decimal number) }
{
    let mut buffer = Buffer::new();
    add_bytes(out, buffer.format(number).as_bytes())
}

fn hex_digit(value: u8) -> u8
    requires { value < 16 }
    ensures { result ≡ digit_glyph false value }
{
    if value < 10 {
        b'0' + value
    } else {
        b'a' + (value - 10)
    }
}

fn add_hex_pair(out: &mut Vec<u8>, byte: u8) -> Result<(), NoMemory>
    ensures { OnOk result (out.new.items ≡ out.old.items ++ hex_pair byte) }
{
    let pair = [hex_digit(byte / 16), hex_digit(byte % 16)];
    add_bytes(out, &pair)
}

/// Adds a byte as it is spelled between quotation marks.
#[tactic(auto, unfolding(crate::specs::Print::spelled))]
fn add_spelled(out: &mut Vec<u8>, byte: u8) -> Result<(), NoMemory>
    ensures { OnOk result (out.new.items ≡ out.old.items ++ spelled byte) }
{
    match byte {
        b'"' => add_bytes(out, b"\\\""),
        b'\\' => add_bytes(out, b"\\\\"),
        b'\n' => add_bytes(out, b"\\n"),
        b' '..=b'~' => add_bytes(out, &[byte]),
        _ => {
            add_bytes(out, b"\\x")?;
            add_hex_pair(out, byte)
        }
    }
}

/// Whether a byte is spelled as itself between quotation marks.
#[tactic(auto, using(std::proofs::lemmas::Bool::Decides::nat_tests), unfolding(crate::specs::Print::spelled))]
pub(crate) fn is_plain(byte: u8) -> bool
    ensures { result ≡ true → spelled byte ≡ byte ∷ [] }
{
    match byte {
        b'"' => false,
        b'\\' => false,
        b' '..=b'~' => true,
        _ => false,
    }
}

/// How many bytes at the front are spelled as themselves.
fn plain_len(bytes: &[u8]) -> usize
    ensures within { result ≤ length bytes.now }
    ensures plain { flat_map spelled (take result bytes.now) ≡ take result bytes.now }
{
    for (at, byte) in bytes.iter().enumerate() {
        if !is_plain(*byte) {
            return at;
        }
    }
    bytes.len()
}

/// Adds bytes as they are spelled: those that are spelled as themselves in runs, and each other by itself.
pub(crate) fn add_all_spelled(out: &mut Vec<u8>, bytes: &[u8]) -> Result<(), NoMemory>
    ensures { OnOk result (out.new.items ≡ out.old.items ++ flat_map spelled bytes.now) }
{
    let mut rest = bytes;
    'adding: loop {
        let plain = plain_len(rest);
        add_bytes(out, &rest[..plain])?;
        if plain == rest.len() {
            return Ok(());
        }
        add_spelled(out, rest[plain])?;
        rest = &rest[plain + 1..];
    }
}

/// Adds the bytes between quotation marks.
#[tactic(auto, unfolding(crate::specs::Print::quote))]
pub(crate) fn add_quote(out: &mut Vec<u8>, bytes: &[u8]) -> Result<(), NoMemory>
    ensures { OnOk result (out.new.items ≡ out.old.items ++ quote bytes.now) }
{
    add_bytes(out, b"\"")?;
    add_all_spelled(out, bytes)?;
    add_bytes(out, b"\"")
}

fn add_spelled_name(out: &mut Vec<u8>, name: &Name) -> Result<(), NoMemory>
    ensures { OnOk result (out.new.items ≡ out.old.items ++ flat_map spelled (47 ∷ name.now)) }
{
    add_spelled(out, b'/')?;
    add_all_spelled(out, name.as_slice())
}

/// Adds each name of a path with `/` before it, as it is spelled between quotation marks.
#[tactic(auto, using(crate::proofs::Spelling::spelled_append))]
fn add_spelled_names(out: &mut Vec<u8>, path: &Path) -> Result<(), NoMemory>
    ensures { OnOk result
        (out.new.items ≡ out.old.items
        ++ flat_map spelled (flat_map (λ name. 47 ∷ name) path.now)) }
{
    for name in path.iter() {
        add_spelled_name(out, name)?;
    }
    Ok(())
}

/// Adds the text of a path as it is spelled between quotation marks.
fn add_spelled_path(out: &mut Vec<u8>, path: &Path) -> Result<(), NoMemory>
    ensures { OnOk result
        (out.new.items ≡ out.old.items ++ flat_map spelled (path_text path.now)) }
{
    if path.len() == 0 {
        return add_spelled(out, b'/');
    }
    add_spelled_names(out, path)
}

/// Adds the text of a path between quotation marks.
#[tactic(auto, unfolding(crate::specs::Print::quote))]
pub fn add_quoted_path(out: &mut Vec<u8>, path: &Path) -> Result<(), NoMemory>
    ensures { OnOk result (out.new.items ≡ out.old.items ++ quote (path_text path.now)) }
{
    add_bytes(out, b"\"")?;
    add_spelled_path(out, path)?;
    add_bytes(out, b"\"")
}
