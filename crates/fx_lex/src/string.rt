ghost use Rattle.std.specs.Prelude.{◌≡◌, ◌<◌, ◌≤◌, length, IfOk, SomeIff, slice_index};
ghost use Rattle.std.specs.Char.{digit_value};
ghost use Rattle.std.specs.List.{prefix_len};
ghost use Rattle.fx_base.specs.Limits.{source_limit};
ghost use Rattle.fx_lex.specs.Spelling.{Escaped, is_item, item_value};
ghost use Rattle.fx_lex.specs.Found.{IsStringAt};
ghost use Rattle.fx_lex.specs.Items.{is_plain, first_item, escaped_item, hex_item};

use fx_base::NoMemory;
use fx_expr::Text;
use std::alloc::Global;

/// The value of a hexadecimal digit of either case.
fn hex_value(b: u8) -> Option<u8>
    ensures { SomeIff result (digit_value b < 16) (digit_value b) }
{
    match char::from(b).to_digit(16) {
        Some(digit) => Some(digit as u8),
        None => None,
    }
}

/// The item whose `\x` stands before these bytes.
fn hex_item(rest: &[u8]) -> Option<(u8, usize)>
    ensures { result ≡ hex_item rest.now }
{
    if rest.len() < 2 {
        return None;
    }
    let high = hex_value(rest[0])?;
    let low = hex_value(rest[1])?;
    Some((high * 16 + low, 4))
}

fn is_escaped(b: u8) -> bool
    ensures { result ≡ is_item (Escaped b) }
{
    b == b'"' || (b == b'\\' || b == b'n')
}

fn escaped_value(b: u8) -> u8
    ensures { result ≡ item_value (Escaped b) }
{
    if b == b'n' { b'\n' } else { b }
}

/// The item whose `\` stands before these bytes.
fn escaped_item(rest: &[u8]) -> Option<(u8, usize)>
    ensures { result ≡ escaped_item rest.now }
{
    if rest.is_empty() {
        return None;
    }
    if rest[0] == b'x' {
        return hex_item(&rest[1..]);
    }
    if is_escaped(rest[0]) {
        return Some((escaped_value(rest[0]), 2));
    }
    None
}

// 1 for each byte that stands for itself, else 0, 32 bytes a row.
static PLAIN_BYTES: [u8; 256] = [
    0, 0, 0, 0, 0, 0, 0, 0, 0, 0, 0, 0, 0, 0, 0, 0, 0, 0, 0, 0, 0, 0, 0, 0, 0, 0, 0, 0, 0, 0, 0, 0,
    1, 1, 0, 1, 1, 1, 1, 1, 1, 1, 1, 1, 1, 1, 1, 1, 1, 1, 1, 1, 1, 1, 1, 1, 1, 1, 1, 1, 1, 1, 1, 1,
    1, 1, 1, 1, 1, 1, 1, 1, 1, 1, 1, 1, 1, 1, 1, 1, 1, 1, 1, 1, 1, 1, 1, 1, 1, 1, 1, 1, 0, 1, 1, 1,
    1, 1, 1, 1, 1, 1, 1, 1, 1, 1, 1, 1, 1, 1, 1, 1, 1, 1, 1, 1, 1, 1, 1, 1, 1, 1, 1, 1, 1, 1, 1, 0,
    1, 1, 1, 1, 1, 1, 1, 1, 1, 1, 1, 1, 1, 1, 1, 1, 1, 1, 1, 1, 1, 1, 1, 1, 1, 1, 1, 1, 1, 1, 1, 1,
    1, 1, 1, 1, 1, 1, 1, 1, 1, 1, 1, 1, 1, 1, 1, 1, 1, 1, 1, 1, 1, 1, 1, 1, 1, 1, 1, 1, 1, 1, 1, 1,
    1, 1, 1, 1, 1, 1, 1, 1, 1, 1, 1, 1, 1, 1, 1, 1, 1, 1, 1, 1, 1, 1, 1, 1, 1, 1, 1, 1, 1, 1, 1, 1,
    1, 1, 1, 1, 1, 1, 1, 1, 1, 1, 1, 1, 1, 1, 1, 1, 1, 1, 1, 1, 1, 1, 1, 1, 1, 1, 1, 1, 1, 1, 1, 1,
];

#[tactic(auto, using(crate::proofs::Table::plain_byte_at))]
fn is_plain(b: u8) -> bool
    ensures { result ≡ is_plain b }
{
    PLAIN_BYTES[usize::from(b)] != 0
}

/// How many bytes at the front stand for themselves.
fn plain_len(bytes: &[u8]) -> usize
    ensures run { result ≡ prefix_len is_plain bytes.now }
    ensures within { result ≤ length bytes.now }
{
    for (at, b) in bytes.iter().enumerate() {
        if !is_plain(*b) {
            return at;
        }
    }
    bytes.len()
}

/// The byte that the item at the front stands for, and the item's length.
fn first_item(bytes: &[u8]) -> Option<(u8, usize)>
    ensures { result ≡ first_item bytes.now }
{
    if bytes.is_empty() {
        return None;
    }
    if bytes[0] == b'\\' {
        return escaped_item(&bytes[1..]);
    }
    if is_plain(bytes[0]) {
        return Some((bytes[0], 1));
    }
    None
}

/// The string whose quote stands at the front, and how many bytes it has; None where it has no end or a wrong item.
pub(crate) fn string_at(alloc: Global, bytes: &[u8]) -> Result<Option<(Text, usize)>, NoMemory>
    requires some { 0 < length bytes.now }
    requires quote { slice_index bytes.now 0 ≡ 34 }
    requires short { length bytes.now ≤ source_limit }
    ensures { IfOk result (IsStringAt bytes.now) }
{
    let plain = plain_len(&bytes[1..]);
    let mut value = Vec::from_slice(alloc, &bytes[1..1 + plain])?;
    let mut at = 1 + plain;
    while at < bytes.len() {
        if bytes[at] == b'"' {
            return Ok(Some((Text::from_vec(value), at + 1)));
        }
        match first_item(&bytes[at..]) {
            Some((byte, len)) => {
                value.push(byte)?;
                at += len;
            }
            None => return Ok(None),
        }
    }
    Ok(None)
}
