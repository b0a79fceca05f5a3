//! The bytes that a text of a case stands for. A backslash stands before `n`, `r` or `t` for a line feed, a carriage return
//! or a tab, before `s` for a space, before `e` for nothing, before `x` and two digits for a byte, and before `[N:PIECE]`
//! for a piece so many times. Before another byte it stands for that byte.
ghost use Rattle.std.specs.Prelude.{◌<◌};

use fx_base::NoMemory;
use std::alloc::Global;

/// The most times that a piece is repeated.
const REPEAT_LIMIT: usize = 2_000_000;

/// The value of a hexadecimal digit, and 0 for another byte.
fn digit(byte: u8) -> u8
    ensures { result < 16 }
{
    match byte {
        b'0'..=b'9' => byte - b'0',
        b'a'..=b'f' => byte - b'a' + 10,
        _ => 0,
    }
}

/// Adds the byte of two digits, and answers what stands behind them.
fn add_byte<'a>(bytes: &mut Vec<u8>, rest: &'a [u8]) -> Result<&'a [u8], NoMemory> {
    match rest {
        [high, low, after @ ..] => {
            bytes.push(digit(*high) * 16 + digit(*low))?;
            Ok(after)
        }
        _ => Ok(rest),
    }
}

/// Adds a piece so many times.
fn add_times(bytes: &mut Vec<u8>, count: &str, piece: &str) -> Result<(), NoMemory> {
    let count = count.parse::<usize>().unwrap_or(0).min(REPEAT_LIMIT);
    for _ in 0..count {
        bytes.extend_from_slice(piece.as_bytes())?;
    }
    Ok(())
}

/// Adds the piece of `N:PIECE]`, and answers what stands behind it.
fn add_piece<'a>(bytes: &mut Vec<u8>, rest: &'a [u8]) -> Result<&'a [u8], NoMemory> {
    let Ok(text) = std::str::from_utf8(rest) else {
        return Ok(rest);
    };
    let Some((count, text)) = text.split_once(':') else {
        return Ok(rest);
    };
    let Some((piece, after)) = text.split_once(']') else {
        return Ok(rest);
    };
    add_times(bytes, count, piece)?;
    Ok(after.as_bytes())
}

/// Adds what a backslash and a byte stand for, and answers what stands behind it.
fn add_escape<'a>(bytes: &mut Vec<u8>, first: u8, rest: &'a [u8]) -> Result<&'a [u8], NoMemory> {
    match first {
        b'e' => return Ok(rest),
        b'x' => return add_byte(bytes, rest),
        b'[' => return add_piece(bytes, rest),
        b'n' => bytes.push(b'\n')?,
        b'r' => bytes.push(b'\r')?,
        b't' => bytes.push(b'\t')?,
        b's' => bytes.push(b' ')?,
        other => bytes.push(other)?,
    }
    Ok(rest)
}

/// The bytes that a text stands for.
pub fn unescaped(alloc: Global, text: &str) -> Result<Vec<u8>, NoMemory> {
    let mut bytes = Vec::new(alloc);
    let mut rest = text.as_bytes();
    for _ in 0..text.len() {
        rest = match rest {
            [b'\\', first, after @ ..] => add_escape(&mut bytes, *first, after)?,
            [first, after @ ..] => {
                bytes.push(*first)?;
                after
            }
            [] => rest,
        };
    }
    Ok(bytes)
}
