//! What is told of bytes. Each line of it begins with `> `.

use fx_base::NoMemory;
use std::alloc::AllocError;
use std::fmt::Write;

/// Tells a line.
pub fn tell(out: &mut String, line: &str) -> Result<(), NoMemory> {
    writeln!(out, "> {line}")?;
    Ok(())
}

/// Adds a byte, in hexadecimal where it is none that is printed.
fn add_byte(out: &mut String, byte: u8) -> Result<(), AllocError> {
    match byte {
        b' '..=b'~' => out.push(char::from(byte)),
        _ => write!(out, "\\x{byte:02x}"),
    }
}

/// Adds bytes within a line.
pub fn add_bytes(out: &mut String, bytes: &[u8]) -> Result<(), NoMemory> {
    for byte in bytes {
        add_byte(out, *byte)?;
    }
    Ok(())
}

/// Adds a byte of a text with lines.
fn add_line_byte(out: &mut String, byte: u8) -> Result<(), AllocError> {
    match byte {
        b'\n' => out.push('\n'),
        _ => add_byte(out, byte),
    }
}

/// Tells the lines of a text, with a backslash where it does not end its last line.
pub fn tell_bytes(out: &mut String, bytes: &[u8]) -> Result<(), NoMemory> {
    let mut begins = true;
    for byte in bytes {
        if begins {
            out.push_str("> ")?;
        }
        begins = *byte == b'\n';
        add_line_byte(out, *byte)?;
    }
    if !begins {
        out.push_str("\\\n")?;
    }
    Ok(())
}
