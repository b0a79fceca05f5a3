//! A line is composed in a piece, from its end to its front, so that it is added by one copy. A path leaves the first
//! bytes of the piece to the words and numbers before it.
ghost use Rattle.std.specs.Prelude.{◌≡◌, ◌+◌, ◌<◌, ◌≤◌, ◌++◌, ◌∷◌, length, drop, IfSome};
ghost use Rattle.std.specs.List.{flat_map};
ghost use Rattle.fx_store.specs.Names.{path_text};
ghost use Rattle.fx_report.specs.Print.{spelled};
ghost use Rattle.fx_report.specs.Report.{field};
ghost use Rattle.fx_report.specs.declared.pieces.TheConstants.{PIECE, AHEAD};

use crate::quotes::is_plain;
use fx_store::Path;
use itoa::write_digits;

/// The bytes of a piece.
pub(crate) const PIECE: usize = 160;

/// The bytes that a path leaves before it.
const AHEAD: usize = 96;

/// Writes the bytes so that they end at `end`, and tells where they start.
#[inline(always)]
pub(crate) fn write_bytes(piece: &mut [u8; PIECE], bytes: &[u8], end: usize) -> usize
    requires { (length bytes.now ≤ end) × (end ≤ PIECE) }
    ensures start { result + length bytes.now ≡ end }
    ensures written { drop result piece.new ≡ bytes.now ++ drop end piece.old }
{
    let start = end - bytes.len();
    for (i, byte) in bytes.iter().enumerate() {
        piece[start + i] = *byte;
    }
    start
}

/// Writes words and the number after them so that they end at `end`, and tells where they start.
#[inline(always)]
pub(crate) fn write_field(piece: &mut [u8; PIECE], words: &[u8], number: u64, end: usize) -> usize
    requires { (length words.now + 20 ≤ end) × (end ≤ PIECE) }
    ensures within { result ≤ end }
    ensures room { end ≤ result + (length words.now + 20) }
    ensures written { drop result piece.new ≡ field words.now number ++ drop end piece.old }
{
    let digits = write_digits(number, piece, end);
    write_bytes(piece, words, digits)
}

/// Writes `/` and a name so that they end at `end`, and tells where they start. It is `None` where fewer than `AHEAD` bytes
/// would be left before them, or where a byte of the name is not spelled as itself.
fn write_name(piece: &mut [u8; PIECE], name: &[u8], end: usize) -> Option<usize>
    requires { (AHEAD ≤ end) × (end ≤ PIECE) }
    ensures { IfSome result (λ start. (AHEAD ≤ start) × (start ≤ end)
        × (drop start piece.new ≡ flat_map spelled (47 ∷ name.now) ++ drop end piece.old)) }
{
    if name.len() >= end - AHEAD {
        return None;
    }
    let start = end - 1 - name.len();
    piece[start] = b'/';
    for (i, byte) in name.iter().enumerate() {
        if !is_plain(*byte) {
            return None;
        }
        piece[start + 1 + i] = *byte;
    }
    Some(start)
}

/// Writes each name of a path with `/` before it so that they end at `end`, and tells where they start. It is `None`
/// where `write_name` is.
fn write_names(piece: &mut [u8; PIECE], path: &Path, end: usize) -> Option<usize>
    requires { (AHEAD ≤ end) × (end ≤ PIECE) }
    ensures { IfSome result (λ start. (AHEAD ≤ start) × (start ≤ end)
        × (drop start piece.new
        ≡ flat_map spelled (flat_map (λ name. 47 ∷ name) path.now) ++ drop end piece.old)) }
{
    let mut start = end;
    for i in (0..path.len()).rev() {
        let Some(name) = path.name(i) else {
            unreachable!()
        };
        start = write_name(piece, name.as_slice(), start)?;
    }
    Some(start)
}

/// Writes the text of a path so that it ends at `end`, and tells where it starts. It is `None` where fewer than `AHEAD` bytes
/// would be left before it, or where a byte of a name is not spelled as itself.
pub(crate) fn write_path(piece: &mut [u8; PIECE], path: &Path, end: usize) -> Option<usize>
    requires { (AHEAD < end) × (end ≤ PIECE) }
    ensures { IfSome result (λ start. (AHEAD ≤ start) × (start ≤ end)
        × (drop start piece.new ≡ flat_map spelled (path_text path.now) ++ drop end piece.old)) }
{
    if path.len() == 0 {
        return Some(write_bytes(piece, b"/", end));
    }
    write_names(piece, path, end)
}
