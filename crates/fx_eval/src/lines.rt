ghost use Rattle.std.specs.Prelude.{◌≡◌, ◌++◌, [], ◌∷◌, IfOk, OnOk, cond, length, nat_lt};
ghost use Rattle.fx_expr.specs.Bytes.{IsText};
ghost use Rattle.fx_expr.specs.Eval.{pieces};
ghost use Rattle.fx_text.specs.Sets.{set_of};

use fx_base::NoMemory;
use fx_text::{Text, TextSet};
use std::alloc::Global;

// The set of a text's pieces between line feeds, empty ones left out.
pub(crate) fn lines(alloc: Global, text: &Text) -> Result<TextSet, NoMemory>
    ensures { IfOk result (λ set. set ≡ set_of (pieces text.now)) }
{
    let found = split_lines(alloc, text.as_slice())?;
    TextSet::from_texts(alloc, found)
}

fn split_lines(alloc: Global, text: &[u8]) -> Result<Vec<Text>, NoMemory>
    requires { IsText text.now }
    ensures { IfOk result (λ found. found.items ≡ pieces text.now) }
{
    let mut found = Vec::new(alloc);
    for piece in text.split(|b| *b == b'\n') {
        add_piece(alloc, &mut found, piece)?;
    }
    Ok(found)
}

fn add_piece(alloc: Global, found: &mut Vec<Text>, piece: &[u8]) -> Result<(), NoMemory>
    requires { IsText piece.now }
    ensures { OnOk result (found.new.items ≡ found.old.items
        ++ cond (nat_lt 0 (length piece.now)) (piece.now ∷ []) []) }
{
    if piece.is_empty() {
        return Ok(());
    }
    found.push(Text::from_slice(alloc, piece)?)?;
    Ok(())
}
