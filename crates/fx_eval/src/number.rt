// Integers and the texts that spell them.
ghost use Rattle.std.specs.Prelude.{◌≡◌, true, false, nat_eq, slice_index, IfOk, MatchOption, MatchResult};
ghost use Rattle.fx_expr.specs.Eval.{read_integer, without_line_feed, spells_64, numeral_value};
ghost use Rattle.fx_expr.specs.Tree.{Tree};
ghost use Rattle.std.specs.Fmt.{signed_decimal};
ghost use Rattle.std.specs.Prelude.{Ok, Err};

use fx_base::NoMemory;
use fx_expr::ExprFault;
use fx_text::Text;
use std::alloc::Global;
use std::str;

// The integer that a text spells: an optional `-` and digits, and then an optional line feed.
pub(crate) fn read_integer(text: &[u8]) -> Result<i64, ExprFault>
    ensures { MatchResult result (λ n. read_integer text.now ≡ Ok (Tree.int n))
        (λ fault. read_integer text.now ≡ Err fault) }
{
    match read_numeral(without_line_feed(text)) {
        Some(n) => Ok(n),
        None => Err(ExprFault::NotNumber),
    }
}

fn without_line_feed(text: &[u8]) -> &[u8]
    ensures { result.now ≡ without_line_feed text.now }
{
    if text.is_empty() {
        return text;
    }
    let last = text.len() - 1;
    if text[last] == b'\n' {
        &text[..last]
    } else {
        text
    }
}

fn read_numeral(numeral: &[u8]) -> Option<i64>
    ensures { MatchOption result (spells_64 numeral.now ≡ false)
        (λ n. (spells_64 numeral.now ≡ true) × (numeral_value numeral.now ≡ n)) }
{
    if begins_with_plus(numeral) {
        return None;
    }
    match str::from_utf8(numeral) {
        Ok(text) => text.parse::<i64>().ok(),
        Err(_) => None,
    }
}

fn begins_with_plus(numeral: &[u8]) -> bool
    ensures { result ≡ nat_eq (slice_index numeral.now 0) 43 }
{
    !numeral.is_empty() && numeral[0] == b'+'
}

// The decimal text of an integer.
pub(crate) fn decimal(alloc: Global, n: i64) -> Result<Text, NoMemory>
    ensures { IfOk result (λ text. text ≡ signed_decimal n) }
{
    let text = n.to_string(alloc)?;
    Ok(Text::from_vec(text.into_bytes()))
}
