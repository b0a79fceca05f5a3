ghost use Rattle.std.specs.Prelude.{◌≡◌};
ghost use Rattle.fx_parse.specs.Reader.{kinds};
ghost use Rattle.fx_source_parse.specs.Descriptions.Reader.{begins_def};

use fx_lex::{Spanned, Token};
use fx_parse::first_of;

/// Whether a definition begins here.
pub(crate) fn begins_def(tokens: &[Spanned]) -> bool
    ensures { result ≡ begins_def (kinds tokens.now) }
{
    match first_of(tokens) {
        Some((first, _)) => matches!(first, Token::Def),
        None => false,
    }
}
