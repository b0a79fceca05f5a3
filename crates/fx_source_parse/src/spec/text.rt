ghost use Rattle.std.specs.Prelude.{◌≡◌, ◌≤◌, IfOk, IfErr};
ghost use Rattle.fx_grammar.specs.Refused.{IsRefusedDescription};
ghost use Rattle.fx_grammar.specs.Texts.{IsDescription};
ghost use Rattle.fx_parse.specs.Reader.{kinds};
ghost use Rattle.fx_parse.specs.Stuck.{Gives};
ghost use Rattle.fx_spec.specs.Levels.{text_levels};
ghost use Rattle.fx_spec.specs.TextViews.{written};
ghost use Rattle.fx_spec.specs.Written.{TextTree};
ghost use Rattle.fx_source_parse.specs.Descriptions.Reader.{read_text, read_whole};

use crate::spec::defs::defs_at;
use crate::spec::form::spec_at;
use fx_base::SOURCE_LIMIT;
use fx_lex::{Spanned, lex};
use fx_parse::{LEVEL_LIMIT, ParseFault, Stop, fault_at, first_of};
use fx_spec::Description;
use std::alloc::Global;

/// The description at the front, with its definitions, and what follows it.
#[tactic(auto, unfolding(crate::specs::Descriptions::Reader::read_text))]
fn text_at(alloc: Global, tokens: &[Spanned]) -> Result<(Description, &[Spanned]), Stop>
    ensures { Gives (λ x. (written x.0, kinds x.1.now)) result (read_text 64 (kinds tokens.now)) }
{
    let (defs, rest) = defs_at(alloc, tokens)?;
    let (root, rest) = spec_at(alloc, LEVEL_LIMIT, rest)?;
    Ok((Description { defs, root }, rest))
}

/// The one description that the tokens are.
#[tactic(auto, unfolding(crate::specs::Descriptions::Reader::read_whole))]
fn whole_of(alloc: Global, tokens: &[Spanned]) -> Result<Description, Stop>
    ensures { Gives (λ x. written x) result (read_whole (kinds tokens.now)) }
{
    let (description, rest) = text_at(alloc, tokens)?;
    match first_of(rest) {
        Some(_) => {
            let_go(description);
            Err(Stop::Unexpected(rest.len()))
        }
        None => Ok(description),
    }
}

fn let_go(_: Description) {}

/// The description, with its definitions, that a text of at most [`SOURCE_LIMIT`] bytes is, with no form of a level above
/// [`LEVEL_LIMIT`]. The text keeps the word `def`. A refusal names the first byte that begins no token; else the first
/// token with which the tokens so far begin no description, or that begins a form of level 65, whichever comes first.
pub fn parse(alloc: Global, text: &[u8]) -> Result<Description, ParseFault>
    ensures ok { IfOk result (λ d. IsDescription text.now (written d)) }
    ensures nested { IfOk result (λ d. text_levels (written d) ≤ 64) }
    ensures only { (t : TextTree) → IsDescription text.now t →
        IfOk result (λ d. written d ≡ t) × IfErr result (λ e. e ≡ ParseFault.NoMemory) }
    ensures fault { IfErr result (IsRefusedDescription text.now) }
{
    if text.len() > SOURCE_LIMIT {
        return Err(ParseFault::TooLarge);
    }
    let mut tokens = lex(alloc, text)?;
    tokens.keep_def();
    match whole_of(alloc, tokens.as_slice()) {
        Ok(description) => Ok(description),
        Err(stop) => Err(fault_at(&tokens, stop)),
    }
}
