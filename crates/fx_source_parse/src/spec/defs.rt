//! The definitions of a text.
ghost use Rattle.std.specs.Prelude.{◌≡◌};
ghost use Rattle.fx_parse.specs.Reader.{kinds};
ghost use Rattle.fx_parse.specs.ShapeReader.{read_shape};
ghost use Rattle.fx_parse.specs.Stuck.{Gives};
ghost use Rattle.fx_spec.specs.DefViews.{def_tree};
ghost use Rattle.fx_source_parse.specs.Descriptions.Lists.{added_at};
ghost use Rattle.fx_source_parse.specs.Descriptions.Reader.{def_at, read_spec, read_def, defs_at};

use crate::spec::cursor::begins_def;
use crate::spec::form::spec_at;
use crate::spec::params::params_at;
use fx_lex::Spanned;
use fx_parse::{LEVEL_LIMIT, Sign, Stop, behind, name_at};
use fx_spec::{Def, Defs};
use std::alloc::Global;

/// What follows `def`: `NAME ( params ) = spec`.
#[tactic(auto, unfolding(crate::specs::Descriptions::Reader::def_at))]
fn def_at(alloc: Global, left: u32, tokens: &[Spanned]) -> Result<(Def, &[Spanned]), Stop>
    ensures { Gives (λ x. (def_tree x.0, kinds x.1.now)) result
        (def_at (read_shape left) (read_spec left) (kinds tokens.now)) }
{
    let (name, rest) = name_at(alloc, tokens)?;
    let rest = behind(rest, Sign::LeftParen)?;
    let (params, rest) = params_at(alloc, left, rest)?;
    let rest = behind(rest, Sign::Equal)?;
    let (body, rest) = spec_at(alloc, left, rest)?;
    Ok((Def { name, params, body }, rest))
}

/// Adds the definition at the front, and gives what follows it. A refusal leaves the list.
#[tactic(auto, unfolding(crate::specs::Descriptions::Lists::added_at, crate::specs::Descriptions::Reader::read_def))]
fn added_at<'a>(
    alloc: Global,
    defs: &mut Defs,
    tokens: &'a [Spanned],
) -> Result<&'a [Spanned], Stop>
    ensures { Gives (λ r. (defs.new, kinds r.now)) result
        (added_at (read_def 64) defs.old (kinds tokens.now)) }
{
    let rest = behind(tokens, Sign::Def)?;
    let (def, rest) = def_at(alloc, LEVEL_LIMIT - 1, rest)?;
    defs.add(alloc, def)?;
    Ok(rest)
}

/// The definitions at the front, and what follows them.
pub(crate) fn defs_at(alloc: Global, tokens: &[Spanned]) -> Result<(Defs, &[Spanned]), Stop>
    ensures { Gives (λ x. (x.0, kinds x.1.now)) result (defs_at 64 (kinds tokens.now)) }
{
    let mut defs = Defs::new(alloc);
    let mut rest = tokens;
    for _i in 0..tokens.len() {
        if !begins_def(rest) {
            return Ok((defs, rest));
        }
        rest = added_at(alloc, &mut defs, rest)?;
    }
    Ok((defs, rest))
}
