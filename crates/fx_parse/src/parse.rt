ghost use Rattle.std.specs.Prelude.{◌≡◌, ℕ, ◌≤◌, drop, IfOk, IfErr};
ghost use Rattle.fx_expr.specs.ExprTree.{ExprTree};
ghost use Rattle.fx_expr.specs.ShapeTree.{ShapeTree};
ghost use Rattle.fx_expr.specs.Views.{expr_tree, shape_tree};
ghost use Rattle.fx_parse.specs.Grammars.{exprs, shapes};
ghost use Rattle.fx_parse.specs.ReadAt.{place_left, fault_at, IsReadAt, IsParseFault};

use crate::expr::expr_at;
use crate::fault::ParseFault;
use crate::shape::shape_at;
use crate::stop::Stop;
use fx_expr::{Expr, Shape};
use fx_lex::{Spanned, Tokens};
use std::alloc::Global;

/// The deepest level at which a form may stand.
pub const LEVEL_LIMIT: u32 = 64;

/// The byte at which so many tokens are left.
fn place_left(tokens: &Tokens, left: usize) -> u32
    ensures { result ≡ place_left tokens.now left }
{
    match tokens.at(tokens.len().saturating_sub(left as u64)) {
        Some(spanned) => spanned.start,
        None => tokens.text_len(),
    }
}

/// The fault that is told where reading stopped.
pub fn fault_at(tokens: &Tokens, stop: Stop) -> ParseFault
    ensures { result ≡ fault_at tokens.now stop }
{
    match stop {
        Stop::Unexpected(left) => ParseFault::Unexpected(place_left(tokens, left)),
        Stop::TooNested(left) => ParseFault::TooNested(place_left(tokens, left)),
        Stop::NoMemory => ParseFault::NoMemory,
    }
}

/// The tokens from an index on; none where there is no token at the index.
fn tokens_from(tokens: &Tokens, from: u32) -> &[Spanned]
    ensures { result.now ≡ drop from tokens.now.spanned }
{
    let all = tokens.as_slice();
    &all[(from as usize).min(all.len())..]
}

/// The expression that stands from a token on, and the index of the token behind it. `depth` is the level at which the
/// expression stands, at least 1: the outermost form has level 1, and none may have a level above [`LEVEL_LIMIT`]. A
/// refusal names the first token with which the tokens so far begin no expression, or that begins a form of level 65.
pub fn parse_expr(
    alloc: Global,
    tokens: &Tokens,
    from: u32,
    depth: u32,
) -> Result<(Expr, u32), ParseFault>
    requires { 1 ≤ depth }
    ensures found { IfOk result (λ x. IsReadAt exprs depth tokens.now from (expr_tree x.0) x.1) }
    ensures only { (t : ExprTree) (next : ℕ) → IsReadAt exprs depth tokens.now from t next →
        IfOk result (λ x. (expr_tree x.0 ≡ t) × (x.1 ≡ next))
        × IfErr result (λ e. e ≡ ParseFault.NoMemory) }
    ensures fault { IfErr result (IsParseFault exprs depth tokens.now from) }
{
    let all = tokens.as_slice();
    let left = (LEVEL_LIMIT + 1).saturating_sub(depth);
    match expr_at(alloc, left, tokens_from(tokens, from)) {
        Ok((expr, rest)) => Ok((expr, (all.len() - rest.len()) as u32)),
        Err(stop) => Err(fault_at(tokens, stop)),
    }
}

/// The shape that stands from a token on, and the index of the token behind it, as [`parse_expr`] reads an expression.
pub fn parse_shape(
    alloc: Global,
    tokens: &Tokens,
    from: u32,
    depth: u32,
) -> Result<(Shape, u32), ParseFault>
    requires { 1 ≤ depth }
    ensures found { IfOk result (λ x. IsReadAt shapes depth tokens.now from (shape_tree x.0) x.1) }
    ensures only { (t : ShapeTree) (next : ℕ) → IsReadAt shapes depth tokens.now from t next →
        IfOk result (λ x. (shape_tree x.0 ≡ t) × (x.1 ≡ next))
        × IfErr result (λ e. e ≡ ParseFault.NoMemory) }
    ensures fault { IfErr result (IsParseFault shapes depth tokens.now from) }
{
    let all = tokens.as_slice();
    let left = (LEVEL_LIMIT + 1).saturating_sub(depth);
    match shape_at(alloc, left, tokens_from(tokens, from)) {
        Ok((shape, rest)) => Ok((shape, (all.len() - rest.len()) as u32)),
        Err(stop) => Err(fault_at(tokens, stop)),
    }
}
