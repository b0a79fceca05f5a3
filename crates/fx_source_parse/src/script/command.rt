//! Commands and blocks of them.
ghost use Rattle.fx_parse.specs.Reader.{kinds, read_expr};
ghost use Rattle.fx_parse.specs.ShapeReader.{read_shape};
ghost use Rattle.fx_parse.specs.Stuck.{Gives};
ghost use Rattle.fx_spec.specs.Views.{command_tree};
ghost use Rattle.fx_source_parse.specs.Scripts.Reader.{added_at, many_at, braced_at, branch_at, each_at, form_at, read_command};

use crate::script::form::{
    do_at, fetch_at, let_at, print_at, set_at, try_at, validate_at, value_at,
};
use crate::script::part::bracketed_at;
use crate::script::start::{Start, is_nothing, start_of};
use fx_lex::Spanned;
use fx_parse::{Sign, Stop, behind, closed, first_of, name_at};
use fx_spec::{Command, Commands};
use std::alloc::Global;

/// For so many commands a block has room from the start, while it is read.
const ROOM: usize = 8;

/// Adds the command at the front, and gives what follows it. A refusal leaves the list.
#[cycle(command)]
#[tactic(auto, unfolding(crate::specs::Scripts::Reader::added_at))]
fn added_at<'a>(
    alloc: Global,
    left: u32,
    commands: &mut Commands,
    tokens: &'a [Spanned],
) -> Result<&'a [Spanned], Stop>
    ensures { Gives (λ r. (commands.new, kinds r.now)) result
        (added_at (read_command left) commands.old (kinds tokens.now)) }
{
    let (command, rest) = command_at(alloc, left, tokens)?;
    commands.add(alloc, command)?;
    Ok(rest)
}

/// The commands up to the brace that closes them.
#[cycle(command)]
fn many_at(alloc: Global, left: u32, tokens: &[Spanned]) -> Result<(Commands, &[Spanned]), Stop>
    ensures { Gives (λ x. (x.0, kinds x.1.now)) result
        (many_at (read_command left) (kinds tokens.now)) }
{
    let mut commands = Commands::with_room(alloc, ROOM)?;
    let mut rest = tokens;
    for _i in 0..tokens.len() {
        if let Some(behind) = closed(rest, Sign::RightBrace) {
            return Ok((commands.fitted(alloc)?, behind));
        }
        rest = added_at(alloc, left, &mut commands, rest)?;
    }
    Err(Stop::Unexpected(rest.len()))
}

/// `{ command* }`.
#[cycle(command)]
#[tactic(auto, unfolding(crate::specs::Scripts::Reader::braced_at))]
pub(crate) fn braced_at(
    alloc: Global,
    left: u32,
    tokens: &[Spanned],
) -> Result<(Commands, &[Spanned]), Stop>
    ensures { Gives (λ x. (x.0, kinds x.1.now)) result
        (braced_at (read_command left) (kinds tokens.now)) }
{
    let rest = behind(tokens, Sign::LeftBrace)?;
    many_at(alloc, left, rest)
}

/// What follows `if`: `( expr ) { command* } else { command* }`.
#[cycle(command)]
#[tactic(auto, unfolding(crate::specs::Scripts::Reader::branch_at))]
fn branch_at(alloc: Global, left: u32, tokens: &[Spanned]) -> Result<(Command, &[Spanned]), Stop>
    ensures { Gives (λ x. (command_tree x.0, kinds x.1.now)) result
        (branch_at (read_expr left) (read_command left) (kinds tokens.now)) }
{
    let (test, rest) = bracketed_at(alloc, left, tokens)?;
    let (first, rest) = braced_at(alloc, left, rest)?;
    let rest = behind(rest, Sign::Else)?;
    let (second, rest) = braced_at(alloc, left, rest)?;
    Ok((Command::Branch(test, first, second), rest))
}

/// What follows `each`: `NAME in ( expr ) { command* }`.
#[cycle(command)]
#[tactic(auto, unfolding(crate::specs::Scripts::Reader::each_at))]
fn each_at(alloc: Global, left: u32, tokens: &[Spanned]) -> Result<(Command, &[Spanned]), Stop>
    ensures { Gives (λ x. (command_tree x.0, kinds x.1.now)) result
        (each_at (read_expr left) (read_command left) (kinds tokens.now)) }
{
    let (name, rest) = name_at(alloc, tokens)?;
    let rest = behind(rest, Sign::In)?;
    let (set, rest) = bracketed_at(alloc, left, rest)?;
    let (body, rest) = braced_at(alloc, left, rest)?;
    Ok((Command::Each(name, set, body), rest))
}

/// What follows the first token of a command.
#[cycle(command)]
#[tactic(auto, unfolding(crate::specs::Scripts::Reader::form_at))]
fn form_at(
    alloc: Global,
    left: u32,
    start: Start,
    tokens: &[Spanned],
) -> Result<(Command, &[Spanned]), Stop>
    ensures { Gives (λ x. (command_tree x.0, kinds x.1.now)) result
        (form_at (read_expr left) (read_shape left) (read_command left) start (kinds tokens.now)) }
{
    match start {
        Start::Act(act) => do_at(alloc, left, act, tokens),
        Start::Try => try_at(alloc, left, tokens),
        Start::Let => let_at(alloc, left, tokens),
        Start::Set => set_at(alloc, left, tokens),
        Start::Fetch => fetch_at(alloc, left, tokens),
        Start::Value => value_at(alloc, left, tokens),
        Start::Validate => validate_at(alloc, tokens),
        Start::Print => print_at(alloc, left, tokens),
        Start::If => branch_at(alloc, left, tokens),
        Start::Each => each_at(alloc, left, tokens),
        Start::Abort => Ok((Command::Abort, tokens)),
        Start::Nothing => Err(Stop::Unexpected(tokens.len())),
    }
}

/// The command at the front, with so many levels left, and what follows it.
#[cycle(command)]
fn command_at(alloc: Global, left: u32, tokens: &[Spanned]) -> Result<(Command, &[Spanned]), Stop>
    ensures { Gives (λ x. (command_tree x.0, kinds x.1.now)) result
        (read_command left (kinds tokens.now)) }
{
    let Some((first, rest)) = first_of(tokens) else {
        return Err(Stop::Unexpected(0));
    };
    let start = start_of(first);
    if is_nothing(start) {
        return Err(Stop::Unexpected(tokens.len()));
    }
    if left == 0 {
        return Err(Stop::TooNested(tokens.len()));
    }
    form_at(alloc, left - 1, start, rest)
}
