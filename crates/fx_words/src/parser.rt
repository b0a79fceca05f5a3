//! The command line as `clap` is told of it.
ghost use Rattle.std.specs.Prelude.{◌≡◌, IfOk, false};
ghost use Rattle.clap.specs.Words.{app_of, rule_of};
ghost use Rattle.fx_words.specs.Forms.{least_of, most_of};
ghost use Rattle.fx_words.specs.Parser as parser;
ghost use Rattle.fx_words.specs.Parser.{IsTold};

use crate::form::{COMMANDS, CommandName};
use clap::{Arg, Command};
use std::alloc::{AllocError, Global};

/// The arguments of a command.
fn arguments<'a>(alloc: Global, name: CommandName) -> Arg<'a>
    ensures rule { rule_of result ≡ parser.text_arguments (least_of name) (most_of name) }
    ensures local { result.global ≡ false }
{
    Arg::new(alloc, "argument")
        .required(true)
        .num_args(name.argument_count())
}

fn command<'a>(alloc: Global, name: CommandName) -> Result<Command<'a>, AllocError>
    ensures { IfOk result (IsTold (parser.command name)) }
{
    let word: &'a str = name.word();
    Command::new(alloc, word).arg(arguments(alloc, name))
}

/// The program, with no help and no version; one of its commands must be named.
fn bare<'a>(alloc: Global) -> Command<'a>
    ensures { app_of result ≡ parser.without_commands }
{
    Command::new(alloc, "txforest")
        .no_binary_name(true)
        .disable_help_flag(true)
        .disable_help_subcommand(true)
        .subcommand_required(true)
}

fn with_command<'a>(
    alloc: Global,
    program: Command<'a>,
    name: CommandName,
) -> Result<Command<'a>, AllocError>
    ensures { IfOk result (λ c. app_of c ≡ parser.with_command (app_of program.entry) name) }
{
    program.subcommand(command(alloc, name)?)
}

/// The program with all its commands.
pub(crate) fn program<'a>(alloc: Global) -> Result<Command<'a>, AllocError>
    ensures { IfOk result (λ c. app_of c ≡ parser.program) }
{
    let mut program = bare(alloc);
    for name in COMMANDS.iter() {
        program = with_command(alloc, program, *name)?;
    }
    Ok(program)
}
