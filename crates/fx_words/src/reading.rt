//! The words, read by the program's parser.
ghost use Rattle.std.specs.Prelude.{◌≡◌, IfOk, Err, true, false, Some};
ghost use Rattle.std.specs.List.{list_all};
ghost use Rattle.std.specs.Option.{option_map};
ghost use Rattle.clap.specs.Words.{found_of, rows_of, subcommand_rows_of};
ghost use Rattle.fx_words.specs.Forms as forms;
ghost use Rattle.fx_words.specs.Forms.{has_form};
ghost use Rattle.fx_words.specs.Job.{is_plain};
ghost use Rattle.fx_words.specs.Matched.{command_in, words_in};
ghost use Rattle.fx_words.specs.WordsOf.{texts_of, words_of};

use crate::fault::WordsFault;
use crate::form::{COMMANDS, CommandName, Form};
use crate::parser::program;
use clap::ArgMatches;
use std::alloc::{AllocError, Global};

/// The words that `clap` takes, as it matched them.
fn matches_of<'a>(alloc: Global, words: &'a [&'a str]) -> Result<ArgMatches<'a>, WordsFault>
    requires { list_all is_plain (texts_of words.now) ≡ true }
    ensures form { IfOk result (λ m. has_form (texts_of words.entry.now) ≡ true) }
    ensures words { IfOk result
        (λ m. words_in (subcommand_rows_of m) ≡ Some (texts_of words.entry.now)) }
    ensures usage { result ≡ Err WordsFault.Usage → has_form (texts_of words.entry.now) ≡ false }
{
    let program = program(alloc)?;
    let matches = program.try_get_matches_from(words)?;
    Ok(matches)
}

/// The words of the command line as the command's form that they have.
pub(crate) fn read_words<'a>(alloc: Global, words: &'a [&'a str]) -> Result<Form<'a>, WordsFault>
    requires { list_all is_plain (texts_of words.now) ≡ true }
    ensures form { IfOk result (λ form. has_form (texts_of words.entry.now) ≡ true) }
    ensures words { IfOk result (λ form. words_of form ≡ texts_of words.entry.now) }
    ensures usage { result ≡ Err WordsFault.Usage → has_form (texts_of words.entry.now) ≡ false }
{
    let matches = matches_of(alloc, words)?;
    match form_of(alloc, &matches)? {
        Some(form) => Ok(form),
        None => unreachable!(),
    }
}

/// The command that a word names.
fn command_named(word: &str) -> Option<CommandName>
    ensures { result ≡ forms.command_named word.now }
{
    COMMANDS.iter().copied().find(|name| name.word() == word)
}

/// The form that the matches of a command have.
fn form_of<'a>(alloc: Global, matches: &ArgMatches<'a>) -> Result<Option<Form<'a>>, AllocError>
    ensures { IfOk result (λ form.
        option_map words_of form ≡ words_in (subcommand_rows_of matches.now)) }
{
    let (name, found) = match matches.subcommand() {
        Some(met) => met,
        None => return Ok(None),
    };
    named_form(alloc, name, found)
}

/// The form of a command with these arguments.
fn named_form<'a>(
    alloc: Global,
    name: &str,
    found: &ArgMatches<'a>,
) -> Result<Option<Form<'a>>, AllocError>
    ensures { IfOk result (λ form.
        option_map words_of form ≡ command_in name.now (rows_of (found_of found.now))) }
{
    let command = match command_named(name) {
        Some(command) => command,
        None => return Ok(None),
    };
    let arguments = match found.get_strs("argument") {
        Some(arguments) => Vec::from_slice(alloc, arguments)?,
        None => return Ok(None),
    };
    Ok(Some(Form { command, arguments }))
}
