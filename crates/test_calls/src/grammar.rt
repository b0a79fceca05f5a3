//! Tokens, expressions, shapes, descriptions and scripts.

use fx_base::{NoMemory, SOURCE_LIMIT, TXN_LIMIT};
use fx_command::{Message, SourceFault, Status, TextFault, description_of, script_of};
use fx_lex::{LexFault, Spanned, Token, Tokens, lex};
use fx_outside::{HostText, Words};
use fx_parse::{ParseFault, parse_expr, parse_shape};
use std::alloc::Global;
use std::fmt::Write;
use test_lines::{add_bytes, tell, unescaped};

/// What a text is read as.
#[derive(Clone, Copy)]
pub enum Form {
    Tokens,
    /// A number of tokens and the length of the text.
    Count,
    /// The expression at this token, at this level.
    Expr(u32, u32),
    Shape,
}

/// The tokens of a text; none where it is too large.
fn tokens_of(alloc: Global, bytes: &[u8]) -> Result<Tokens, LexFault> {
    let short = bytes.len() <= SOURCE_LIMIT;
    if short {
        lex(alloc, bytes)
    } else {
        Err(LexFault::NoMemory)
    }
}

fn add_token(out: &mut String, token: &Token) -> Result<(), NoMemory> {
    match token {
        Token::Word(word) => {
            out.push_str("word ")?;
            add_bytes(out, word.as_slice())
        }
        Token::Str(text) => {
            out.push_str("string \"")?;
            add_bytes(out, text.as_slice())?;
            out.push_str("\"")?;
            Ok(())
        }
        Token::Number(n) => {
            write!(out, "number {n}")?;
            Ok(())
        }
        Token::Mark(mark) => {
            write!(out, "{mark:?}")?;
            Ok(())
        }
        Token::Def => {
            out.push_str("def")?;
            Ok(())
        }
    }
}

/// Tells a token's span, its kind and its value.
fn tell_token(out: &mut String, spanned: &Spanned) -> Result<(), NoMemory> {
    let start = spanned.start;
    let stop = spanned.stop;
    write!(out, "> {start}-{stop} ")?;
    add_token(out, &spanned.token)?;
    out.push_str("\n")?;
    Ok(())
}

fn tell_bad(out: &mut String, fault: LexFault) -> Result<(), NoMemory> {
    writeln!(out, "> {fault:?}")?;
    Ok(())
}

fn tell_tokens(tokens: &Tokens, out: &mut String) -> Result<(), NoMemory> {
    for i in 0..tokens.len() {
        if let Some(spanned) = tokens.at(i) {
            tell_token(out, spanned)?;
        }
    }
    Ok(())
}

fn tell_count(tokens: &Tokens, out: &mut String) -> Result<(), NoMemory> {
    let count = tokens.len();
    let text_len = tokens.text_len();
    writeln!(out, "> {count} in {text_len}")?;
    Ok(())
}

/// Up to which token the expression at a token goes.
fn end_of(alloc: Global, tokens: &Tokens, from: u32, depth: u32) -> Result<u32, ParseFault> {
    match parse_expr(alloc, tokens, from, depth.max(1)) {
        Ok((_, next)) => Ok(next),
        Err(fault) => Err(fault),
    }
}

fn tell_end(end: Result<u32, ParseFault>, out: &mut String) -> Result<(), NoMemory> {
    match end {
        Ok(next) => writeln!(out, "> up to {next}")?,
        Err(fault) => writeln!(out, "> {fault:?}")?,
    }
    Ok(())
}

fn tell_shape(alloc: Global, tokens: &Tokens, out: &mut String) -> Result<(), NoMemory> {
    match parse_shape(alloc, tokens, 0, 1) {
        Ok((shape, next)) => writeln!(out, "> {shape:?} up to {next}")?,
        Err(fault) => writeln!(out, "> {fault:?}")?,
    }
    Ok(())
}

fn tell_parsed(
    alloc: Global,
    form: Form,
    tokens: &Tokens,
    out: &mut String,
) -> Result<(), NoMemory> {
    match form {
        Form::Tokens => tell_tokens(tokens, out),
        Form::Count => tell_count(tokens, out),
        Form::Expr(from, depth) => tell_end(end_of(alloc, tokens, from, depth), out),
        Form::Shape => tell_shape(alloc, tokens, out),
    }
}

/// The words of a command line with one word, by which the line of a refused text names it.
fn text_words(alloc: Global) -> Result<Words, NoMemory> {
    let mut words = Words::new(alloc);
    words.add(
        alloc,
        HostText::from_string(String::from_str(alloc, "text")?),
    )?;
    Ok(words)
}

/// Adds the line on standard error of a status.
fn add_message(line: &mut String, words: &Words, status: &Status) -> Result<(), NoMemory> {
    if let Some(message) = Message::of(words, status) {
        write!(line, "{message}")?;
    }
    Ok(())
}

/// Tells the line on standard error of a refused text, behind the file.
fn tell_message(alloc: Global, status: &Status, out: &mut String) -> Result<(), NoMemory> {
    let words = text_words(alloc)?;
    let mut line = String::new(alloc);
    add_message(&mut line, &words, status)?;
    let behind = line.as_str().strip_prefix("txforest: text: ");
    tell(out, behind.unwrap_or_default())
}

/// The cause for which a text is no description, where it is none.
fn description_cause(alloc: Global, bytes: &[u8]) -> Result<Option<TextFault>, NoMemory> {
    match description_of(alloc, bytes) {
        Ok(_) => Ok(None),
        Err(SourceFault::Refused(cause)) => Ok(Some(cause)),
        Err(SourceFault::NoMemory) => Err(NoMemory),
    }
}

/// The cause for which a text is no script behind so many transactions, where it is none.
fn script_cause(alloc: Global, before: u32, bytes: &[u8]) -> Result<Option<TextFault>, NoMemory> {
    match script_of(alloc, bytes, before.min(TXN_LIMIT as u32)) {
        Ok(_) => Ok(None),
        Err(SourceFault::Refused(cause)) => Ok(Some(cause)),
        Err(SourceFault::NoMemory) => Err(NoMemory),
    }
}

/// Tells that a text is read, or the cause for which it is refused.
fn tell_cause(alloc: Global, cause: Option<TextFault>, out: &mut String) -> Result<(), NoMemory> {
    match cause {
        None => tell(out, "read"),
        Some(cause) => tell_message(alloc, &Status::TextRefused { word: 0, cause }, out),
    }
}

/// Tells what a text is read as.
pub fn tell_form(alloc: Global, form: Form, text: &str, out: &mut String) -> Result<(), NoMemory> {
    let bytes = unescaped(alloc, text)?;
    match tokens_of(alloc, &bytes) {
        Ok(tokens) => tell_parsed(alloc, form, &tokens, out),
        Err(fault) => tell_bad(out, fault),
    }
}

/// Tells whether a text is a description, or the cause for which it is refused.
pub fn tell_description(alloc: Global, text: &str, out: &mut String) -> Result<(), NoMemory> {
    let bytes = unescaped(alloc, text)?;
    let cause = description_cause(alloc, &bytes)?;
    tell_cause(alloc, cause, out)
}

/// Tells whether a text is a script behind so many transactions, or the cause for which it is refused.
pub fn tell_script(
    alloc: Global,
    before: u32,
    text: &str,
    out: &mut String,
) -> Result<(), NoMemory> {
    let bytes = unescaped(alloc, text)?;
    let cause = script_cause(alloc, before, &bytes)?;
    tell_cause(alloc, cause, out)
}
