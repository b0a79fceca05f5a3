//! The lines of cases, and what each gives.

use crate::{grammar, made, names, reports, values};
use fx_base::NoMemory;
use std::alloc::Global;
use test_lines::{Case, integer, number, split_word, tell, verb_of};

/// A call of a lower crate, with texts.
#[derive(Clone, Copy)]
enum Lower {
    Named(names::Form),
    Join,
    Compare,
    Read(grammar::Form),
    Description,
    Script,
    Level,
    Valued(values::Form),
    Minus,
    Decimal,
    Sets,
    Only,
    Match,
    Value,
}

#[derive(Clone, Copy)]
enum Verb {
    Note,
    Case,
    Lower(Lower),
    Report(reports::Form),
}

const VERBS: &[(&str, Verb)] = &[
    ("", Verb::Note),
    ("#", Verb::Note),
    ("case", Verb::Case),
    ("name", Verb::Lower(Lower::Named(names::Form::Name))),
    ("path", Verb::Lower(Lower::Named(names::Form::Path))),
    ("focus", Verb::Lower(Lower::Named(names::Form::Focus))),
    ("link", Verb::Lower(Lower::Named(names::Form::Link))),
    ("join", Verb::Lower(Lower::Join)),
    ("compare", Verb::Lower(Lower::Compare)),
    ("tokens", Verb::Lower(Lower::Read(grammar::Form::Tokens))),
    (
        "token-count",
        Verb::Lower(Lower::Read(grammar::Form::Count)),
    ),
    ("expr", Verb::Lower(Lower::Read(grammar::Form::Expr(0, 1)))),
    ("shape", Verb::Lower(Lower::Read(grammar::Form::Shape))),
    ("description", Verb::Lower(Lower::Description)),
    ("script", Verb::Lower(Lower::Script)),
    ("level", Verb::Lower(Lower::Level)),
    ("text", Verb::Lower(Lower::Valued(values::Form::Text))),
    ("size", Verb::Lower(Lower::Valued(values::Form::Size))),
    ("int", Verb::Lower(Lower::Valued(values::Form::Int))),
    ("lines", Verb::Lower(Lower::Valued(values::Form::Lines))),
    ("minus", Verb::Lower(Lower::Minus)),
    ("decimal", Verb::Lower(Lower::Decimal)),
    ("sets", Verb::Lower(Lower::Sets)),
    ("only", Verb::Lower(Lower::Only)),
    ("match", Verb::Lower(Lower::Match)),
    ("value", Verb::Lower(Lower::Value)),
    ("done", Verb::Report(reports::Form::Done)),
    ("aborted", Verb::Report(reports::Form::Aborted)),
    ("stopped", Verb::Report(reports::Form::Stopped)),
    ("retry", Verb::Report(reports::Form::Retry)),
    ("report", Verb::Report(reports::Form::Report)),
    ("look", Verb::Report(reports::Form::Look)),
    ("settled", Verb::Report(reports::Form::Settled)),
    ("conflict", Verb::Report(reports::Form::Conflict)),
    ("events", Verb::Report(reports::Form::Events)),
];

fn call_lower(alloc: Global, lower: Lower, rest: &str, out: &mut String) -> Result<(), NoMemory> {
    let (first, text) = split_word(rest);
    let (second, third) = split_word(text);
    match lower {
        Lower::Named(form) => names::tell_form(alloc, form, rest, out),
        Lower::Join => names::tell_joined(alloc, first, text, out),
        Lower::Compare => names::tell_order(alloc, first, text, out),
        Lower::Read(form) => grammar::tell_form(alloc, form, rest, out),
        Lower::Description => grammar::tell_description(alloc, rest, out),
        Lower::Script => grammar::tell_script(alloc, number(first), text, out),
        Lower::Level => {
            grammar::tell_form(
                alloc,
                grammar::Form::Expr(number(first), number(text)),
                "x",
                out,
            )
        }
        Lower::Valued(form) => values::tell_form(alloc, form, rest, out),
        Lower::Minus => values::tell_minus(
            alloc,
            integer(first),
            integer(second),
            integer(third),
            out,
        ),
        Lower::Decimal => values::tell_decimal(alloc, integer(first), integer(text), out),
        Lower::Sets => values::tell_sets(alloc, first, second, third, out),
        Lower::Only => values::tell_only(alloc, first, text, out),
        Lower::Match => values::tell_match(alloc, first, text, out),
        Lower::Value => made::tell_value(alloc, rest, out),
    }
}

fn report(
    alloc: Global,
    parts: &mut reports::Parts,
    form: reports::Form,
    rest: &str,
    out: &mut String,
) -> Result<(), NoMemory> {
    let (shell, more) = split_word(rest);
    let (second, text) = split_word(more);
    let numbers = reports::Numbers {
        shell: number(shell),
        second: number(second),
    };
    reports::tell_form(alloc, parts, form, numbers, text, out)
}

impl Case for reports::Parts {
    fn answer(&mut self, alloc: Global, line: &str, out: &mut String) -> Result<(), NoMemory> {
        let (word, rest) = split_word(line);
        match verb_of(VERBS, word) {
            None => tell(out, "no such word"),
            Some(Verb::Note) => Ok(()),
            Some(Verb::Case) => {
                *self = reports::Parts::new(alloc);
                Ok(())
            }
            Some(Verb::Lower(lower)) => call_lower(alloc, lower, rest, out),
            Some(Verb::Report(form)) => report(alloc, self, form, rest, out),
        }
    }
}
