//! The printed forms: values, events, the report of a run, and views.
#![tactic(auto)]

mod lines;
mod pieces;
mod printed;
mod quotes;
mod values;
mod views;

pub use fx_board::{Retries, Retry};
pub use lines::{
    add_entry_words, add_event_line, add_field, add_print_words, add_report, add_retry_words,
    printed_report, report, value_line,
};
pub use printed::{PrintedEntries, PrintedEntry, View, Viewed};
pub use views::views_text;
