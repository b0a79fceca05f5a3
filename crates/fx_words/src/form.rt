//! The commands of the program, and how many arguments each takes.
ghost use Rattle.std.specs.Prelude.{◌≡◌, ◌+◌, ◌≤◌};
ghost use Rattle.fx_words.specs.Forms as forms;
ghost use Rattle.fx_words.specs.Forms.{least_of, most_of};

use fx_base::SHELL_LIMIT;
use std::ops::RangeInclusive;

/// The most scripts that a command takes.
const SCRIPT_LIMIT: usize = SHELL_LIMIT as usize;

/// A command of the program.
#[derive(Debug, Clone, Copy)]
pub(crate) enum CommandName {
    Run,
    Trace,
    Show,
    Gen,
    Large,
    Audit,
    Watch,
    Journal,
    Recover,
    Views,
}

/// A command that the words name, with its arguments as they stand there.
#[derive(Drop)]
pub(crate) struct Form<'a> {
    pub command: CommandName,
    pub arguments: Vec<&'a str>,
}

/// Every command.
pub(crate) const COMMANDS: [CommandName; 10] = [
    CommandName::Run,
    CommandName::Trace,
    CommandName::Show,
    CommandName::Gen,
    CommandName::Large,
    CommandName::Audit,
    CommandName::Watch,
    CommandName::Journal,
    CommandName::Recover,
    CommandName::Views,
];

impl CommandName {
    /// The word that names the command.
    pub(crate) fn word(self) -> &'static str
        ensures { result.now ≡ forms.word_of self }
    {
        match self {
            CommandName::Run => "run",
            CommandName::Trace => "trace",
            CommandName::Show => "show",
            CommandName::Gen => "gen",
            CommandName::Large => "large",
            CommandName::Audit => "audit",
            CommandName::Watch => "watch",
            CommandName::Journal => "journal",
            CommandName::Recover => "recover",
            CommandName::Views => "views",
        }
    }

    /// How many arguments the command takes: some texts, and then scripts.
    pub(crate) fn argument_count(self) -> RangeInclusive<usize>
        ensures least { result.start ≡ least_of self }
        ensures most { result.end ≡ most_of self }
    {
        match self {
            CommandName::Show | CommandName::Gen | CommandName::Large => 2..=2,
            CommandName::Run | CommandName::Audit => 4..=3 + SCRIPT_LIMIT,
            CommandName::Trace | CommandName::Watch | CommandName::Recover => 5..=4 + SCRIPT_LIMIT,
            CommandName::Views => 5..=3 + SCRIPT_LIMIT,
            CommandName::Journal => 6..=5 + SCRIPT_LIMIT,
        }
    }
}
