//! How many commands there are, nested ones included.
ghost use Rattle.std.specs.Prelude.{◌≡◌, ◌<◌, ◌^◌, Some, length, slice_get};
ghost use Rattle.fx_spec.specs.CommandTree.{block, count, count_block};
ghost use Rattle.fx_spec.specs.Views.{command_tree};

use fx_spec::{Command, Commands};

/// The commands of a command, itself included.
#[cycle(number)]
pub(crate) fn number_of(command: &Command) -> u32
    requires few { count (command_tree command.now) < 2 ^ 32 }
    ensures count { result ≡ count (command_tree command.now) }
{
    match command {
        Command::Branch(_, yes, no) => 1 + number_of_all(yes) + number_of_all(no),
        Command::Each(_, _, body) => 1 + number_of_all(body),
        Command::Do(_) | Command::Attempt(_, _) | Command::Bind(_, _) | Command::Assign(_, _) => 1,
        Command::Fetch(_, _) | Command::Whole(_, _) | Command::Validate(_) => 1,
        Command::Print(_) | Command::Abort => 1,
    }
}

/// The commands of a block.
#[cycle(number)]
pub(crate) fn number_of_all(commands: &Commands) -> u32
    requires few { count_block (block commands.now) < 2 ^ 32 }
    ensures count { result ≡ count_block (block commands.now) }
{
    let mut number = 0;
    'counting: for i in 0..commands.len() {
        number += number_of(command_at(commands, i));
    }
    number
}

/// The command at a place of a block.
pub(crate) fn command_at(commands: &Commands, i: u64) -> &Command
    requires { i < length commands.now }
    ensures { slice_get commands.now i ≡ Some (command_tree result.now) }
{
    match commands.at(i) {
        Some(command) => command,
        None => unreachable!(),
    }
}
