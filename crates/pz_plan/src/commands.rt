//! The commands of a rule, as a set.

ghost use Rattle.std.specs.Prelude.{◌≡◌};
ghost use Rattle.pz_plan.specs.Commands.{flag_of, commands_given};

use bitflags::Flags;
use pz_grammar::token::Command;
use pz_program::commands::{Commands, either};

/// The set of one command; sounds and messages have no effect.
fn flag_of(command: Command) -> Commands
    ensures { result ≡ flag_of command }
{
    match command {
        Command::Again => Commands::AGAIN,
        Command::Cancel => Commands::CANCEL,
        Command::Checkpoint => Commands::CHECKPOINT,
        Command::Restart => Commands::RESTART,
        Command::Win => Commands::WIN,
        Command::Sound(_) | Command::Message => Commands::empty(),
    }
}

/// The commands of a list. Rule `rules.commands`.
#[tactic(auto, unfolding(crate::specs::Commands::commands_given))]
pub fn commands_given(commands: &[Command]) -> Commands
    ensures { result ≡ commands_given commands.now }
{
    let mut given = Commands::empty();
    for command in commands {
        given = either(given, flag_of(*command));
    }
    given
}
