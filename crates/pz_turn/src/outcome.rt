//! What a run of rules gives, and why one ends early.

ghost use Rattle.std.specs.Prelude.{◌≡◌, ◌||◌, false};
ghost use Rattle.pz_program.specs.Commands.{no_commands, either};
ghost use Rattle.pz_turn.specs.declared.outcome.StepFault.TheVariants.{Memory};

use bitflags::Flags;
use pz_program::commands::{Commands, either};
use std::alloc::{AllocError, AllocFailed};

/// Why a run of rules ended early. `Memory`: memory was refused. `LoopLimit`: the last allowed pass of a group or a loop still changed
/// something. `MatchLimit`: a row has too many places, or an instance too many combinations.
#[derive(Clone, Copy, PartialEq, Eq, Debug)]
pub enum StepFault {
    Memory,
    LoopLimit,
    MatchLimit,
}

impl From<AllocError> for StepFault {
    ghost from_gives = { λ _ fault. fault ≡ Memory };

    fn from(_: AllocError) -> StepFault {
        StepFault::Memory
    }
}

impl<T: Drop> From<AllocFailed<T>> for StepFault {
    ghost from_gives = { λ _ fault. fault ≡ Memory };

    fn from(_: AllocFailed<T>) -> StepFault {
        StepFault::Memory
    }
}

/// What a run of rules gave: its commands, and whether some rewriting changed a cell. `calm`: it is known that the same run, on the level
/// that this one left, would change nothing and give no new command.
#[derive(Clone, Copy, PartialEq, Eq, Debug)]
pub struct Given {
    pub commands: Commands,
    pub changed: bool,
    pub calm: bool,
}

impl Given {
    /// What a run of nothing gives: no command and no change.
    pub(crate) fn nothing() -> Given
        ensures { result ≡ record { commands = no_commands; changed = false; calm = false } }
    {
        Given {
            commands: Commands::empty(),
            changed: false,
            calm: false,
        }
    }

    /// What two runs gave together. Whether the two are calm together is not known. (Joined without a branch.) Rule `step.commands`.
    pub(crate) fn and(self, more: Given) -> Given
        ensures { result ≡ record {
          commands = either self.commands more.commands;
          changed = self.changed || more.changed;
          calm = false;
        } }
    {
        Given {
            commands: either(self.commands, more.commands),
            changed: self.changed | more.changed,
            calm: false,
        }
    }
}
