//! What a session makes of a step.

ghost use Rattle.std.specs.Prelude.{◌≡◌};
ghost use Rattle.pz_session.specs.Turn.{is_idle};

use crate::chain::PlayFault;
use bitflags::Flags;
use pz_case::item::Stop;
use pz_program::commands::Commands;
use pz_turn::outcome::StepFault;
use pz_turn::stepping::StepEnd;

impl From<StepFault> for PlayFault {
    ghost use Rattle.std.specs.Prelude.{◌≡◌};
    ghost use Rattle.pz_session.specs.Turn.{fault_of};

    ghost from_gives = { λ fault play. play ≡ fault_of fault };

    fn from(fault: StepFault) -> PlayFault {
        match fault {
            StepFault::Memory => PlayFault::Memory,
            StepFault::LoopLimit => PlayFault::Stopped(Stop::LoopLimit),
            StepFault::MatchLimit => PlayFault::Stopped(Stop::MatchLimit),
        }
    }
}

/// Whether the end of a tick is idle: it shows nothing and takes no effect. Rule `play.idle`.
pub(crate) fn is_idle(end: &StepEnd) -> bool
    ensures { result ≡ is_idle
        (record { level = end.now.level.grid; commands = end.now.commands; changed = end.now.changed }) }
{
    let commands = end.commands;
    commands.contains(Commands::CANCEL)
        || !(end.changed
            || (commands.contains(Commands::RESTART) || commands.contains(Commands::WIN)))
}
