//! What is read of a source.

ghost use Rattle.std.specs.Prelude.{◌≡◌, IfOk, option_copied};
ghost use Rattle.pz_rules.specs.Drafts.{program_of};
ghost use Rattle.pz_describe.specs.Description.{reading_of, reading_with_rules, unexpanded_reading_of};
ghost use Rattle.pz_describe.specs.Sections.{game_in};

use pz_base::fault::{Code, SourceFault};
use pz_game::game::Game;
use pz_program::instance::Program;
use pz_rules::expanding::expand;
use pz_source::read_game;
use std::alloc::{AllocError, Global};

/// What is read of a source: nothing before its first fault, a game whose rules are left as they are, a game whose rules have a fault, or a game and
/// its program.
#[derive(Drop)]
pub(crate) enum Reading {
    Refused(SourceFault),
    Unexpanded(Game),
    Unruled(Game, SourceFault),
    Whole(Game, Program),
}

impl Reading {
    /// The game of the source, if it is one.
    pub fn game(&self) -> Option<&Game>
        ensures { option_copied result ≡ game_in self.now }
    {
        match self {
            Reading::Refused(_) => None,
            Reading::Unexpanded(game) | Reading::Unruled(game, _) | Reading::Whole(game, _) => {
                Some(game)
            }
        }
    }
}

/// What is read of a game.
fn ruled(alloc: Global, game: Game) -> Result<Reading, AllocError>
    ensures { IfOk result (λ reading. reading ≡ reading_with_rules game (program_of game)) }
{
    match expand(alloc, &game) {
        Ok(program) => Ok(Reading::Whole(game, program)),
        Err(fault) if fault.code == Code::Memory => Err(AllocError),
        Err(fault) => Ok(Reading::Unruled(game, fault)),
    }
}

/// Reads a source.
pub(crate) fn read(alloc: Global, source: &str) -> Result<Reading, AllocError>
    ensures { IfOk result (λ reading. reading ≡ reading_of source.now) }
{
    match read_game(alloc, source) {
        Ok(game) => ruled(alloc, game),
        Err(fault) if fault.code == Code::Memory => Err(AllocError),
        Err(fault) => Ok(Reading::Refused(fault)),
    }
}

/// Reads a source, and expands none of its rules.
pub(crate) fn read_unexpanded(alloc: Global, source: &str) -> Result<Reading, AllocError>
    ensures { IfOk result (λ reading. reading ≡ unexpanded_reading_of source.now) }
{
    match read_game(alloc, source) {
        Ok(game) => Ok(Reading::Unexpanded(game)),
        Err(fault) if fault.code == Code::Memory => Err(AllocError),
        Err(fault) => Ok(Reading::Refused(fault)),
    }
}
