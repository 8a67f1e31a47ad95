//! A game with its rules.

ghost use Rattle.std.specs.Prelude.{◌≡◌};
ghost use Rattle.std.specs.Arc.{arc_value};
ghost use Rattle.pz_program.specs.Instance.{IsProgramOf};

use pz_game::game::Game;
use pz_program::instance::Program;
use std::marker::Model;
use std::sync::Arc;

/// A game and the program of its rules. The sessions of one source share it, and games with the same program share that.
pub struct Rulebook {
    game: Game,
    program: Arc<Program>,
}

/// Written out, so that dropping one is a single call everywhere.
impl Drop for Rulebook {
    fn drop(self) {
        let Rulebook { game, program } = self;
        drop(game);
        drop(program);
    }
}

impl Model for Rulebook {
    ghost use Rattle.std.specs.Arc.{arc_value};
    ghost use Rattle.pz_program.specs.Instance.{IsProgramOf};
    ghost use Rattle.pz_case.specs.Rulebook.{RulebookState};

    ghost Value = { RulebookState };

    ghost view = { λ r. record { game = r.game; program = arc_value r.program } };

    ghost invariant = { λ r. IsProgramOf r.game.layers (arc_value r.program) };
}

impl Rulebook {
    /// The rulebook of a game and its program.
    pub fn new(game: Game, program: Arc<Program>) -> Rulebook
        requires { IsProgramOf game.layers (arc_value program) }
        ensures { result ≡ record { game = game; program = arc_value program } }
    {
        Rulebook { game, program }
    }

    /// The game, whose rules the program is.
    pub fn game(&self) -> &Game
        ensures game { result.now ≡ self.now.game }
        ensures program_of { IsProgramOf self.now.game.layers self.now.program }
    {
        &self.game
    }

    /// The program of the game's rules.
    pub fn program(&self) -> &Program
        ensures { result.now ≡ self.now.program }
    {
        &self.program
    }
}
