//! The stages of a step, one by one.

ghost use Rattle.std.specs.Prelude.{◌≡◌, IfOk, IfErr};
ghost use Rattle.pz_program.specs.Instance.{IsProgramOf};
ghost use Rattle.pz_sheet.specs.Grid.{IsOfGame, SameSize};
ghost use Rattle.pz_turn.specs.Outcome.{UnlessMemory};
ghost use Rattle.pz_trace.specs.Stages.{stages_of};

use crate::play::{Phase, Play};
use crate::stage::Stage;
use bitflags::Flags;
use pz_game::direction::Dir;
use pz_game::game::Game;
use pz_grid::Level;
use pz_program::commands::Commands;
use pz_program::instance::Program;
use pz_turn::StepFault;
use std::alloc::{AllocError, Global};
use std::marker::Model;

/// A step that is played stage by stage. It keeps one level beside the one that it was lent. Contracts see the level that the step began
/// with, the level after the stages so far, and the stages that are still to come with the stop behind them, if there is one.
pub struct Tracing<'a> {
    play: Play<'a>,
}

/// Written out, so that dropping one is a single call everywhere.
impl Drop for Tracing<'_> {
    fn drop(self) {
        let Tracing { play: _play } = self;
    }
}

impl<'a> Model for Tracing<'a> {
    ghost use Rattle.pz_trace.specs.Tracing.{Traced, course_left, IsTraced};

    ghost Value = { Traced };

    ghost view = { λ t. record { grid = t.play.before.now.grid; level = t.play.level.grid; course = course_left t.play } };

    ghost invariant = { λ t. IsTraced t.play };
}

impl<'a> Tracing<'a> {
    ghost use Rattle.pz_trace.specs.Stages.{stop_course};
    ghost use Rattle.pz_trace.specs.Tracing.{Yields};

    /// A step before its first stage: a press with its direction, or a tick (`None`). Err: memory was refused.
    #[tactic(auto, unfolding(crate::specs::Stages::stages_of))]
    pub fn new(
        alloc: Global,
        game: &'a Game,
        program: &'a Program,
        level: &'a Level,
        input: Option<Dir>,
    ) -> Result<Tracing<'a>, AllocError>
        requires level_of { IsOfGame game.now level.now.grid }
        requires program_of { IsProgramOf game.now.layers program.now }
        ensures { IfOk result (λ tracing. tracing ≡ record {
          grid = level.now.grid;
          level = level.now.grid;
          course = stages_of game.now program.now level.now.grid input;
        }) }
    {
        let copy = level.copied()?;
        Ok(Tracing {
            play: Play {
                alloc,
                game,
                program,
                before: level,
                input,
                level: copy,
                commands: Commands::empty(),
                phase: Phase::Input,
            },
        })
    }

    /// The level after the stages so far. After a fault it is lawful, but its contents are unspecified.
    pub fn level(&self) -> &Level
        ensures level { result.now.grid ≡ self.now.level }
        ensures size { SameSize self.now.grid self.now.level }
    {
        &self.play.level
    }

    /// The next stage, or `None` after the end. `LoopLimit` and `MatchLimit`: the step stops behind the stages so far. After a fault every
    /// later call gives it again. Rule `stages.stop`.
    pub fn next(&mut self) -> Result<Option<Stage>, StepFault>
        ensures stage { UnlessMemory result
            (λ stage. Yields self.old.course stage self.new.level self.new.course)
            (λ fault. self.old.course ≡ stop_course fault) }
        ensures grid { self.new.grid ≡ self.old.grid }
        ensures stays { IfErr result (λ fault. self.new.course ≡ stop_course fault) }
    {
        match self.play.advance() {
            Ok(stage) => Ok(stage),
            Err(fault) => {
                self.play.phase = Phase::Stopped(fault);
                Err(fault)
            }
        }
    }
}
