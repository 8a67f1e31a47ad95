//! The programs that games share.

ghost use Rattle.std.specs.Prelude.{◌≡◌, Ok, IfSome};
ghost use Rattle.std.specs.Arc.{arc_value};
ghost use Rattle.pz_rules.specs.Drafts.{program_of};
ghost use Rattle.pz_job.specs.Rulebooks.{IsProgramFor};

use crate::same::same_rules;
use pz_case::rulebook::Rulebook;
use pz_game::game::Game;
use pz_program::instance::Program;
use std::alloc::{AllocError, Global};
use std::sync::Arc;

/// A game is compared with so many of the newest games.
const NEWEST: usize = 16;

/// A game that was expanded, with its program.
#[derive(Drop)]
struct Expanded {
    rulebook: Arc<Rulebook>,
    program: Arc<Program>,
    ghost made: { program_of (arc_value rulebook).game ≡ Ok (arc_value program) },
    ghost same: { (arc_value rulebook).program ≡ arc_value program },
}

impl Expanded {
    /// The program, if a game has the same rules.
    fn program_for(&self, game: &Game) -> Option<&Arc<Program>>
        ensures { IfSome result (λ program. IsProgramFor game.now (arc_value program.now)) }
    {
        if same_rules(self.rulebook.game(), game) {
            Some(&self.program)
        } else {
            None
        }
    }
}

/// The games that were expanded. Games with the same rules, such as those of a suite, share one program.
#[derive(Drop)]
pub(crate) struct Programs {
    expanded: Vec<Expanded>,
}

impl Programs {
    pub fn new(alloc: Global) -> Programs {
        Programs {
            expanded: Vec::new(alloc),
        }
    }

    /// The program of a game that has the same rules as one of the newest.
    pub fn program_for(&self, game: &Game) -> Option<&Arc<Program>>
        ensures { IfSome result (λ program. IsProgramFor game.now (arc_value program.now)) }
    {
        for expanded in self.expanded.iter().rev().take(NEWEST) {
            if let Some(program) = expanded.program_for(game) {
                return Some(program);
            }
        }
        None
    }

    /// Keeps a game that was expanded, with its program.
    pub fn keep(
        &mut self,
        rulebook: &Arc<Rulebook>,
        program: Arc<Program>,
    ) -> Result<(), AllocError>
        requires made { program_of (arc_value rulebook.now).game ≡ Ok (arc_value program) }
        requires same { (arc_value rulebook.now).program ≡ arc_value program }
    {
        let rulebook = Arc::try_clone(rulebook)?;
        self.expanded.push(Expanded { rulebook, program })?;
        Ok(())
    }
}
