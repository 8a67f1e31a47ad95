//! The firings of a block, one by one.

ghost use Rattle.std.specs.Prelude.{◌≡◌, IfOk, IfErr};
ghost use Rattle.pz_program.specs.Instance.{IsBlockOf};
ghost use Rattle.pz_sheet.specs.Grid.{IsOfGame, SameSize};
ghost use Rattle.pz_turn.specs.Outcome.{UnlessMemory};
ghost use Rattle.pz_trace.specs.Firings.{firings_of, stop_sequence};
ghost use Rattle.pz_trace.specs.FiringPlay.{Yields, first_spot, is_loop};
ghost use Rattle.pz_trace.specs.SourceLines.{groups_of};

use crate::block_play::{BlockPlay, Spot};
use crate::firing::{Firing, Moment};
use pz_game::game::Game;
use pz_grid::Level;
use pz_program::group::Group;
use pz_program::instance::Block;
use pz_turn::StepFault;
use std::alloc::{AllocError, Global};
use std::marker::Model;
use std::slice;

/// A block that is run to rest, firing by firing. It keeps one level beside the one that it was lent. Contracts see the level after the
/// firings so far, and those that are still to come with the stop behind them, if there is one.
pub struct Firings<'a> {
    play: BlockPlay<'a>,
    stop: Option<StepFault>,
}

/// Written out, so that dropping one is a single call everywhere.
impl Drop for Firings<'_> {
    fn drop(self) {
        let Firings {
            play: _play,
            stop: _,
        } = self;
    }
}

impl<'a> Model for Firings<'a> {
    ghost use Rattle.pz_trace.specs.FiringPlay.{Firings as FiringsState, IsPlayed, left_unless};

    ghost Value = { FiringsState };

    ghost view = { λ f. record { level = f.play.level.grid; sequence = left_unless f.stop f.play } };

    ghost invariant = { λ f. IsPlayed f.play };
}

/// Where a block begins.
fn first_spot() -> Spot
    ensures { result ≡ first_spot }
{
    Spot {
        moment: Moment {
            round: 0,
            group: 0,
            pass: 0,
            instance: 0,
        },
        pass_changed: false,
        round_changed: false,
    }
}

/// The groups of a loop, or the group alone.
fn groups_of(block: &Block) -> &[Group]
    ensures { result.now ≡ groups_of block.now }
{
    match block {
        Block::One(group) => slice::from_ref(group),
        Block::Loop(groups) => groups.items(),
    }
}

fn is_loop(block: &Block) -> bool
    ensures { result ≡ is_loop block.now }
{
    matches!(block, Block::Loop(_))
}

impl<'a> Firings<'a> {
    /// A block of a game's rules before its first firing, on a level. Err: memory was refused.
    #[tactic(auto, using(crate::proofs::Going::begins, crate::proofs::Going::groups_of_block))]
    pub fn new(
        alloc: Global,
        game: &'a Game,
        block: &'a Block,
        level: &Level,
    ) -> Result<Firings<'a>, AllocError>
        requires level_of { IsOfGame game.now level.now.grid }
        requires block_of { IsBlockOf game.now.layers block.now }
        ensures { IfOk result (λ firings. firings ≡
            record { level = level.now.grid; sequence = firings_of game.now.rules block.now level.now.grid }) }
    {
        let copy = level.copied()?;
        Ok(Firings {
            play: BlockPlay {
                alloc,
                rules: game.rules(),
                groups: groups_of(block),
                is_loop: is_loop(block),
                level: copy,
                spot: first_spot(),
            },
            stop: None,
        })
    }

    /// The level after the firings so far. After a fault it is lawful, but its contents are unspecified.
    pub fn level(&self) -> &Level
        ensures { result.now.grid ≡ self.now.level }
    {
        &self.play.level
    }

    /// The next firing, or `None` after the last. `LoopLimit` and `MatchLimit`: the block stops behind the firings so far. After a fault every
    /// later call gives it again.
    pub fn next(&mut self) -> Result<Option<Firing>, StepFault>
        ensures firing { UnlessMemory result
            (λ firing. Yields self.old.sequence firing self.new.level self.new.sequence)
            (λ fault. self.old.sequence ≡ stop_sequence fault) }
        ensures size { SameSize self.old.level self.new.level }
        ensures stays { IfErr result (λ fault. self.new.sequence ≡ stop_sequence fault) }
    {
        if let Some(fault) = self.stop {
            return Err(fault);
        }
        match self.play.advance() {
            Ok(firing) => Ok(firing),
            Err(fault) => {
                self.stop = Some(fault);
                Err(fault)
            }
        }
    }
}
