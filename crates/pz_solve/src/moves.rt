//! Moves: the step of a press and the ticks of its chain.

ghost use Rattle.std.specs.Prelude.{◌≡◌, None, Some, IfOk};
ghost use Rattle.pz_program.specs.Instance.{IsProgramOf};
ghost use Rattle.pz_sheet.specs.Grid.{Grid, IsOfGame, SameSize};
ghost use Rattle.pz_session.specs.Turn.{is_idle};
ghost use Rattle.pz_turn.specs.Step.{step_of};
ghost use Rattle.pz_solve.specs.Moves.{Reached, effect, move_of, reached_by_press, reached_at_start, reached_by_tick, ticks};
ghost use Rattle.pz_solve.specs.Leading.{end_of, reached_by, reached_in, IsMoveIn, IsNextIn, MoveKeepsSize, NextKeepsSize};

use bitflags::Flags;
use pz_game::direction::Dir;
use pz_game::game::Game;
use pz_grid::Level;
use pz_program::commands::Commands;
use pz_program::instance::Program;
use pz_session::chain::MOST_TICKS;
use pz_turn::outcome::StepFault;
use pz_turn::stepping::{StepEnd, step, step_on};
use pz_turn::win::won;
use std::alloc::{AllocError, Global};

/// Where a move leads.
#[derive(Drop)]
pub enum Move {
    /// To a level in which play goes on.
    Stands(Level),
    /// To a win.
    Wins,
    /// Nowhere: its chain stops, or the level begins again.
    DeadEnd,
}

/// What comes after a step of a move.
#[derive(Drop)]
enum Next {
    /// A tick from this level.
    Tick(Level),
    /// The end of the move.
    End(Move),
}

/// Whether the end of a tick is idle: it takes no effect.
fn is_idle(end: &StepEnd) -> bool
    ensures { result ≡ is_idle (end_of end.now) }
{
    let commands = end.commands;
    commands.contains(Commands::CANCEL)
        || !(end.changed
            || (commands.contains(Commands::RESTART) || commands.contains(Commands::WIN)))
}

/// The effect of a step.
#[tactic(auto, unfolding(crate::specs::Moves::effect, crate::specs::Moves::went_on))]
fn effect(game: &Game, end: StepEnd) -> Next
    requires { IsOfGame game.now end.level.grid }
    ensures next { (tick : Grid → Reached) → reached_in tick result ≡ effect tick game.now (end_of end) }
    ensures game { IsNextIn game.now result }
    ensures size { (before : Grid) → SameSize before end.level.grid → NextKeepsSize before result }
{
    let commands = end.commands;
    if commands.contains(Commands::CANCEL) {
        return Next::End(Move::Stands(end.level));
    }
    if commands.contains(Commands::RESTART) {
        return Next::End(Move::DeadEnd);
    }
    if commands.contains(Commands::WIN) || won(game, &end.level) {
        return Next::End(Move::Wins);
    }
    if commands.contains(Commands::AGAIN) && end.changed {
        Next::Tick(end.level)
    } else {
        Next::End(Move::Stands(end.level))
    }
}

/// Plays a tick. An idle one ends the move.
fn tick(alloc: Global, game: &Game, program: &Program, level: Level) -> Result<Next, AllocError>
    requires level_of { IsOfGame game.now level.grid }
    requires program_of { IsProgramOf game.now.layers program.now }
    ensures next { IfOk result
        (λ next. (tick : Grid → Reached) →
        reached_in tick next ≡ reached_by_tick tick game.now level.grid (step_of game.now program.now level.grid None)) }
    ensures game { IfOk result (IsNextIn game.now) }
    ensures size { IfOk result (NextKeepsSize level.grid) }
{
    match step(alloc, game, program, &level, None) {
        Ok(end) => {
            if is_idle(&end) {
                Ok(Next::End(Move::Stands(level)))
            } else {
                Ok(effect(game, end))
            }
        }
        Err(StepFault::Memory) => Err(AllocError),
        Err(_) => Ok(Next::End(Move::DeadEnd)),
    }
}

/// Plays the ticks that follow, as many as a session allows.
#[tactic(auto, using(crate::proofs::Ticking::none_left, crate::proofs::Ticking::one_played))]
fn finish(alloc: Global, game: &Game, program: &Program, level: Level) -> Result<Move, AllocError>
    requires level_of { IsOfGame game.now level.grid }
    requires program_of { IsProgramOf game.now.layers program.now }
    ensures reached { IfOk result (λ end. reached_by end ≡ ticks game.now program.now MOST_TICKS level.grid) }
    ensures game { IfOk result (IsMoveIn game.now) }
    ensures size { IfOk result (MoveKeepsSize level.grid) }
{
    let mut level = level;
    let mut allowed = MOST_TICKS;
    'ticks: while allowed > 0 {
        allowed -= 1;
        match tick(alloc, game, program, level)? {
            Next::Tick(next) => level = next,
            Next::End(end) => return Ok(end),
        }
    }
    Ok(Move::DeadEnd)
}

/// Plays the step of a press, in a level that equals the one passed in.
fn press(
    alloc: Global,
    game: &Game,
    program: &Program,
    level: &Level,
    equal: Level,
    input: Dir,
) -> Result<Next, AllocError>
    requires level_of { IsOfGame game.now level.now.grid }
    requires program_of { IsProgramOf game.now.layers program.now }
    requires equal { equal.grid ≡ level.now.grid }
    ensures next { IfOk result
        (λ next. (tick : Grid → Reached) →
        reached_in tick next ≡ reached_by_press tick game.now (step_of game.now program.now level.now.grid (Some input))) }
    ensures game { IfOk result (IsNextIn game.now) }
    ensures size { IfOk result (NextKeepsSize level.now.grid) }
{
    match step_on(alloc, game, program, level, equal, input) {
        Ok(end) => Ok(effect(game, end)),
        Err(StepFault::Memory) => Err(AllocError),
        Err(_) => Ok(Next::End(Move::DeadEnd)),
    }
}

/// Plays the move of a press, in a level that equals the one passed in. Err: memory was refused.
#[tactic(auto, unfolding(crate::specs::Moves::move_of))]
pub(crate) fn play(
    alloc: Global,
    game: &Game,
    program: &Program,
    level: &Level,
    equal: Level,
    input: Dir,
) -> Result<Move, AllocError>
    requires level_of { IsOfGame game.now level.now.grid }
    requires program_of { IsProgramOf game.now.layers program.now }
    requires equal { equal.grid ≡ level.now.grid }
    ensures reached { IfOk result (λ end. reached_by end ≡ move_of game.now program.now level.now.grid input) }
    ensures game { IfOk result (IsMoveIn game.now) }
    ensures size { IfOk result (MoveKeepsSize level.now.grid) }
{
    match press(alloc, game, program, level, equal, input)? {
        Next::Tick(next) => finish(alloc, game, program, next),
        Next::End(end) => Ok(end),
    }
}

/// Plays what a session plays before its first input: in a game with `run_rules_on_level_start` the ticks of the level's start. Err: memory
/// was refused.
pub fn start(
    alloc: Global,
    game: &Game,
    program: &Program,
    level: Level,
) -> Result<Move, AllocError>
    requires level_of { IsOfGame game.now level.grid }
    requires program_of { IsProgramOf game.now.layers program.now }
    ensures reached { IfOk result (λ end. reached_by end ≡ reached_at_start game.now program.now level.grid) }
    ensures game { IfOk result (IsMoveIn game.now) }
    ensures size { IfOk result (MoveKeepsSize level.grid) }
{
    if game.options().run_rules_on_level_start {
        finish(alloc, game, program, level)
    } else {
        Ok(Move::Stands(level))
    }
}
