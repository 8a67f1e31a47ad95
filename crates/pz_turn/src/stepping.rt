//! A step: the press, the early blocks, the movement, the late blocks.

ghost use Rattle.std.specs.Prelude.{◌≡◌, ◌≢◌, ◌<◌, IfOk, IfErr, Ok, Err, Some, length};
ghost use Rattle.std.specs.List.{list_any, list_all, zip};
ghost use Rattle.pz_game.specs.Game.{players_of};
ghost use Rattle.pz_program.specs.Instance.{IsBlockOf, IsProgramOf};
ghost use Rattle.pz_sheet.specs.Grid.{IsLawful, IsOfGame, SameSize};
ghost use Rattle.pz_sheet.specs.Presence.{holds_one, cell_of};
ghost use Rattle.pz_turn.specs.Outcome.{GivesOutcome};
ghost use Rattle.pz_turn.specs.Step.{block_runs, blocks_run, rules_run, given_input, keeps_player, has_stayed, must_cancel, with_cancel, end_of_step, step_of};
ghost use Rattle.pz_turn.specs.declared.outcome.StepFault.TheVariants.{Memory};

use crate::group::rest_group;
use crate::outcome::{Given, StepFault};
use crate::resting::{Runnable, pass, to_rest};
use bitflags::Flags;
use pz_game::direction::Dir;
use pz_game::game::Game;
use pz_grid::{Level, push_players, resolve};
use pz_program::commands::Commands;
use pz_program::instance::{Block, Program};
use std::alloc::{AllocError, Global};

/// How a step ends: the level after it, the commands that it gave, and whether that level differs from the one before.
#[derive(Drop)]
pub struct StepEnd {
    pub level: Level,
    pub commands: Commands,
    pub changed: bool,
}

impl Runnable for Block {
    type Whole = ();

    ghost is_of = { λ layers whole block. IsBlockOf layers block };

    ghost runs = { λ whole block. block_runs block };

    /// Runs a group or a loop of groups to rest.
    #[tactic(auto, unfolding(crate::specs::Step::block_runs))]
    fn run(&self, whole: &(), alloc: Global, level: &mut Level) -> Result<Given, StepFault> {
        match self {
            Block::One(group) => rest_group(alloc, level, group),
            Block::Loop(groups) => to_rest(alloc, level, whole, groups.items()),
        }
    }
}

/// Runs the early blocks, the movement and the late blocks. Rule `step.order`.
#[tactic(auto, unfolding(crate::specs::Step::blocks_run, crate::specs::Step::rules_run))]
fn run_rules(
    alloc: Global,
    game: &Game,
    level: &mut Level,
    program: &Program,
) -> Result<Given, StepFault>
    requires level_of { IsOfGame game.now level.old.grid }
    requires program_of { IsProgramOf level.old.grid.layers program.now }
    ensures outcome { GivesOutcome (rules_run program.now level.old.grid) level.new.grid result }
    ensures size { SameSize level.old.grid level.new.grid }
{
    let early = pass(alloc, level, &(), program.early())?;
    resolve(game, level);
    let late = pass(alloc, level, &(), program.late())?;
    Ok(early.and(late))
}

/// A copy of the level, in the memory of a spare one.
fn renewed(level: &Level, spare: Level) -> Result<Level, AllocError>
    ensures { IfOk result (λ copy. copy.grid ≡ level.now.grid) }
{
    let mut copy = spare;
    copy.copy_from(level)?;
    Ok(copy)
}

/// A copy of the level, in the memory of a spare one if there is one.
fn copy_in(level: &Level, spare: Option<Level>) -> Result<Level, AllocError>
    ensures { IfOk result (λ copy. copy.grid ≡ level.now.grid) }
{
    match spare {
        Some(spare) => renewed(level, spare),
        None => level.copied(),
    }
}

/// A copy of the level, in which a press has given its direction to the player.
fn with_input(
    game: &Game,
    level: &Level,
    spare: Option<Level>,
    input: Option<Dir>,
) -> Result<Level, AllocError>
    requires level_of { IsOfGame game.now level.now.grid }
    ensures given { IfOk result (λ copy. copy.grid ≡ given_input (players_of game.now) input level.now.grid) }
    ensures size { IfOk result (λ copy. SameSize level.now.grid copy.grid) }
{
    let mut copy = copy_in(level, spare)?;
    match input {
        Some(dir) => push_players(game, &mut copy, dir),
        None => {}
    }
    Ok(copy)
}

fn some_player(players: &[usize], level: &Level) -> bool
    ensures { result ≡ list_any (holds_one players.now) level.now.grid.cells }
{
    for index in 0..level.cell_count() {
        if level.holds_one(index, players) {
            return true;
        }
    }
    false
}

fn keeps_player(players: &[usize], before: &Level, after: &Level, index: usize) -> bool
    requires before_in { index < length before.now.grid.cells }
    requires after_in { index < length after.now.grid.cells }
    ensures { result ≡ keeps_player players.now (cell_of before.now.grid index, cell_of after.now.grid index) }
{
    !before.holds_one(index, players) || after.holds_one(index, players)
}

fn all_keep_players(players: &[usize], before: &Level, after: &Level) -> bool
    ensures { result ≡ list_all (keeps_player players.now) (zip before.now.grid.cells after.now.grid.cells) }
{
    for index in 0..before.cell_count().min(after.cell_count()) {
        if !keeps_player(players, before, after, index) {
            return false;
        }
    }
    true
}

fn has_stayed(players: &[usize], before: &Level, after: &Level) -> bool
    ensures { result ≡ has_stayed players.now before.now.grid after.now.grid }
{
    some_player(players, before) && all_keep_players(players, before, after)
}

/// Whether `require_player_movement` cancels a step: a press had to move the player, and hasn't. Rule `step.player-moves`.
pub fn must_cancel(game: &Game, input: Option<Dir>, before: &Level, after: &Level) -> bool
    ensures { result ≡ must_cancel game.now input before.now.grid after.now.grid }
{
    game.options().require_player_movement
        && (input.is_some() && has_stayed(game.players(), before, after))
}

/// The commands of a step, with `cancel` if the step is cancelled though no rule gave it.
pub fn with_cancel(cancelled: bool, commands: Commands) -> Commands
    ensures { result ≡ with_cancel cancelled commands }
{
    if cancelled {
        let mut all = commands;
        all.insert(Commands::CANCEL);
        all
    } else {
        commands
    }
}

/// How a step ends that leads from one level to another. A cancelled step ends with the level before it. Rule `play.cancel`.
fn end_of(before: &Level, after: Level, commands: Commands) -> Result<StepEnd, AllocError>
    requires size { SameSize before.now.grid after.grid }
    ensures end { IfOk result
        (λ end. end_of_step before.now.grid after.grid commands ≡
        record { level = end.level.grid; commands = end.commands; changed = end.changed }) }
    ensures size { IfOk result (λ end. SameSize before.now.grid end.level.grid) }
    ensures lawful { IfOk result (λ end. IsLawful end.level.grid) }
{
    // (brings the proof the law of both levels)
    let _ = (before.width(), after.width());
    if commands.contains(Commands::CANCEL) {
        let level = renewed(before, after)?;
        return Ok(StepEnd {
            level,
            commands,
            changed: false,
        });
    }
    let changed = !after.same(before);
    Ok(StepEnd {
        level: after,
        commands,
        changed,
    })
}

/// Plays a step from a level. `pressed` is a copy of it to play in, in which a press has given its direction to the player already.
fn step_pressed(
    alloc: Global,
    game: &Game,
    program: &Program,
    level: &Level,
    pressed: Level,
    input: Option<Dir>,
) -> Result<StepEnd, StepFault>
    requires level_of { IsOfGame game.now level.now.grid }
    requires program_of { IsProgramOf game.now.layers program.now }
    requires given { pressed.grid ≡ given_input (players_of game.now) input level.now.grid }
    requires size { SameSize level.now.grid pressed.grid }
    ensures end { IfOk result
        (λ end. step_of game.now program.now level.now.grid input ≡
        Ok (record { level = end.level.grid; commands = end.commands; changed = end.changed })) }
    ensures size { IfOk result (λ end. SameSize level.now.grid end.level.grid) }
    ensures lawful { IfOk result (λ end. IsLawful end.level.grid) }
    ensures fault { IfErr result
        (λ fault. fault ≢ Memory → step_of game.now program.now level.now.grid input ≡ Err fault) }
{
    let mut work = pressed;
    let given = run_rules(alloc, game, &mut work, program)?;
    let cancelled = must_cancel(game, input, level, &work);
    let end = end_of(level, work, with_cancel(cancelled, given.commands))?;
    Ok(end)
}

/// Plays a step as `step` does, in the memory of a spare level if there is one. What the spare level held is lost. Rule `step.stop`.
pub fn step_in(
    alloc: Global,
    game: &Game,
    program: &Program,
    level: &Level,
    spare: Option<Level>,
    input: Option<Dir>,
) -> Result<StepEnd, StepFault>
    requires level_of { IsOfGame game.now level.now.grid }
    requires program_of { IsProgramOf game.now.layers program.now }
    ensures end { IfOk result
        (λ end. step_of game.now program.now level.now.grid input ≡
        Ok (record { level = end.level.grid; commands = end.commands; changed = end.changed })) }
    ensures size { IfOk result (λ end. SameSize level.now.grid end.level.grid) }
    ensures lawful { IfOk result (λ end. IsLawful end.level.grid) }
    ensures fault { IfErr result
        (λ fault. fault ≢ Memory → step_of game.now program.now level.now.grid input ≡ Err fault) }
{
    let pressed = with_input(game, level, spare, input)?;
    step_pressed(alloc, game, program, level, pressed, input)
}

/// Plays the step of a press as `step` does, in a copy of the level.
pub fn step_on(
    alloc: Global,
    game: &Game,
    program: &Program,
    level: &Level,
    copy: Level,
    press: Dir,
) -> Result<StepEnd, StepFault>
    requires level_of { IsOfGame game.now level.now.grid }
    requires program_of { IsProgramOf game.now.layers program.now }
    requires copy { copy.grid ≡ level.now.grid }
    ensures end { IfOk result
        (λ end. step_of game.now program.now level.now.grid (Some press) ≡
        Ok (record { level = end.level.grid; commands = end.commands; changed = end.changed })) }
    ensures size { IfOk result (λ end. SameSize level.now.grid end.level.grid) }
    ensures lawful { IfOk result (λ end. IsLawful end.level.grid) }
    ensures fault { IfErr result
        (λ fault. fault ≢ Memory → step_of game.now program.now level.now.grid (Some press) ≡ Err fault) }
{
    let mut pressed = copy;
    push_players(game, &mut pressed, press);
    step_pressed(alloc, game, program, level, pressed, Some(press))
}

/// Plays a step of a game from a level: a press with its direction, or a tick (`None`). The level passed in is never changed. If a rule
/// gives `cancel`, or the player had to move and hasn't, the step ends with a copy of that level and `changed` is false. `LoopLimit` and
/// `MatchLimit`: a block stopped so, even after `cancel` was given.
pub fn step(
    alloc: Global,
    game: &Game,
    program: &Program,
    level: &Level,
    input: Option<Dir>,
) -> Result<StepEnd, StepFault>
    requires level_of { IsOfGame game.now level.now.grid }
    requires program_of { IsProgramOf game.now.layers program.now }
    ensures end { IfOk result
        (λ end. step_of game.now program.now level.now.grid input ≡
        Ok (record { level = end.level.grid; commands = end.commands; changed = end.changed })) }
    ensures size { IfOk result (λ end. SameSize level.now.grid end.level.grid) }
    ensures lawful { IfOk result (λ end. IsLawful end.level.grid) }
    ensures fault { IfErr result
        (λ fault. fault ≢ Memory → step_of game.now program.now level.now.grid input ≡ Err fault) }
{
    step_in(alloc, game, program, level, None, input)
}
