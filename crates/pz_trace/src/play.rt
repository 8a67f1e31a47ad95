//! A step in play, stage by stage.

ghost use Rattle.std.specs.Prelude.{◌≡◌, not, Err, IfOk};
ghost use Rattle.pz_game.specs.Game.{players_of};
ghost use Rattle.pz_program.specs.Commands.{either};
ghost use Rattle.pz_program.specs.Instance.{IsBlockOf};
ghost use Rattle.pz_sheet.specs.Grid.{IsOfGame, SameSize};
ghost use Rattle.pz_sheet.specs.Sameness.{same_grid};
ghost use Rattle.pz_grid.specs.Movement.{after_movement};
ghost use Rattle.pz_turn.specs.Outcome.{GivesBoth, UnlessMemory};
ghost use Rattle.pz_turn.specs.Step.{block_runs, end_of_step, given_input};

use crate::stage::{Part, Stage};
use bitflags::Flags;
use pz_game::direction::Dir;
use pz_game::game::Game;
use pz_grid::{Level, push_players, resolve};
use pz_program::commands::{Commands, either};
use pz_program::instance::{Block, Program};
use pz_turn::stepping::{must_cancel, with_cancel};
use pz_turn::{StepFault, rest, rest_loop};
use std::alloc::{AllocError, Global};

/// Gives the input to the level: a press its direction to the player, a tick none. Whether the level differs then.
fn give_input(game: &Game, level: &mut Level, before: &Level, input: Option<Dir>) -> bool
    requires level_of { IsOfGame game.now level.old.grid }
    ensures given { level.new.grid ≡ given_input (players_of game.now) input level.old.grid }
    ensures changed { result ≡ not (same_grid level.new.grid before.now.grid) }
    ensures size { SameSize level.old.grid level.new.grid }
{
    match input {
        Some(dir) => push_players(game, level, dir),
        None => {}
    }
    !level.same(before)
}

/// Moves what heads somewhere. Whether the level differs then.
fn move_all(game: &Game, level: &mut Level) -> Result<bool, AllocError>
    requires level_of { IsOfGame game.now level.old.grid }
    ensures moved { IfOk result (λ changed. level.new.grid ≡ after_movement level.old.grid) }
    ensures changed { IfOk result (λ changed. changed ≡ not (same_grid level.new.grid level.old.grid)) }
    ensures size { SameSize level.old.grid level.new.grid }
{
    let before = level.copied()?;
    resolve(game, level);
    Ok(!level.same(&before))
}

/// Runs a block to rest.
#[tactic(auto, unfolding(pz_turn::specs::Step::block_runs))]
fn run_block(
    alloc: Global,
    game: &Game,
    block: &Block,
    level: &mut Level,
) -> Result<(Commands, bool), StepFault>
    requires level_of { IsOfGame game.now level.old.grid }
    requires block_of { IsBlockOf game.now.layers block.now }
    ensures outcome { GivesBoth (block_runs block.now level.old.grid) level.new.grid result }
    ensures size { SameSize level.old.grid level.new.grid }
{
    match block {
        Block::One(group) => rest(alloc, game, group, level),
        Block::Loop(groups) => rest_loop(alloc, game, groups, level),
    }
}

/// Leaves the level that a step ends with: the one before it, if the step is cancelled. Whether it differs from the one before.
fn end_level(before: &Level, level: &mut Level, commands: Commands) -> Result<bool, AllocError>
    requires size { SameSize before.now.grid level.old.grid }
    ensures end { IfOk result
        (λ changed. end_of_step before.now.grid level.old.grid commands ≡
        record { level = level.new.grid; commands = commands; changed = changed }) }
    ensures size { SameSize before.now.grid level.new.grid }
{
    if !commands.contains(Commands::CANCEL) {
        return Ok(!level.same(before));
    }
    level.copy_from(before)?;
    Ok(false)
}

/// What comes next.
#[derive(Clone, Copy)]
pub enum Phase {
    /// The input.
    Input,
    /// The early block of this number, or the movement behind the last.
    Early(usize),
    /// The late block of this number, or the end behind the last.
    Late(usize),
    /// Nothing: the end was handed out.
    Over,
    /// Nothing: a block stopped, or memory was refused.
    Stopped(StepFault),
}

/// A step in play: the level that it began with, the level so far, the commands so far, and what comes next.
pub struct Play<'a> {
    pub alloc: Global,
    pub game: &'a Game,
    pub program: &'a Program,
    pub before: &'a Level,
    pub input: Option<Dir>,
    pub level: Level,
    pub commands: Commands,
    pub phase: Phase,
}

/// Written out, so that dropping one is a single call everywhere.
impl Drop for Play<'_> {
    fn drop(self) {
        let Play {
            alloc: _,
            game: _,
            program: _,
            before: _,
            input: _,
            level: _level,
            commands: _,
            phase: _,
        } = self;
    }
}

impl<'a> Play<'a> {
    ghost use Rattle.pz_trace.specs.Stages.{Course, Standing, going_on, with_stage_before, stop_course, movement_from, end_from};
    ghost use Rattle.pz_trace.specs.Tracing.{IsTraced, Yields, asked_in, course_left, standing_in, with_level};

    /// The stage of a part that has led to the level, given these commands and perhaps changed something. Rule `stages.commands`.
    fn stage(&mut self, part: Part, commands: Commands, changed: bool) -> Stage
        ensures stage { result ≡ record { part = part; commands = commands; changed = changed } }
        ensures commands { self.new.commands ≡ either self.old.commands commands }
        ensures before { self.new.before.now ≡ self.old.before.now }
        ensures rest { (asked_in self.new ≡ asked_in self.old) × (self.new.level.grid ≡ self.old.level.grid) ×
            (self.new.phase ≡ self.old.phase) }
    {
        self.commands = either(self.commands, commands);
        Stage {
            part,
            commands,
            changed,
        }
    }

    /// The first stage. Rule `stages.input`.
    fn input(&mut self) -> Stage
        requires phase { self.old.phase ≡ Phase.Input }
        requires traced { IsTraced self.old }
        ensures stage { course_left self.old ≡ with_stage_before (with_level result self.new.level.grid) (course_left self.new) }
        ensures before { self.new.before.now ≡ self.old.before.now }
        ensures traced { IsTraced self.new }
    {
        let changed = give_input(self.game, &mut self.level, self.before, self.input);
        self.phase = Phase::Early(0);
        self.stage(Part::Input, Commands::empty(), changed)
    }

    /// The stage of a block, after which this comes. Rules `stages.early`, `stages.late`.
    fn block(&mut self, part: Part, block: &Block, next: Phase) -> Result<Stage, StepFault>
        requires block_of { IsBlockOf self.old.game.now.layers block.now }
        requires traced { IsTraced self.old }
        ensures stage { UnlessMemory result
            (λ stage. (later : Standing → Course) →
            going_on part (standing_in self.old) later (block_runs block.now self.old.level.grid) ≡
            with_stage_before (with_level stage self.new.level.grid) (later (standing_in self.new)))
            (λ fault. block_runs block.now self.old.level.grid ≡ Err fault) }
        ensures phase { IfOk result (λ stage. self.new.phase ≡ next) }
        ensures asked { asked_in self.new ≡ asked_in self.old }
        ensures before { self.new.before.now ≡ self.old.before.now }
        ensures traced { IsTraced self.new }
    {
        let (commands, changed) = run_block(self.alloc, self.game, block, &mut self.level)?;
        self.phase = next;
        Ok(self.stage(part, commands, changed))
    }

    /// The movement's stage. Rule `stages.movement`.
    fn movement(&mut self) -> Result<Stage, AllocError>
        requires traced { IsTraced self.old }
        ensures stage { IfOk result
            (λ stage. movement_from (asked_in self.old) (standing_in self.old) ≡
            with_stage_before (with_level stage self.new.level.grid) (course_left self.new)) }
        ensures before { self.new.before.now ≡ self.old.before.now }
        ensures traced { IsTraced self.new }
    {
        let changed = move_all(self.game, &mut self.level)?;
        self.phase = Phase::Late(0);
        Ok(self.stage(Part::Movement, Commands::empty(), changed))
    }

    /// The last stage. Rule `stages.end`.
    fn end(&mut self) -> Result<Stage, AllocError>
        requires traced { IsTraced self.old }
        ensures stage { IfOk result
            (λ stage. end_from (asked_in self.old) (standing_in self.old) ≡
            with_stage_before (with_level stage self.new.level.grid) (course_left self.new)) }
        ensures before { self.new.before.now ≡ self.old.before.now }
        ensures traced { IsTraced self.new }
    {
        let cancelled = must_cancel(self.game, self.input, self.before, &self.level);
        let commands = with_cancel(cancelled, self.commands);
        let changed = end_level(self.before, &mut self.level, commands)?;
        self.phase = Phase::Over;
        Ok(Stage {
            part: Part::End,
            commands,
            changed,
        })
    }

    /// The next stage, or `None` after the end. Err: why there is none.
    pub fn advance(&mut self) -> Result<Option<Stage>, StepFault>
        requires traced { IsTraced self.old }
        ensures stage { UnlessMemory result
            (λ stage. Yields (course_left self.old) stage self.new.level.grid (course_left self.new))
            (λ fault. course_left self.old ≡ stop_course fault) }
        ensures before { self.new.before.now ≡ self.old.before.now }
        ensures traced { IsTraced self.new }
    {
        let program = self.program;
        match self.phase {
            Phase::Input => Ok(Some(self.input())),
            Phase::Early(number) => match program.early().get(number) {
                Some(block) => Ok(Some(self.block(
                    Part::Early(number),
                    block,
                    Phase::Early(number + 1),
                )?)),
                None => Ok(Some(self.movement()?)),
            },
            Phase::Late(number) => match program.late().get(number) {
                Some(block) => Ok(Some(self.block(
                    Part::Late(number),
                    block,
                    Phase::Late(number + 1),
                )?)),
                None => Ok(Some(self.end()?)),
            },
            Phase::Over => Ok(None),
            Phase::Stopped(fault) => Err(fault),
        }
    }
}
