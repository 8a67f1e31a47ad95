//! The steps that a session takes at an input.

ghost use Rattle.std.specs.Prelude.{◌≡◌, [], Some, IfOk, OnOk, MatchOption, drop, slice_get};
ghost use Rattle.pz_session.specs.Board.{State};
ghost use Rattle.pz_session.specs.Case.{state_of};
ghost use Rattle.pz_steps.specs.Left.{after_link, steps_left};
ghost use Rattle.pz_steps.specs.Steps.{first_steps, later_steps, stands_behind, start_steps, steps_at, steps_from, steps_in_play};

use crate::chains::{begin, begin_session, stand, tick};
use pz_case::plan::Plan;
use pz_game::direction::Dir;
use pz_record::input::Input;
use pz_session::board::Board;
use pz_session::chain::{MOST_TICKS, ticks_after};
use std::alloc::{AllocError, Global};
use std::marker::Model;

/// Which step comes next.
#[derive(Clone, Copy)]
pub enum Next {
    /// That of a press.
    Press(Dir),
    /// That of a tick, if at least one may still run.
    Tick(u64),
    /// None.
    Nothing,
}

/// A step of a session: where the session stands before it, and the direction of a press, or none for a tick.
#[derive(Clone, Copy)]
pub struct Step<'b, 'a> {
    pub board: &'b Board<'a>,
    pub input: Option<Dir>,
}

/// The steps of an input that are still to come.
pub struct Steps<'a> {
    board: Board<'a>,
    next: Next,
}

/// Written out, as for a board.
impl Drop for Steps<'_> {
    fn drop(self) {
        let Steps {
            board: _board,
            next: _,
        } = self;
    }
}

impl<'a> Model for Steps<'a> {
    ghost use Rattle.std.specs.Prelude.{List};
    ghost use Rattle.pz_steps.specs.Steps.{Taken};
    ghost use Rattle.pz_steps.specs.Left.{steps_left};

    ghost Value = { List Taken };

    ghost view = { λ s. steps_left s.next s.board };
}

/// What comes behind a link, of whose ticks at most so many may run.
fn behind(more: Option<bool>, allowed: u64) -> Next
    ensures { (state : State) → steps_left result state ≡ after_link more allowed state }
{
    match more {
        Some(true) => Next::Tick(allowed),
        _ => Next::Nothing,
    }
}

/// No steps.
fn no_steps<'a>(board: Board<'a>) -> Steps<'a>
    ensures { result ≡ [] }
{
    Steps {
        board,
        next: Next::Nothing,
    }
}

/// The steps of an input that takes none itself: those of the ticks that follow.
fn later_steps<'a>(board: Board<'a>, input: Input) -> Result<Steps<'a>, AllocError>
    ensures { IfOk result (λ steps. steps ≡ later_steps input board.entry) }
{
    let mut board = board;
    let next = behind(begin(&mut board, input)?, ticks_after(input));
    Ok(Steps { board, next })
}

/// The steps of an input from where a session stands while a level is played.
fn steps_in_play<'a>(board: Board<'a>, input: Input) -> Result<Steps<'a>, AllocError>
    ensures { IfOk result (λ steps. steps ≡ steps_in_play input board.entry) }
{
    let next = match input {
        Input::Press(dir) => Next::Press(dir),
        Input::Tick => Next::Tick(MOST_TICKS),
        Input::Undo => return later_steps(board, input),
        Input::Restart => return later_steps(board, input),
    };
    Ok(Steps { board, next })
}

/// The steps of the first of these inputs from where a session stands.
fn first_steps<'a>(board: Board<'a>, inputs: &[Input]) -> Result<Steps<'a>, AllocError>
    ensures { IfOk result (λ steps. steps ≡ first_steps inputs.now board.entry) }
{
    match inputs {
        [input, ..] if !board.is_over() => steps_in_play(board, *input),
        _ => Ok(no_steps(board)),
    }
}

/// The steps that a session takes at its start.
#[tactic(auto, using(crate::proofs::Stepping::after_follows))]
fn start_steps<'a>(board: Board<'a>) -> Result<Steps<'a>, AllocError>
    ensures { IfOk result (λ steps. steps ≡ start_steps board.entry) }
{
    let mut board = board;
    let next = behind(begin_session(&mut board)?, MOST_TICKS);
    Ok(Steps { board, next })
}

/// The steps that a session takes at the first of these inputs, once those before it were played from its start.
fn steps_behind<'a>(
    board: Board<'a>,
    before: &[Input],
    inputs: &[Input],
) -> Result<Steps<'a>, AllocError>
    ensures { IfOk result (λ steps. steps ≡ steps_from inputs.now (stands_behind before.now board.entry)) }
{
    let mut board = board;
    if stand(&mut board, before)? {
        first_steps(board, inputs)
    } else {
        Ok(no_steps(board))
    }
}

/// A session before its start.
fn load(alloc: Global, plan: &Plan) -> Result<Board<'_>, AllocError>
    ensures { IfOk result (λ board. board ≡ state_of plan.now) }
{
    Board::load(
        alloc,
        plan.game(),
        plan.program(),
        plan.order(),
        plan.recorded(),
        plan.first(),
    )
}

/// Where a session stands once its inputs were played, or `None` if it stopped before. Err: memory was refused.
pub fn standing(alloc: Global, plan: &Plan) -> Result<Option<Board<'_>>, AllocError>
    ensures { IfOk result (λ board. board ≡ stands_behind plan.now.inputs (state_of plan.now)) }
{
    let mut board = load(alloc, plan)?;
    if stand(&mut board, plan.inputs().items())? {
        Ok(Some(board))
    } else {
        Ok(None)
    }
}

impl<'a> Steps<'a> {
    ghost use Rattle.pz_steps.specs.Steps.{taken_step};

    /// The steps that a session takes at an input, by its number from 1, or with 0 at its start. It has none if the session stopped
    /// before, or has fewer inputs. Everything before is played. Err: memory was refused. Rule `stages.steps`.
    pub fn at(alloc: Global, plan: &'a Plan, number: usize) -> Result<Steps<'a>, AllocError>
        ensures { IfOk result (λ steps. steps ≡ steps_at plan.now number) }
    {
        let board = load(alloc, plan)?;
        if number == 0 {
            return start_steps(board);
        }
        let inputs = plan.inputs().items();
        let (before, later) = inputs.split_at((number - 1).min(inputs.len()));
        steps_behind(board, before, later)
    }

    /// The step that comes next.
    #[tactic(auto, using(crate::proofs::Stepping::some_tick, crate::proofs::Stepping::no_tick))]
    pub fn next(&self) -> Option<Step<'_, 'a>>
        ensures { MatchOption result (self.now ≡ [])
            (λ step. slice_get self.now 0 ≡ Some (taken_step step.board.now step.input)) }
    {
        let input = match self.next {
            Next::Press(dir) => Some(dir),
            Next::Tick(allowed) if allowed > 0 => None,
            _ => return None,
        };
        Some(Step {
            board: &self.board,
            input,
        })
    }

    /// Plays the step that comes next, if there is one. Err: memory was refused.
    pub fn advance(&mut self) -> Result<(), AllocError>
        ensures { OnOk result (self.new ≡ drop 1 self.old) }
    {
        self.next = match self.next {
            Next::Press(dir) => {
                let input = Input::Press(dir);
                behind(begin(&mut self.board, input)?, ticks_after(input))
            }
            Next::Tick(allowed) if allowed > 0 => { behind(tick(&mut self.board)?, allowed - 1) }
            _ => Next::Nothing,
        };
        Ok(())
    }
}
