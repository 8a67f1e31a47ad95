//! Inputs of a session, played up to the end of their chains.

ghost use Rattle.std.specs.Prelude.{◌≡◌, IfOk, Ok};
ghost use Rattle.pz_session.specs.Board.{first_link, start_link, tick_link};
ghost use Rattle.pz_steps.specs.Chains.{IsLeft, chain_after, leaving, left_by, left_of};
ghost use Rattle.pz_steps.specs.Steps.{after_inputs, chain_of, settled_after, settled_in, stands_behind, start_chain};

use pz_record::input::Input;
use pz_session::board::Board;
use pz_session::chain::{MOST_TICKS, PlayFault, Shown, ticks_after};
use std::alloc::AllocError;

/// Whether one more tick follows a link, or `None` if the session stops there.
fn goes_on(outcome: Result<Shown, PlayFault>) -> Result<Option<bool>, AllocError>
    ensures { IfOk result (λ more. IsLeft outcome more) }
{
    match outcome {
        Ok(shown) => Ok(Some(shown.goes_on)),
        Err(PlayFault::Stopped(_)) => Ok(None),
        Err(PlayFault::Memory) => Err(AllocError),
    }
}

/// Plays the first link of a session. Whether one more tick follows it; `None`: the session stops there.
pub(crate) fn begin_session(board: &mut Board<'_>) -> Result<Option<bool>, AllocError>
    ensures { IfOk result (λ more. left_of (Ok (start_link board.old)) ≡ leaving board.new more) }
{
    let shown = board.start();
    goes_on(shown)
}

/// Plays the first link of an input. The answer is as for a session.
pub(crate) fn begin(board: &mut Board<'_>, input: Input) -> Result<Option<bool>, AllocError>
    ensures { IfOk result (λ more. left_of (first_link input board.old) ≡ leaving board.new more) }
{
    let shown = board.begin(input);
    goes_on(shown)
}

/// Plays a tick. The answer is as for a session.
pub(crate) fn tick(board: &mut Board<'_>) -> Result<Option<bool>, AllocError>
    ensures { IfOk result (λ more. left_of (tick_link board.old) ≡ leaving board.new more) }
{
    let shown = board.tick();
    goes_on(shown)
}

/// Plays the ticks that follow a link, of which at most so many may run, and settles the board. False: the session stops there.
#[tactic(auto, using(crate::proofs::Stepping::chain_goes_on, crate::proofs::Stepping::chain_stops_there, crate::proofs::Stepping::chain_is_long))]
fn finish(board: &mut Board<'_>, goes_on: bool, allowed: u64) -> Result<bool, AllocError>
    ensures { IfOk result (λ whole. settled_in (chain_after goes_on allowed board.old) ≡ left_by whole board.new) }
{
    let mut more = goes_on;
    let mut left = allowed;
    'ticks: while more {
        if left == 0 {
            return Ok(false);
        }
        left -= 1;
        match tick(board)? {
            Some(again) => more = again,
            None => return Ok(false),
        }
    }
    board.settle()?;
    Ok(true)
}

/// Plays the start of a session up to the end of its chain. False: the session stops there.
#[tactic(auto, using(crate::proofs::Stepping::chain_follows, crate::proofs::Stepping::chain_stops))]
fn start(board: &mut Board<'_>) -> Result<bool, AllocError>
    ensures { IfOk result (λ whole. settled_after (start_chain board.old) ≡ left_by whole board.new) }
{
    match begin_session(board)? {
        Some(more) => finish(board, more, MOST_TICKS),
        None => Ok(false),
    }
}

/// Plays an input up to the end of its chain. False: the session stops there.
#[tactic(auto, using(crate::proofs::Stepping::chain_follows, crate::proofs::Stepping::chain_stops))]
fn play(board: &mut Board<'_>, input: Input) -> Result<bool, AllocError>
    ensures { IfOk result (λ whole. settled_after (chain_of input board.old) ≡ left_by whole board.new) }
{
    match begin(board, input)? {
        Some(more) => finish(board, more, ticks_after(input)),
        None => Ok(false),
    }
}

/// Plays inputs. False: the session stops at one of them.
fn play_all(board: &mut Board<'_>, inputs: &[Input]) -> Result<bool, AllocError>
    ensures { IfOk result (λ whole. after_inputs inputs.now board.old ≡ left_by whole board.new) }
{
    for input in inputs {
        if !play(board, *input)? {
            return Ok(false);
        }
    }
    Ok(true)
}

/// Plays the start of a session and then inputs. False: the session stops before.
pub(crate) fn stand(board: &mut Board<'_>, inputs: &[Input]) -> Result<bool, AllocError>
    ensures { IfOk result (λ whole. stands_behind inputs.now board.old ≡ left_by whole board.new) }
{
    if start(board)? {
        play_all(board, inputs)
    } else {
        Ok(false)
    }
}
