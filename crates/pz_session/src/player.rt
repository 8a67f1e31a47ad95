//! A session in play, one item at a time.

ghost use Rattle.std.specs.Prelude.{◌≡◌, ◌≢◌, ◌<◌, ◌≤◌, ◌+◌, ◌^◌, List, OnOk, IfOk, IfErr, Err, None, MatchOption, false, true, ℕ, drop, Result, Ok};
ghost use Rattle.pz_session.specs.Player.{rank, to_come, to_follow};

use crate::board::Board;
use crate::chain::{Frame, MOST_TICKS, PlayFault, Shown, ticks_after};
use crate::place::put;
use crate::tape::Tape;
use pz_case::item::{Item, Stop, Verdict};
use pz_record::input::Input;
use std::alloc::AllocError;

/// What comes after the pending frames.
#[derive(Clone, Copy)]
pub enum Phase {
    /// The next input, or the close.
    Between,
    /// A tick. At most this many may still run.
    Ticking(u64),
    /// The close of a session that stopped.
    Stopped(Stop),
    /// Nothing: the close was handed out.
    Closed,
}

/// Makes an item of a frame. It gets the next number, and `at` is the number of inputs taken so far. Rule `play.at`.
fn numbered(next: &mut u64, taken: u64, frame: Frame) -> Item
    requires { next.old + 1 < 2 ^ 64 }
    ensures item { result ≡ Item.Frame next.old frame.kind taken frame.level_text }
    ensures after { next.new ≡ next.old + 1 }
{
    let number = *next;
    *next += 1;
    let Frame { kind, level_text } = frame;
    Item::Frame {
        number,
        kind,
        at: taken,
        level_text,
    }
}

/// A session in play. `taken` is how many inputs were taken. `first` and `second` are pending frames, and `phase` is what comes after them.
/// `number` is the number of the next frame.
pub struct Player<'a> {
    pub board: Board<'a>,
    pub inputs: Tape<'a>,
    pub taken: u64,
    pub first: Option<Frame>,
    pub second: Option<Frame>,
    pub phase: Phase,
    pub number: u64,
}

/// Written out, as for a board.
impl Drop for Player<'_> {
    fn drop(self) {
        let Player {
            board: _board,
            inputs: _,
            taken: _,
            first,
            second,
            phase: _,
            number: _,
        } = self;
        drop(first);
        drop(second);
    }
}

/// The phase after a link. If the chain is over, the board is settled.
fn phase_after(board: &mut Board<'_>, goes_on: bool, allowed: u64) -> Result<Phase, AllocError>
    ensures to_come { IfOk result (λ phase. (taken : ℕ) (inputs : List Input) →
        to_come phase taken inputs board.new
        ≡ to_follow goes_on allowed taken inputs board.old) }
    ensures rank { IfOk result (λ phase. rank phase ≤ allowed + 1) }
{
    if goes_on {
        return Ok(Phase::Ticking(allowed));
    }
    board.settle()?;
    Ok(Phase::Between)
}

impl<'a> Player<'a> {
    ghost use Rattle.pz_session.specs.Chain.{Link, GivesLink};
    ghost use Rattle.pz_session.specs.Board.{State, start_link};
    ghost use Rattle.pz_session.specs.Player.{items_left, left_with, work, rank, is_waiting};
    ghost use Rattle.pz_case.specs.Playing.{Yields};

    /// A session whose first link has been played: it shows the start.
    pub fn start(board: Board<'a>, inputs: Tape<'a>) -> Result<Player<'a>, AllocError>
        ensures left { IfOk result
            (λ player. items_left player ≡ left_with MOST_TICKS 0 0 inputs.entry (Ok (start_link board.entry))) }
        ensures number { IfOk result (λ player. player.number ≡ 0) }
    {
        let mut player = Player {
            board,
            inputs,
            taken: 0,
            first: None,
            second: None,
            phase: Phase::Between,
            number: 0,
        };
        let outcome = player.board.start();
        match player.take_link(outcome, MOST_TICKS) {
            Ok(()) => Ok(player),
            Err(fault) => Err(fault),
        }
    }

    /// Whether a link has to be played before there is an item.
    fn is_waiting(&self) -> bool
        ensures { result ≡ is_waiting self.now }
    {
        self.first.is_none()
            && self.second.is_none()
            && match self.phase {
                Phase::Between => self.taken < self.inputs.items().len() as u64,
                Phase::Ticking(_) => true,
                Phase::Stopped(_) | Phase::Closed => false,
            }
    }

    /// The next item, when no link has to be played before it.
    fn take_item(&mut self) -> Option<Item>
        requires ready { is_waiting self.old ≡ false }
        requires room { self.old.number + 1 < 2 ^ 64 }
        ensures item { Yields (items_left self.old) result
            (items_left self.new) }
        ensures number { MatchOption result (self.new.number ≡ self.old.number)
            (λ _. self.new.number ≤ self.old.number + 1) }
    {
        if let Some(frame) = self.first.take() {
            return Some(numbered(&mut self.number, self.taken, frame));
        }
        if let Some(frame) = self.second.take() {
            return Some(numbered(&mut self.number, self.taken, frame));
        }
        let close = match self.phase {
            Phase::Closed => return None,
            Phase::Stopped(stop) => Verdict::Stopped(stop),
            Phase::Between => self.board.verdict(),
            Phase::Ticking(_) => unreachable!(),
        };
        self.phase = Phase::Closed;
        Some(Item::Close(close))
    }

    /// Takes over what a link gave. At most `allowed` ticks may run after it.
    fn take_link(
        &mut self,
        outcome: Result<Shown, PlayFault>,
        allowed: u64,
    ) -> Result<(), AllocError>
        requires first { self.old.first ≡ None }
        requires second { self.old.second ≡ None }
        ensures left { OnOk result ((link : Result (Link State) Stop) → GivesLink link self.old.board outcome →
            items_left self.new
            ≡ left_with allowed self.old.number self.old.taken (drop self.old.taken self.old.inputs) link) }
        ensures stop { IfErr result (λ _. (stop : Stop) → outcome ≢ Err (PlayFault.Stopped stop)) }
        ensures rank { OnOk result (rank self.new.phase ≤ allowed + 1) }
        ensures inputs { self.new.inputs ≡ self.old.inputs }
        ensures taken { self.new.taken ≡ self.old.taken }
        ensures number { self.new.number ≡ self.old.number }
    {
        match outcome {
            Ok(
                Shown {
                    first,
                    second,
                    goes_on,
                },
            ) => {
                put(&mut self.first, first);
                put(&mut self.second, second);
                self.phase = phase_after(&mut self.board, goes_on, allowed)?;
                Ok(())
            }
            Err(fault) => match fault {
                PlayFault::Stopped(stop) => {
                    self.phase = Phase::Stopped(stop);
                    Ok(())
                }
                PlayFault::Memory => Err(AllocError),
            },
        }
    }

    /// Plays one link. Rule `play.again-limit`.
    fn advance(&mut self) -> Result<(), AllocError>
        requires { is_waiting self.old ≡ true }
        ensures left { OnOk result (items_left self.new
            ≡ items_left self.old) }
        ensures work { OnOk result (work self.new < work self.old) }
        ensures number { self.new.number ≡ self.old.number }
    {
        match self.phase {
            Phase::Between => {
                let input = self.inputs.items()[self.taken as usize];
                let outcome = self.board.begin(input);
                self.taken += 1;
                self.take_link(outcome, ticks_after(input))
            }
            Phase::Ticking(allowed) => {
                if allowed == 0 {
                    self.phase = Phase::Stopped(Stop::AgainLimit);
                    return Ok(());
                }
                let outcome = self.board.tick();
                self.take_link(outcome, allowed - 1)
            }
            Phase::Stopped(_) | Phase::Closed => unreachable!(),
        }
    }

    /// The next item, or `None` after the close. Err: memory was refused. Rule `play.stopped`.
    pub fn next(&mut self) -> Result<Option<Item>, AllocError>
        requires room { self.old.number + 1 < 2 ^ 64 }
        ensures item { IfOk result (λ answer. Yields (items_left self.old) answer
            (items_left self.new)) }
        ensures number { IfOk result
            (λ answer. MatchOption answer (self.new.number ≡ self.old.number)
            (λ _. self.new.number ≤ self.old.number + 1)) }
    {
        'links: while self.is_waiting() {
            self.advance()?;
        }
        Ok(self.take_item())
    }
}
