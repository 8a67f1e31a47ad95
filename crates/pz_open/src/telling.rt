//! The chain of an input, played and told as items.

ghost use Rattle.std.specs.Prelude.{◌≡◌, ◌+◌, ◌++◌, ◌∷◌, [], IfOk, OnOk, Ok, length, option_to_list, true};
ghost use Rattle.pz_session.specs.Chain.{GivesLink, Link, follow, shown_frames, ticks};
ghost use Rattle.pz_session.specs.Board.{State, start_link, tick_link};
ghost use Rattle.pz_case.specs.declared.item.Stop.{Stop};
ghost use Rattle.std.specs.declared.result.Result.{Result};
ghost use Rattle.pz_steps.specs.Steps.{chain_of, start_chain};
ghost use Rattle.pz_open.specs.Opened.{frame_items};
ghost use Rattle.pz_open.specs.Telling.{IsTold, chain_from};

use pz_case::item::{Item, Stop};
use pz_record::input::Input;
use pz_session::board::Board;
use pz_session::chain::{Frame, MOST_TICKS, PlayFault, Shown, ticks_after};
use std::alloc::AllocError;

/// What was told so far: the items, how many frames the session has shown with them, and how many inputs it has taken.
#[derive(Drop)]
pub struct Told {
    pub items: Vec<Item>,
    pub frames: u64,
    pub taken: u64,
}

impl Told {
    /// Tells a frame. If no `u64` holds its number, the answer is want of memory; no session has so many.
    #[tactic(auto, unfolding(pz_session::specs::Session::frames_as_items))]
    fn add(&mut self, frame: Frame) -> Result<(), AllocError>
        ensures items { OnOk result
            (self.new.items.items ≡ self.old.items.items ++ frame_items self.old.frames self.old.taken (frame ∷ [])) }
        ensures frames { OnOk result (self.new.frames ≡ self.old.frames + 1) }
        ensures taken { self.new.taken ≡ self.old.taken }
    {
        let number = self.frames;
        self.frames = number.checked_add(1).ok_or(AllocError)?;
        let Frame { kind, level_text } = frame;
        self.items.push(Item::Frame {
            number,
            kind,
            at: self.taken,
            level_text,
        })?;
        Ok(())
    }

    /// Tells a frame, if there is one.
    #[tactic(auto, unfolding(pz_session::specs::Session::frames_as_items))]
    fn add_if(&mut self, frame: Option<Frame>) -> Result<(), AllocError>
        ensures items { OnOk result
            (self.new.items.items ≡ self.old.items.items ++ frame_items self.old.frames self.old.taken
            (option_to_list frame)) }
        ensures frames { OnOk result (self.new.frames ≡ self.old.frames + length (option_to_list frame)) }
        ensures taken { self.new.taken ≡ self.old.taken }
    {
        match frame {
            Some(frame) => self.add(frame),
            None => Ok(()),
        }
    }

    /// Tells what a link shows. Whether one more tick follows it.
    #[tactic(auto, using(crate::proofs::Chains::items_append))]
    fn add_shown(&mut self, shown: Shown) -> Result<bool, AllocError>
        ensures items { OnOk result
            (self.new.items.items ≡ self.old.items.items ++ frame_items self.old.frames self.old.taken
            (shown_frames shown)) }
        ensures frames { OnOk result (self.new.frames ≡ self.old.frames + length (shown_frames shown)) }
        ensures taken { self.new.taken ≡ self.old.taken }
        ensures goes_on { IfOk result (λ goes_on. goes_on ≡ shown.goes_on) }
    {
        let Shown {
            first,
            second,
            goes_on,
        } = shown;
        self.add_if(first)?;
        self.add_if(second)?;
        Ok(goes_on)
    }
}

/// Plays the ticks that follow a link, of which at most so many may run, and tells what they show. Some: the session stops there.
fn finish(
    board: &mut Board<'_>,
    told: &mut Told,
    goes_on: bool,
    allowed: u64,
) -> Result<Option<Stop>, AllocError>
    ensures { IfOk result (λ stop. IsTold told.old (chain_from goes_on allowed board.old) told.new stop board.new) }
{
    let mut more = goes_on;
    let mut left = allowed;
    'ticks: while more {
        if left == 0 {
            return Ok(Some(Stop::AgainLimit));
        }
        left -= 1;
        match board.tick() {
            Ok(shown) => more = told.add_shown(shown)?,
            Err(PlayFault::Stopped(stop)) => return Ok(Some(stop)),
            Err(PlayFault::Memory) => return Err(AllocError),
        }
    }
    Ok(None)
}

/// Tells what a link shows, and plays what follows it.
fn follow(
    board: &mut Board<'_>,
    told: &mut Told,
    outcome: Result<Shown, PlayFault>,
    allowed: u64,
) -> Result<Option<Stop>, AllocError>
    ensures { IfOk result (λ stop. (link : Result (Link State) Stop) → GivesLink link board.old outcome →
        IsTold told.old (follow (ticks tick_link allowed) link) told.new stop board.new) }
{
    match outcome {
        Ok(shown) => {
            let goes_on = told.add_shown(shown)?;
            finish(board, told, goes_on, allowed)
        }
        Err(PlayFault::Stopped(stop)) => Ok(Some(stop)),
        Err(PlayFault::Memory) => Err(AllocError),
    }
}

/// Plays the chain of an input, and tells what it shows. Some: the session stops there.
pub(crate) fn play(
    board: &mut Board<'_>,
    told: &mut Told,
    input: Input,
) -> Result<Option<Stop>, AllocError>
    ensures { IfOk result (λ stop. IsTold told.old (chain_of input board.old) told.new stop board.new) }
{
    let outcome = board.begin(input);
    follow(board, told, outcome, ticks_after(input))
}

/// Plays the chain of a session's start. The answer is as for an input.
pub(crate) fn start(board: &mut Board<'_>, told: &mut Told) -> Result<Option<Stop>, AllocError>
    ensures { IfOk result (λ stop. IsTold told.old (start_chain board.old) told.new stop board.new) }
{
    let outcome = board.start();
    follow(board, told, outcome, MOST_TICKS)
}
