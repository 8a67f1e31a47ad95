//! Where a session that is kept open stands, and how an input leads on.

ghost use Rattle.std.specs.Prelude.{◌≡◌, ◌+◌, ◌++◌, ◌∷◌, [], List, None, IfOk, length};
ghost use Rattle.pz_record.specs.declared.input.Input.{Input};
ghost use Rattle.pz_case.specs.Plan.{PlanState};
ghost use Rattle.pz_open.specs.Opened.{ComesWith, StandsAt, items_with};
ghost use Rattle.pz_open.specs.Places.{CanGoOn, IsEnded, IsLed, IsPlace, IsStood, frames_at};

use crate::telling::{Told, play, start};
use pz_case::item::{Item, Stop, Verdict};
use pz_case::plan::Plan;
use pz_record::input::Input;
use pz_session::board::Board;
use pz_session::standing::Standing;
use std::alloc::{AllocError, Global};

/// Where a session stands behind some inputs, and how many frames it has shown by then.
#[derive(Drop)]
pub enum Place {
    /// Between two inputs.
    At(Standing, u64),
    /// It has stopped.
    Stopped(Stop, u64),
}

/// A place, and the items that came with the input that led there.
#[derive(Drop)]
pub struct Moved {
    pub place: Place,
    pub items: Vec<Item>,
}

impl Place {
    /// How many frames the session has shown.
    pub fn frames(&self) -> u64
        ensures { result ≡ frames_at self.now }
    {
        match self {
            Place::At(_, frames) | Place::Stopped(_, frames) => *frames,
        }
    }

    /// A copy. Err: memory was refused.
    pub fn copy(&self) -> Result<Place, AllocError>
        ensures { IfOk result (λ place. place ≡ self.now) }
    {
        Ok(match self {
            Place::At(standing, frames) => Place::At(standing.copy()?, *frames),
            Place::Stopped(stop, frames) => Place::Stopped(*stop, *frames),
        })
    }
}

/// Tells the close behind a chain. The place is where the chain led.
fn ended(board: Board<'_>, told: Told, stop: Option<Stop>) -> Result<Moved, AllocError>
    ensures { IfOk result (IsEnded told stop board.entry) }
{
    let Told {
        items,
        frames,
        taken: _,
    } = told;
    let mut items = items;
    if let Some(stop) = stop {
        items.push(Item::Close(Verdict::Stopped(stop)))?;
        return Ok(Moved {
            place: Place::Stopped(stop, frames),
            items,
        });
    }
    let mut board = board;
    board.settle()?;
    items.push(Item::Close(board.verdict()))?;
    Ok(Moved {
        place: Place::At(board.leave(), frames),
        items,
    })
}

/// Starts a session. Its items are those of the session without inputs. Err: memory was refused.
pub fn begin(alloc: Global, plan: &Plan) -> Result<Moved, AllocError>
    ensures place { IfOk result (λ moved. IsPlace plan.now [] moved.place) }
    ensures go_on { IfOk result (λ moved. CanGoOn plan.now moved.place) }
    ensures items { IfOk result (λ moved. moved.items.items ≡ items_with plan.now []) }
{
    let board = Board::load(
        alloc,
        plan.game(),
        plan.program(),
        plan.order(),
        plan.recorded(),
        plan.first(),
    )?;
    let mut board = board;
    let mut told = Told {
        items: Vec::new(alloc),
        frames: 0,
        taken: 0,
    };
    let stop = start(&mut board, &mut told)?;
    ended(board, told, stop)
}

/// Goes on from a place by an input, the one of this number. A session that has stopped stays where it is. Err: memory was refused.
pub fn go_on(
    alloc: Global,
    plan: &Plan,
    place: Place,
    taken: u64,
    input: Input,
) -> Result<Moved, AllocError>
    requires { CanGoOn plan.now place }
    ensures go_on { IfOk result (λ moved. CanGoOn plan.now moved.place) }
    ensures place { IfOk result
        (λ moved. (inputs : List Input) → taken ≡ length inputs + 1 → IsPlace plan.now inputs place →
        IsPlace plan.now (inputs ++ input ∷ []) moved.place) }
    ensures items { IfOk result
        (λ moved. (inputs : List Input) → taken ≡ length inputs + 1 → IsPlace plan.now inputs place →
        ComesWith plan.now inputs input moved.items.items) }
{
    let mut told = Told {
        items: Vec::new(alloc),
        frames: 0,
        taken,
    };
    match place {
        Place::Stopped(stop, frames) => {
            told.items.push(Item::Close(Verdict::Stopped(stop)))?;
            Ok(Moved {
                place: Place::Stopped(stop, frames),
                items: told.items,
            })
        }
        Place::At(standing, frames) => {
            told.frames = frames;
            let mut board = Board::resume(
                alloc,
                plan.game(),
                plan.program(),
                plan.order(),
                plan.recorded(),
                standing,
            );
            let stop = play(&mut board, &mut told, input)?;
            ended(board, told, stop)
        }
    }
}

/// Plays the chain of an input to where it settles, and counts the frames that it shows. Some: the session stops there.
fn play_one(
    alloc: Global,
    board: &mut Board<'_>,
    frames: &mut u64,
    input: Input,
) -> Result<Option<Stop>, AllocError>
    ensures stood { IfOk result
        (λ stop. (plan : PlanState) → IsStood plan board.old → stop ≡ None → IsStood plan board.new) }
    ensures led { IfOk result
        (λ stop. (plan : PlanState) (before : List Input) → IsStood plan board.old →
        StandsAt plan before frames.old board.old → IsLed plan (before ++ input ∷ []) frames.new stop board.new) }
{
    let mut told = Told {
        items: Vec::new(alloc),
        frames: *frames,
        taken: 0,
    };
    let stop = play(board, &mut told, input)?;
    *frames = told.frames;
    match stop {
        Some(stop) => Ok(Some(stop)),
        None => {
            board.settle()?;
            Ok(None)
        }
    }
}

/// Plays the chains of inputs, as `play_one` plays one.
fn play_all(
    alloc: Global,
    board: &mut Board<'_>,
    frames: &mut u64,
    inputs: &[Input],
) -> Result<Option<Stop>, AllocError>
    ensures stood { IfOk result
        (λ stop. (plan : PlanState) → IsStood plan board.old → stop ≡ None → IsStood plan board.new) }
    ensures led { IfOk result
        (λ stop. (plan : PlanState) (before : List Input) → IsStood plan board.old →
        StandsAt plan before frames.old board.old → IsLed plan (before ++ inputs.now) frames.new stop board.new) }
{
    let mut taken = 0;
    'inputs: while taken < inputs.len() {
        match play_one(alloc, board, frames, inputs[taken])? {
            Some(stop) => return Ok(Some(stop)),
            None => taken += 1,
        }
    }
    Ok(None)
}

/// Goes on from a place by inputs, one after another, and tells nothing of what they show. A session that has stopped stays where it is.
/// Err: memory was refused.
pub fn go_through(
    alloc: Global,
    plan: &Plan,
    place: Place,
    inputs: &[Input],
) -> Result<Place, AllocError>
    requires { CanGoOn plan.now place }
    ensures go_on { IfOk result (CanGoOn plan.now) }
    ensures place { IfOk result
        (λ next. (before : List Input) → IsPlace plan.now before place → IsPlace plan.now (before ++ inputs.now) next) }
{
    match place {
        Place::Stopped(stop, frames) => Ok(Place::Stopped(stop, frames)),
        Place::At(standing, frames) => {
            let mut frames = frames;
            let mut board = Board::resume(
                alloc,
                plan.game(),
                plan.program(),
                plan.order(),
                plan.recorded(),
                standing,
            );
            match play_all(alloc, &mut board, &mut frames, inputs)? {
                Some(stop) => Ok(Place::Stopped(stop, frames)),
                None => Ok(Place::At(board.leave(), frames)),
            }
        }
    }
}
