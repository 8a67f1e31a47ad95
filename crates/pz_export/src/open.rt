//! Sessions that a host keeps open.

ghost use Rattle.std.specs.Prelude.{◌≡◌, ◌≢◌, ◌++◌, ◌∷◌, [], IfErr, IfOk, OnErr, OnOk, None, MatchOption, is_some, length, slice_set};
ghost use Rattle.pz_export.specs.Lines.{order_of};
ghost use Rattle.pz_export.specs.Held.{held_in};
ghost use Rattle.pz_export.specs.Open.{AreNotTold, AreTold, GivesBytes, IsBack, IsCopied, IsGiven, IsNotBack, IsNotCopied, IsNotGiven, IsNotGivenFor, IsNotOpened, IsOpenedFor, SaysDone, SaysNot};
ghost use Rattle.pz_open.specs.Sessions.{CopiesNot, GoesBack, GoesNot, IsDoneAt, open_at};

use crate::held::Held;
use crate::inputs::{InputFault, inputs_of};
use crate::lines::{begin_with, order_of};
use crate::outcome::{Outcome, PASSED, REFUSED, refused};
use pz_entries::fault::FileFault;
use pz_open::sessions::{OpenSessions, SessionFault};
use std::alloc::Global;
use std::mem::replace;

/// Why a call on an open session is not carried out.
#[derive(Clone, Copy, PartialEq, Eq, Debug)]
pub enum CallFault {
    /// The session's fault.
    OfSession(SessionFault),
    /// Some byte is no input's.
    NoInput,
}

/// What is told of a call that was carried out for the session of a number.
fn done(number: usize) -> Outcome
    ensures { SaysDone number result }
{
    Outcome {
        status: PASSED,
        fault: 0,
        entry: number as u64,
    }
}

/// What is told of a call that was not carried out.
fn not_done(cause: CallFault) -> Outcome
    ensures { SaysNot cause result }
{
    let fault = match cause {
        CallFault::OfSession(SessionFault::Memory) => 1,
        CallFault::OfSession(SessionFault::NotOpen) => 6,
        CallFault::OfSession(SessionFault::TooMany) => 7,
        CallFault::OfSession(SessionFault::TooFew) => 8,
        CallFault::NoInput => 9,
    };
    Outcome {
        status: REFUSED,
        fault,
        entry: 0,
    }
}

/// Tells a host the lines of a session, and answers how many bytes they have.
fn tell_lines(number: usize, lines: &[u8], room: &mut [u8], outcome: &mut Outcome) -> usize
    ensures { AreTold number lines.now room.old room.new outcome.new result }
{
    *outcome = done(number);
    begin_with(room, lines);
    lines.len()
}

/// Tells a host how a call on the session of a number was answered, and answers how many bytes its lines have.
fn tell_call(
    number: usize,
    answer: Result<Vec<u8>, CallFault>,
    room: &mut [u8],
    outcome: &mut Outcome,
) -> usize
    ensures told { IfOk answer (λ lines. AreTold number lines.items room.old room.new outcome.new result) }
    ensures not_told { IfErr answer (λ cause. AreNotTold cause room.old room.new outcome.new result) }
{
    match answer {
        Ok(lines) => tell_lines(number, &lines, room, outcome),
        Err(cause) => {
            *outcome = not_done(cause);
            0
        }
    }
}

/// The sessions of a place, which holds none while they are away. The first that are asked for are none. Err: memory was refused.
fn take_sessions(alloc: Global, held: &mut Held) -> Option<&'static mut OpenSessions>
    ensures taken { MatchOption result (held.new.value ≡ held.old.value)
        (λ sessions. sessions.now ≡ held_in held.old.value) }
{
    match replace(held, Held::none()).into_ref() {
        Some(sessions) => Some(sessions),
        None => match Box::new(alloc, OpenSessions::new(alloc)) {
            Ok(sessions) => Some(Box::leak(sessions)),
            Err(_) => None,
        },
    }
}

/// Opens the session of a number in a file of sessions, from 0, without inputs; the cells of each level come by rows if the order is 0, and
/// else by columns. The answer is the number of bytes of the lines of its items. If the room has so many, it begins with them; otherwise the
/// host asks for them by `saxtegun_give` of no inputs. `entry` of the outcome is the number under which later calls know the session. It
/// never has another meaning. One that is refused is told by its close and isn't open; nor is one that isn't there, which has no lines.
#[unsafe(no_mangle)]
pub extern "C" fn saxtegun_open(
    alloc: Global,
    held: &mut Held,
    file: &[u8],
    order: u32,
    session: u32,
    room: &mut [u8],
    outcome: &mut Outcome,
) -> usize
    ensures size { length room.new ≡ length room.old }
    ensures opened { outcome.new.status ≢ REFUSED →
        IsOpenedFor (order_of order) file.now session (held_in held.old.value)
        (held_in held.new.value) room.old room.new outcome.new result }
    ensures refused { outcome.new.status ≡ REFUSED →
        IsNotOpened file.now (held_in held.old.value) (held_in held.new.value) room.old room.new outcome.new result }
{
    let Some(sessions) = take_sessions(alloc, held) else {
        *outcome = refused(FileFault::Memory);
        return 0;
    };
    let number = sessions.len();
    let answer = sessions.open(file, order_of(order), session as usize);
    *held = Held::of(sessions);
    match answer {
        Ok(lines) => tell_lines(number, &lines, room, outcome),
        Err(cause) => {
            *outcome = refused(cause);
            0
        }
    }
}

/// Gives the session of a number inputs, each by its byte.
fn give(alloc: Global, held: &mut Held, number: usize, bytes: &[u8]) -> Result<Vec<u8>, CallFault>
    ensures given { IfOk result
        (λ lines. GivesBytes number bytes.now (held_in held.old.value) (held_in held.new.value) lines.items) }
    ensures why { IfErr result (λ cause. IsNotGivenFor cause (open_at (held_in held.old.value) number) bytes.now) }
    ensures same { OnErr result (held_in held.new.value ≡ held_in held.old.value) }
{
    let inputs = inputs_of(alloc, bytes).map_err(|why| match why {
        InputFault::NoInput => CallFault::NoInput,
        InputFault::Memory => CallFault::OfSession(SessionFault::Memory),
    })?;
    let Some(sessions) = replace(held, Held::none()).into_ref() else {
        return Err(CallFault::OfSession(SessionFault::NotOpen));
    };
    let answer = sessions.give(number, &inputs);
    *held = Held::of(sessions);
    answer.map_err(|why| CallFault::OfSession(why))
}

/// Gives the session of a number inputs, one after another, each by its byte: 0 to 4 for the presses of a file, 5 for undo, 6 for restart, 7
/// for a tick. The answer is the number of bytes of the lines of the items that come with the last of all inputs that it then has. If the room
/// has so many, it begins with them; otherwise the host asks for them by a call with no inputs. A call that is refused leaves all sessions as
/// they were, and the fault says why: 1 memory was refused, 6 no open session has the number, 7 it would have too many inputs, 9 some byte is
/// no input's.
#[unsafe(no_mangle)]
pub extern "C" fn saxtegun_give(
    alloc: Global,
    held: &mut Held,
    number: u32,
    inputs: &[u8],
    room: &mut [u8],
    outcome: &mut Outcome,
) -> usize
    ensures size { length room.new ≡ length room.old }
    ensures given { outcome.new.status ≢ REFUSED →
        IsGiven number inputs.now (held_in held.old.value)
        (held_in held.new.value) room.old room.new outcome.new result }
    ensures refused { outcome.new.status ≡ REFUSED →
        IsNotGiven number inputs.now (held_in held.old.value)
        (held_in held.new.value) room.old room.new outcome.new result }
{
    let number = number as usize;
    tell_call(number, give(alloc, held, number, inputs), room, outcome)
}

/// Leads the session of a number back to its first inputs.
fn back(held: &mut Held, number: usize, inputs: usize) -> Result<Vec<u8>, SessionFault>
    ensures back { IfOk result
        (λ lines. IsDoneAt number (λ old new. GoesBack inputs old new lines.items) (held_in held.old.value)
        (held_in held.new.value)) }
    ensures why { IfErr result (λ cause. GoesNot cause (open_at (held_in held.old.value) number) inputs) }
    ensures same { OnErr result (held_in held.new.value ≡ held_in held.old.value) }
{
    let Some(sessions) = replace(held, Held::none()).into_ref() else {
        return Err(SessionFault::NotOpen);
    };
    let answer = sessions.back(number, inputs);
    *held = Held::of(sessions);
    answer
}

/// Leads the session of a number back to its first inputs, of which so many stay. The answer, and what is refused, are as for `saxtegun_give`;
/// the fault is 8 if it has fewer inputs.
#[unsafe(no_mangle)]
pub extern "C" fn saxtegun_back(
    held: &mut Held,
    number: u32,
    inputs: u32,
    room: &mut [u8],
    outcome: &mut Outcome,
) -> usize
    ensures size { length room.new ≡ length room.old }
    ensures back { outcome.new.status ≢ REFUSED →
        IsBack number inputs (held_in held.old.value) (held_in held.new.value) room.old room.new outcome.new result }
    ensures refused { outcome.new.status ≡ REFUSED →
        IsNotBack number inputs (held_in held.old.value) (held_in held.new.value) room.old room.new outcome.new result }
{
    let number = number as usize;
    let answer = back(held, number, inputs as usize).map_err(|why| CallFault::OfSession(why));
    tell_call(number, answer, room, outcome)
}

/// A copy of the session of a number, opened; its number.
fn copy(held: &mut Held, number: usize) -> Result<usize, SessionFault>
    ensures copied { IfOk result (λ copy. copy ≡ length (held_in held.old.value)) }
    ensures behind { OnOk result
        (held_in held.new.value ≡ held_in held.old.value ++ open_at (held_in held.old.value) number ∷ []) }
    ensures why { IfErr result (λ cause. CopiesNot cause (open_at (held_in held.old.value) number)) }
    ensures same { OnErr result (held_in held.new.value ≡ held_in held.old.value) }
{
    let Some(sessions) = replace(held, Held::none()).into_ref() else {
        return Err(SessionFault::NotOpen);
    };
    let count = sessions.len();
    let answer = sessions.copy(number);
    *held = Held::of(sessions);
    answer.map(|_| count)
}

/// Opens a session that was given the same inputs as the one of a number. `entry` of the outcome is its number. A call that is refused leaves
/// all sessions as they were.
#[unsafe(no_mangle)]
pub extern "C" fn saxtegun_copy(held: &mut Held, number: u32, outcome: &mut Outcome)
    ensures copied { outcome.new.status ≢ REFUSED →
        IsCopied number (held_in held.old.value) (held_in held.new.value) outcome.new }
    ensures refused { outcome.new.status ≡ REFUSED →
        IsNotCopied number (held_in held.old.value) (held_in held.new.value) outcome.new }
{
    *outcome = match copy(held, number as usize) {
        Ok(copy) => done(copy),
        Err(why) => not_done(CallFault::OfSession(why)),
    };
}

/// Closes the session of a number. Whether it was open.
#[unsafe(no_mangle)]
pub extern "C" fn saxtegun_close(held: &mut Held, number: u32) -> bool
    ensures closed { held_in held.new.value ≡ slice_set (held_in held.old.value) number None }
    ensures was { result ≡ is_some (open_at (held_in held.old.value) number) }
{
    let Some(sessions) = replace(held, Held::none()).into_ref() else {
        return false;
    };
    let was_open = sessions.close(number as usize);
    *held = Held::of(sessions);
    was_open
}
