//! The sessions that a host keeps open, by their numbers.

ghost use Rattle.std.specs.Prelude.{◌≡◌, ◌≢◌, ◌+◌, ◌++◌, ◌∷◌, ◌<◌, ◌≤◌, [], IfOk, IfErr, IfSome, OnOk, OnErr, Err, None, Some, is_some, length, slice_get, slice_set, take};
ghost use Rattle.pz_entries.specs.declared.fault.FileFault.TheVariants as fault;
ghost use Rattle.pz_engine.specs.Sessions.{sessions_in};
ghost use Rattle.pz_record.specs.declared.input.TheConstants.{MOST_INPUTS};
ghost use Rattle.pz_open.specs.Sessions.{CopiesNot, Gives, GivesNot, GoesBack, GoesNot, IsDoneAt, IsOpened, OpensCase, open_at};
ghost use Rattle.pz_open.specs.declared.sessions.SessionFault.TheVariants as refused;

use crate::label::Label;
use crate::opened::{BackFault, GiveFault, OpenSession};
use pz_base::text::Text;
use pz_case::case::Case;
use pz_case::item::{Item, Refusal, Verdict};
use pz_engine::sessions::decode;
use pz_entries::fault::FileFault;
use pz_job::job::prepare;
use pz_record::input::Input;
use pz_record::order::Order;
use std::alloc::{AllocError, Global};
use std::marker::Model;
use std::mem::replace;

/// Why a session isn't moved.
#[derive(Clone, Copy, PartialEq, Eq, Debug)]
pub enum SessionFault {
    /// No open session has the number.
    NotOpen,
    /// It would have more inputs than a session may have.
    TooMany,
    /// It has fewer inputs.
    TooFew,
    /// Memory was refused.
    Memory,
}

impl From<AllocError> for SessionFault {
    ghost use Rattle.std.specs.Prelude.{◌≡◌};
    ghost use Rattle.pz_open.specs.declared.sessions.SessionFault.TheVariants.{Memory};

    ghost from_gives = { λ _ fault. fault ≡ Memory };

    fn from(_: AllocError) -> SessionFault {
        SessionFault::Memory
    }
}

/// All sessions that were ever opened, each in the place of its number, which no other gets. One that is closed leaves its place empty.
#[derive(Drop)]
pub struct OpenSessions {
    sessions: Vec<Option<OpenSession>>,
}

impl Model for OpenSessions {
    ghost use Rattle.std.specs.Prelude.{List, Option};
    ghost use Rattle.pz_open.specs.Opened.{OpenState};

    ghost Value = { List (Option OpenState) };

    ghost view = { λ s. s.sessions.items };
}

/// A session, if it is open, and the lines of its items.
#[derive(Drop)]
struct Opening {
    session: Option<OpenSession>,
    lines: Vec<u8>,
}

/// Opens the session of a case, without inputs.
fn open_case(alloc: Global, number: u64, case: Option<Case>) -> Result<Opening, AllocError>
    ensures { IfOk result (λ opening. OpensCase number case opening.session opening.lines.items) }
{
    let Some(mut case) = case else {
        return Ok(Opening {
            session: None,
            lines: Vec::new(alloc),
        });
    };
    let label = Label {
        number,
        name: Text::of_str(alloc, case.name.as_str())?,
    };
    match replace(&mut case.plan, Err(Refusal::NoLevel)) {
        Ok(plan) => {
            let (session, lines) = OpenSession::open(alloc, label, plan)?;
            Ok(Opening {
                session: Some(session),
                lines,
            })
        }
        Err(refusal) => Ok(Opening {
            session: None,
            lines: label.lines(alloc, 0, &[Item::Close(Verdict::Refused(refusal))])?,
        }),
    }
}

/// Gives the session of a place inputs.
fn give_in(place: &mut Option<OpenSession>, inputs: &[Input]) -> Result<Vec<u8>, SessionFault>
    ensures given { IfOk result (λ lines. Gives inputs.now place.old place.new lines.items) }
    ensures same { OnErr result (place.new ≡ place.old) }
    ensures why { IfErr result (λ why. GivesNot why place.old (length inputs.now)) }
    ensures open { place.old ≡ None → result ≡ Err refused.NotOpen }
{
    let Some(session) = place else {
        return Err(SessionFault::NotOpen);
    };
    match session.give(inputs) {
        Ok(lines) => Ok(lines),
        Err(GiveFault::TooMany) => Err(SessionFault::TooMany),
        Err(GiveFault::Memory) => Err(SessionFault::Memory),
    }
}

/// Leads the session of a place back to its first `count` inputs.
fn back_in(place: &mut Option<OpenSession>, count: usize) -> Result<Vec<u8>, SessionFault>
    ensures went { IfOk result (λ lines. GoesBack count place.old place.new lines.items) }
    ensures same { OnErr result (place.new ≡ place.old) }
    ensures why { IfErr result (λ why. GoesNot why place.old count) }
    ensures open { place.old ≡ None → result ≡ Err refused.NotOpen }
{
    let Some(session) = place else {
        return Err(SessionFault::NotOpen);
    };
    match session.back(count) {
        Ok(lines) => Ok(lines),
        Err(BackFault::TooFew) => Err(SessionFault::TooFew),
        Err(BackFault::Memory) => Err(SessionFault::Memory),
    }
}

impl OpenSessions {
    /// Of no session.
    pub fn new(alloc: Global) -> OpenSessions
        ensures { result ≡ [] }
    {
        OpenSessions {
            sessions: Vec::new(alloc),
        }
    }

    /// How many were ever opened, which is the number of the next.
    pub fn len(&self) -> usize
        ensures { result ≡ length self.now }
    {
        self.sessions.len()
    }

    /// Opens the session of a number in a file of sessions, without inputs, and answers the lines of its items. One that is refused is closed
    /// at once, and so is one that isn't there, which has no lines. Err: the file's first fault, or `Memory` if memory was refused; then all
    /// stay as they were.
    pub fn open(&mut self, bytes: &[u8], order: Order, session: usize) -> Result<Vec<u8>, FileFault>
        ensures opened { IfOk result (λ lines. IsOpened order bytes.now session self.old self.new lines.items) }
        ensures same { OnErr result (self.new ≡ self.old) }
        ensures refused { IfErr result (λ cause. cause ≢ fault.Memory → sessions_in bytes.now ≡ Err cause) }
    {
        let alloc = *self.sessions.allocator();
        let entries = decode(alloc, bytes)?;
        let job = prepare(alloc, entries, order)?;
        let Opening { session, lines } = open_case(alloc, session as u64, job.into_case(session))?;
        match self.sessions.push(session) {
            Ok(()) => Ok(lines),
            Err(_) => Err(FileFault::Memory),
        }
    }

    /// Opens a session that was given the same inputs as the one of a number. Err: that isn't open, or memory was refused; then all stay as
    /// they were.
    pub fn copy(&mut self, number: usize) -> Result<(), SessionFault>
        ensures copied { OnOk result (self.new ≡ self.old ++ open_at self.old number ∷ []) }
        ensures open { open_at self.old number ≡ None → result ≡ Err refused.NotOpen }
        ensures same { OnErr result (self.new ≡ self.old) }
        ensures why { IfErr result (λ why. CopiesNot why (open_at self.old number)) }
    {
        let copy = match self.sessions.get(number) {
            Some(Some(session)) => session.copy()?,
            _ => return Err(SessionFault::NotOpen),
        };
        match self.sessions.push(Some(copy)) {
            Ok(()) => Ok(()),
            Err(_) => Err(SessionFault::Memory),
        }
    }

    /// Closes a session. Whether it was open.
    pub fn close(&mut self, number: usize) -> bool
        ensures closed { self.new ≡ slice_set self.old number None }
        ensures was { result ≡ is_some (open_at self.old number) }
    {
        match self.sessions.get_mut(number) {
            Some(place) => {
                let was_open = place.is_some();
                *place = None;
                was_open
            }
            None => false,
        }
    }

    /// Gives a session inputs, one after another, and answers the lines of the items that come with the last of all that it then has. Err: it
    /// isn't open, or would have more inputs than a session may have, or memory was refused; then all stay as they were.
    pub fn give(&mut self, number: usize, inputs: &[Input]) -> Result<Vec<u8>, SessionFault>
        ensures given { IfOk result
            (λ lines. IsDoneAt number (λ old new. Gives inputs.now old new lines.items) self.old self.new) }
        ensures same { OnErr result (self.new ≡ self.old) }
        ensures why { IfErr result (λ why. GivesNot why (open_at self.old number) (length inputs.now)) }
        ensures open { open_at self.old number ≡ None → result ≡ Err refused.NotOpen }
    {
        match self.sessions.get_mut(number) {
            Some(place) => give_in(place, inputs),
            None => Err(SessionFault::NotOpen),
        }
    }

    /// Leads a session back to its first `count` inputs, and answers the lines of the items that come with the last of these. Err: it isn't
    /// open, or has fewer inputs, or memory was refused; then all stay as they were.
    pub fn back(&mut self, number: usize, count: usize) -> Result<Vec<u8>, SessionFault>
        ensures went { IfOk result
            (λ lines. IsDoneAt number (λ old new. GoesBack count old new lines.items) self.old self.new) }
        ensures same { OnErr result (self.new ≡ self.old) }
        ensures why { IfErr result (λ why. GoesNot why (open_at self.old number) count) }
        ensures open { open_at self.old number ≡ None → result ≡ Err refused.NotOpen }
    {
        match self.sessions.get_mut(number) {
            Some(place) => back_in(place, count),
            None => Err(SessionFault::NotOpen),
        }
    }
}
