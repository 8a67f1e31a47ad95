//! The recorder, which takes the messages of all lanes, and keeps the pieces of each session.

ghost use Rattle.std.specs.Prelude.{◌≡◌, [], map, replicate, All, IfOk, IsTrue, OnOk};
ghost use Rattle.pz_crew.specs.Recorded.{GoesOn, HasEnded, IsRecorded, IsVisited, kept};
ghost use Rattle.pz_crew.specs.declared.lane.Message.TheVariants as messages;

use crate::lane::{End, Message, Taker};
use crate::waiting::pause;
use std::alloc::{AllocError, Global};
use std::marker::Model;
use std::sync::Wait;
use std::thread::Parker;

/// The pieces of each session so far, by session number.
#[derive(Drop)]
pub struct Sessions<T> {
    pieces: Vec<Vec<T>>,
}

impl<T> Model for Sessions<T> {
    ghost use Rattle.std.specs.Prelude.{List, map};

    ghost Value = { List (List T) };

    ghost view = { λ s. map (λ pieces. pieces.items) s.pieces.items };
}

impl<T: Drop> Sessions<T> {
    /// This many sessions, all without pieces.
    pub(crate) fn blank(alloc: Global, count: usize) -> Result<Sessions<T>, AllocError>
        ensures { IfOk result (λ s. s ≡ replicate count []) }
    {
        let mut pieces = Vec::with_capacity(alloc, count)?;
        for _ in 0..count {
            pieces.push(Vec::new(alloc))?;
        }
        Ok(Sessions { pieces })
    }

    /// The pieces of each session.
    pub fn into_pieces(self) -> Vec<Vec<T>>
        ensures { map (λ pieces. pieces.items) result.items ≡ self }
    {
        let Sessions { pieces } = self;
        pieces
    }

    /// Appends a piece to its session.
    fn keep(&mut self, session: usize, piece: T) -> Result<(), AllocError>
        ensures { OnOk result (self.new ≡ kept self.old (messages.Piece session piece)) }
    {
        let Some(pieces) = self.pieces.get_mut(session) else {
            return Ok(());
        };
        pieces.push(piece)?;
        Ok(())
    }
}

/// A lane at the recorder; how it ended, once its last message was taken; and whether it was empty at the last visit.
#[derive(Drop)]
pub(crate) struct Inbox<T> {
    pub(crate) taker: Taker<T>,
    pub(crate) end: Option<End>,
    pub(crate) is_quiet: bool,
}

/// Takes one message, if there is one and the lane has not ended, and says whether it has ended. If there is no memory for a
/// piece, no sessions are kept any more.
fn visit<T: Drop>(inbox: &mut Inbox<T>, sessions: &mut Option<Sessions<T>>) -> bool
    ensures lane { inbox.new.taker.lane ≡ inbox.old.taker.lane }
    ensures visited { IsVisited inbox.old inbox.new sessions.old sessions.new }
    ensures ended { IsTrue result → HasEnded inbox.new }
{
    if inbox.end.is_some() {
        return true;
    }
    match inbox.taker.try_take() {
        None => {
            inbox.is_quiet = true;
            false
        }
        Some(Message::Last(end)) => {
            inbox.end = Some(end);
            inbox.is_quiet = true;
            true
        }
        Some(Message::Piece(session, piece)) => {
            inbox.is_quiet = false;
            if let Some(so_far) = sessions {
                if so_far.keep(session, piece).is_err() {
                    *sessions = None;
                }
            }
            false
        }
    }
}

/// Visits each inbox, and says whether all lanes have ended.
fn round<T: Drop>(inboxes: &mut [Inbox<T>], sessions: &mut Option<Sessions<T>>) -> bool
    requires { IsRecorded inboxes.old sessions.old }
    ensures recorded { IsRecorded inboxes.new sessions.new }
    ensures goes { GoesOn inboxes.old inboxes.new sessions.old sessions.new }
    ensures ended { IsTrue result → All HasEnded inboxes.new }
{
    let mut all = true;
    for number in 0..inboxes.len() {
        let ended = visit(&mut inboxes[number], sessions);
        all = all && ended;
    }
    all
}

/// Whether no lane had a message in the last round.
fn are_quiet<T>(inboxes: &[Inbox<T>]) -> bool {
    inboxes.iter().all(|inbox| inbox.is_quiet)
}

/// Takes from every lane in turn until each has ended, and pauses after each round in which no lane had a message. It goes on
/// even if there was no memory for a piece, since a worker would otherwise wait for room on its lane.
pub(crate) fn record<T: Drop, R: Wait>(
    rt: &R,
    bell: &Parker,
    inboxes: &mut [Inbox<T>],
    sessions: &mut Option<Sessions<T>>,
)
    requires { IsRecorded inboxes.old sessions.old }
    ensures recorded { IsRecorded inboxes.new sessions.new }
    ensures goes { GoesOn inboxes.old inboxes.new sessions.old sessions.new }
    ensures ended { All HasEnded inboxes.new }
{
    for _ in rt.forever() {
        if round(inboxes, sessions) {
            return;
        }
        if are_quiet(inboxes) {
            pause(rt, bell);
        }
    }
    unreachable!()
}
