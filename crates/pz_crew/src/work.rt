//! The run of a worker: it claims a session, plays it, sends its pieces, and claims again.

ghost use Rattle.std.specs.Prelude.{◌≡◌, ◌≢◌, ◌<◌, ◌++◌, ◌∷◌, [], IfErr, IfSome, OnOk, ℕ, length, take};
ghost use Rattle.pz_crew.specs.Gates.{HasStop, HasStopIn, IsPassed, MayPassIn, MayPassUpTo};
ghost use Rattle.pz_crew.specs.Pieces.{pieces_at};
ghost use Rattle.pz_crew.specs.Sent.{messages_of};
ghost use Rattle.pz_crew.specs.Worked.{IsWorked, handed_back};
ghost use Rattle.pz_crew.specs.declared.lane.End.TheVariants.{Finished, GateClosed};
ghost use Rattle.pz_crew.specs.declared.lane.Message.TheVariants.{Last};

use crate::gate::Gate;
use crate::lane::{End, Message, Sender, SentAll};
use crate::playing::{Playable, Playing};
use crate::waiting::wait_for_room;
use pz_claims::{Claimed, Claims, Ended, Seat};
use std::alloc::Global;
use std::sync::Wait;
use std::thread::Parker;

/// What a worker is given beside its seat and its lane: the table at which it claims, the job that is played, the gate that it asks,
/// and the bell that it rings where its lane is full and once it has ended, so that the recorder need not look for long.
#[derive(Drop)]
pub struct Duty<'a, P, G> {
    pub alloc: Global,
    pub claims: &'a Claims,
    pub played: &'a P,
    pub gate: &'a G,
    pub bell: &'a Parker,
}

/// What a worker hands back.
#[derive(Drop)]
pub struct Worked<T> {
    pub end: End,
    pub ended: Option<Ended>,
    pub sent: Option<SentAll<T>>,
}

/// What a worker has once its work is done: its end of the lane, too.
#[derive(Drop)]
pub(crate) struct Done<T> {
    pub end: End,
    pub ended: Option<Ended>,
    pub sender: Sender<T>,
}

/// Tries until the message is sent, with a pause after each time that the lane was full, in which the recorder takes what is there.
fn send<T: Drop, R: Wait>(rt: &R, bell: &Parker, sender: &mut Sender<T>, message: Message<T>)
    ensures { sender.new ≡ record sender.old { sent = sender.old.sent ++ message ∷ [] } }
{
    let mut message = message;
    for _ in rt.forever() {
        match sender.try_send(message) {
            Ok(()) => return,
            Err(back) => message = back,
        }
        wait_for_room(rt, bell);
    }
    unreachable!()
}

/// Sends the pieces that are still to come in a run, as long as there is memory to play on and the gate lets them pass.
fn send_pieces<U: Playing, R: Wait, G: Gate>(
    rt: &R,
    bell: &Parker,
    sender: &mut Sender<U::Piece>,
    session: usize,
    run: &mut U,
    gate: &G,
) -> Result<(), End>
    ensures whole { OnOk result
        (sender.new ≡ record sender.old { sent = sender.old.sent ++ messages_of session (U.left run.old) }) }
    ensures passed { OnOk result (MayPassUpTo (G.may_pass gate.now) session (length (U.left run.old))) }
    ensures part { IfErr result
        (λ _. (count : ℕ) × (sender.new ≡
        record sender.old { sent = sender.old.sent ++ take count (messages_of session (U.left run.old)) }) ×
        MayPassUpTo (G.may_pass gate.now) session count) }
    ensures broken { IfErr result (λ end. end ≢ Finished) }
    ensures closed { IfErr result
        (λ end. end ≡ GateClosed → HasStopIn (G.may_stop gate.now) session (length (U.left run.old))) }
{
    for number in 0..u64::MAX {
        match run.next() {
            Ok(Some(piece)) => {
                if !gate.pass(session, number) {
                    // (dropped by a call: at the end of the scope the ways through a piece would be written out)
                    drop(piece);
                    return Err(End::GateClosed);
                }
                send(rt, bell, sender, Message::Piece(session, piece));
            }
            Ok(None) => return Ok(()),
            Err(_) => return Err(End::Memory),
        }
    }
    // (no memory holds so many pieces)
    Err(End::Memory)
}

/// Sends the pieces of a session, or its first ones. The run is made here and lent to the loop, so that no way out of the loop
/// drops it.
fn play<P: Playable, R: Wait, G: Gate>(
    rt: &R,
    duty: &Duty<'_, P, G>,
    sender: &mut Sender<P::Piece>,
    session: usize,
) -> Result<(), End>
    requires { session < length (P.sessions duty.now.played.now) }
    ensures whole { OnOk result
        (sender.new ≡ record sender.old {
          sent = sender.old.sent ++ messages_of session
              (pieces_at (P.sessions duty.now.played.now) session);
        }) }
    ensures passed { OnOk result (MayPassIn (G.may_pass duty.now.gate.now) (P.sessions duty.now.played.now) session) }
    ensures part { IfErr result
        (λ _. (count : ℕ) × (sender.new ≡
        record sender.old {
          sent = sender.old.sent ++ take count
              (messages_of session (pieces_at (P.sessions duty.now.played.now) session));
        }) ×
        MayPassUpTo (G.may_pass duty.now.gate.now) session count) }
    ensures broken { IfErr result (λ end. end ≢ Finished) }
    ensures closed { IfErr result
        (λ end. end ≡ GateClosed →
        HasStopIn (G.may_stop duty.now.gate.now) session
        (length (pieces_at (P.sessions duty.now.played.now) session))) }
{
    let Ok(mut run) = duty.played.begin(duty.alloc, session) else {
        return Err(End::Memory);
    };
    send_pieces(rt, duty.bell, sender, session, &mut run, duty.gate)
}

/// Sends the last message, wakes the recorder, and hands back what the worker has.
fn end_work<T: Drop, R: Wait>(
    rt: &R,
    bell: &Parker,
    sender: Sender<T>,
    end: End,
    ended: Option<Ended>,
) -> Done<T>
    ensures end { result.end ≡ end }
    ensures ended { result.ended ≡ ended }
    ensures sent { IfSome (handed_back result).sent
        (λ all. all ≡ record { lane = sender.lane; sent = sender.sent ++ Last end ∷ [] }) }
{
    let mut sender = sender;
    send(rt, bell, &mut sender, Message::Last(end));
    bell.unpark();
    Done { end, ended, sender }
}

/// A worker's whole run, on a seat that holds nothing and a lane on which nothing was sent. The lane's end is handed back as it is: whoever
/// holds both ends knows what was sent, while a lane that is finished may give no token.
pub(crate) fn work_to_end<P: Playable, R: Wait, G: Gate>(
    rt: &R,
    duty: &Duty<'_, P, G>,
    seat: Seat,
    sender: Sender<P::Piece>,
) -> Done<P::Piece>
    requires seat { (seat.of ≡ duty.now.claims.now) × (seat.numbers ≡ []) }
    requires sender { sender.sent ≡ [] }
    requires job { duty.now.claims.now.total ≡ length (P.sessions duty.now.played.now) }
    ensures worked { IsWorked duty.now.claims.now (P.sessions duty.now.played.now) sender.lane (handed_back result) }
    ensures passed { IsPassed (G.may_pass duty.now.gate.now) (P.sessions duty.now.played.now) (handed_back result) }
    ensures closed { result.end ≡ GateClosed → HasStop (G.may_stop duty.now.gate.now) (P.sessions duty.now.played.now) }
{
    let mut seat = seat;
    let mut sender = sender;
    for _ in rt.forever() {
        match duty.claims.claim(seat) {
            Claimed::Got(same, session) => {
                seat = same;
                if let Err(end) = play(rt, duty, &mut sender, session) {
                    return end_work(rt, duty.bell, sender, end, None);
                }
            }
            Claimed::Done(ended) => {
                return end_work(rt, duty.bell, sender, End::Finished, Some(ended));
            }
        }
    }
    unreachable!()
}

/// A worker's whole run, on a seat that holds nothing and a lane on which nothing was sent, which is finished.
pub fn work<P: Playable, R: Wait, G: Gate>(
    rt: &R,
    duty: &Duty<'_, P, G>,
    seat: Seat,
    sender: Sender<P::Piece>,
) -> Worked<P::Piece>
    requires seat { (seat.of ≡ duty.now.claims.now) × (seat.numbers ≡ []) }
    requires sender { sender.sent ≡ [] }
    requires job { duty.now.claims.now.total ≡ length (P.sessions duty.now.played.now) }
    ensures worked { IsWorked duty.now.claims.now (P.sessions duty.now.played.now) sender.lane result }
    ensures passed { IsPassed (G.may_pass duty.now.gate.now) (P.sessions duty.now.played.now) result }
    ensures closed { result.end ≡ GateClosed → HasStop (G.may_stop duty.now.gate.now) (P.sessions duty.now.played.now) }
{
    let Done { end, ended, sender } = work_to_end(rt, duty, seat, sender);
    let sent = sender.finish();
    Worked { end, ended, sent }
}
