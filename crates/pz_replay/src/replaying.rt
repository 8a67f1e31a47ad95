//! A job, played by the rules of its games on several threads.

ghost use Rattle.std.specs.Prelude.{◌≡◌, ◌≢◌, ◌↔◌, ◌⊎◌, ◌<◌, ◌≤◌, [], length, Err, IfOk};
ghost use Rattle.pz_crew.specs.Gates.{HasStop, IsPassed, MayPassAll};
ghost use Rattle.pz_crew.specs.Worked.{IsWorked};
ghost use Rattle.pz_crew.specs.declared.lane.End.TheVariants.{GateClosed};
ghost use Rattle.pz_replay.specs.Telling.{told};
ghost use Rattle.pz_session.specs.Recording.{recording, sessions};

use crate::as_items::AsItems;
use crate::item_lane::{Sender, Worked};
use crate::naming::named;
use crate::telling::Telling;
use pz_case::job::Job;
use pz_case::recording::Recording;
use pz_claims::{Claims, Seat};
use pz_crew::fault::ReplayFault;
use pz_crew::gate::Gate;
use pz_crew::recorder::Sessions;
use pz_crew::replaying::MOST_WORKERS;
use pz_crew::work::Duty;
use std::alloc::Global;
use std::sync::Wait;
use std::thread::{Parker, Threads};

/// How many messages a lane of `replay` holds at once.
pub const CAPACITY: usize = 64;

/// The recording of a job, told in pieces: those of each session, by session number. It is played by at most so many workers, each over
/// a lane that holds `capacity` messages, while the calling thread records. Err: `Workers`, if their number is not from 1 to 64, which
/// is tested first; else `Memory`, if a growth or the start of a thread was refused; or `GateClosed`, if the gate answered false. Of
/// several the one named first is answered. No lane is lost. The program calls this, and so do `replay_with` and `replay`.
pub fn replay_told<'a, P: Telling + Sync, R: Threads + Wait + Sync, G: Gate + Sync>(
    rt: &'a R,
    alloc: Global,
    played: &'a P,
    workers: usize,
    capacity: usize,
    gate: &'a G,
) -> Result<Sessions<P::Piece>, ReplayFault>
where
    P::Run: Send,
    requires capacity { 1 ≤ capacity }
    ensures workers { (result ≡ Err ReplayFault.Workers) ↔ ((workers ≡ 0) ⊎ (MOST_WORKERS < workers)) }
    ensures recording { IfOk result (λ r. r ≡ told (P.pieces played.now) (recording (P.job played.now))) }
    ensures passed { IfOk result (λ _. MayPassAll (G.may_pass gate.now) (P.sessions played.now)) }
    ensures closed { result ≡ Err ReplayFault.GateClosed → HasStop (G.may_stop gate.now) (P.sessions played.now) }
    ensures whole { result ≢ Err ReplayFault.LaneLost }
{
    played.tells();
    pz_crew::replaying::replay_with(rt, alloc, played, workers, capacity, gate)
}

/// The recording of a job, played by at most so many workers, each over a lane that holds `capacity` messages. Err: `Workers`, if
/// their number is not from 1 to 64, which is tested first; else `Memory`, if a growth or the start of a thread was refused; or
/// `GateClosed`, if the gate answered false. Of several the one named first is answered. No lane is lost.
pub fn replay_with<'a, R: Threads + Wait + Sync, G: Gate + Sync>(
    rt: &'a R,
    alloc: Global,
    job: &'a Job,
    workers: usize,
    capacity: usize,
    gate: &'a G,
) -> Result<Recording, ReplayFault>
    requires capacity { 1 ≤ capacity }
    ensures workers { (result ≡ Err ReplayFault.Workers) ↔ ((workers ≡ 0) ⊎ (MOST_WORKERS < workers)) }
    ensures recording { IfOk result (λ r. r ≡ recording job.now) }
    ensures passed { IfOk result (λ _. MayPassAll (G.may_pass gate.now) (sessions job.now)) }
    ensures closed { result ≡ Err ReplayFault.GateClosed → HasStop (G.may_stop gate.now) (sessions job.now) }
    ensures whole { result ≢ Err ReplayFault.LaneLost }
{
    let played = AsItems { job };
    let sessions = replay_told(rt, alloc, &played, workers, capacity, gate)?;
    match named(alloc, job, sessions) {
        Ok(recording) => Ok(recording),
        Err(_) => Err(ReplayFault::Memory),
    }
}

/// The recording of a job, played by at most so many workers, over lanes of `CAPACITY` messages.
pub fn replay<'a, R: Threads + Wait + Sync, G: Gate + Sync>(
    rt: &'a R,
    alloc: Global,
    job: &'a Job,
    workers: usize,
    gate: &'a G,
) -> Result<Recording, ReplayFault>
    ensures workers { (result ≡ Err ReplayFault.Workers) ↔ ((workers ≡ 0) ⊎ (MOST_WORKERS < workers)) }
    ensures recording { IfOk result (λ r. r ≡ recording job.now) }
    ensures passed { IfOk result (λ _. MayPassAll (G.may_pass gate.now) (sessions job.now)) }
    ensures closed { result ≡ Err ReplayFault.GateClosed → HasStop (G.may_stop gate.now) (sessions job.now) }
    ensures whole { result ≢ Err ReplayFault.LaneLost }
{
    replay_with(rt, alloc, job, workers, CAPACITY, gate)
}

/// A worker's whole run, on a seat that holds nothing and a lane on which nothing was sent: it claims a session, plays it, sends its items,
/// and claims again. A full lane is tried again until it has room.
pub fn work<R: Wait, G: Gate>(
    rt: &R,
    alloc: Global,
    claims: &Claims,
    seat: Seat,
    sender: Sender,
    job: &Job,
    gate: &G,
) -> Worked
    requires seat { (seat.of ≡ claims.now) × (seat.numbers ≡ []) }
    requires sender { sender.sent ≡ [] }
    requires job { claims.now.total ≡ length job.now }
    ensures worked { IsWorked claims.now (sessions job.now) sender.lane result }
    ensures passed { IsPassed (G.may_pass gate.now) (sessions job.now) result }
    ensures closed { result.end ≡ GateClosed → HasStop (G.may_stop gate.now) (sessions job.now) }
{
    let played = AsItems { job };
    let bell = Parker::new();
    let duty = Duty {
        alloc,
        claims,
        played: &played,
        gate,
        bell: &bell,
    };
    pz_crew::work::work(rt, &duty, seat, sender)
}
