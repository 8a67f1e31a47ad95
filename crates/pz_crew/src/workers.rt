//! The workers, each with a lane to the recorder, in one scope of threads.

ghost use Rattle.std.specs.Prelude.{◌≡◌, ◌≢◌, ◌+◌, ◌++◌, ◌≤◌, [], map, length, replicate, All, IfOk, IfErr, IfSome, IfNone, IsSome, ◌⊎◌, Err, IsOk};
ghost use Rattle.pz_claims.specs.declared.limits.TheConstants.{MOST_SEATS};
ghost use Rattle.pz_crew.specs.declared.lane.End.TheVariants.{GateClosed as gate_closed};
ghost use Rattle.pz_crew.specs.Gates.{HasStop, MayPassFor};
ghost use Rattle.pz_crew.specs.Workers.{IsAll, IsDone, IsOpened, IsSettled, Keeps};
ghost use Rattle.pz_crew.specs.Faults.{fault_at, fault_in, first_fault};
ghost use Rattle.pz_crew.specs.Sent.{sent_for};
ghost use Rattle.pz_crew.specs.Recorded.{Gathered, HasEnded, IsHonest, IsRecorded, lane_of, taken_of};
ghost use Rattle.pz_crew.specs.Worked.{IsWorked, handed_back};

use crate::fault::ReplayFault;
use crate::gate::Gate;
use crate::lane::{End, Sender, lane};
use crate::playing::Playable;
use crate::recorder::{Inbox, Sessions, record};
use crate::work::{Done, Duty, work_to_end};
use pz_claims::{Claims, Ended, Maker, Seat};
use std::alloc::Global;
use std::snapshot::Snapshot;
use std::sync::Wait;
use std::thread::{Parker, Promise, PromisedHandle, Scope, Threads};

/// What the workers of a replay share. Each has a lane of its own, of the same capacity.
#[derive(Drop)]
pub(crate) struct Shared<'e, P, R, G> {
    pub rt: &'e R,
    pub alloc: Global,
    pub claims: &'e Claims,
    pub played: &'e P,
    pub gate: &'e G,
    pub bell: &'e Parker,
    pub capacity: usize,
}

/// What is promised of a worker.
#[derive(Drop)]
struct Task<'a, P: Playable, G> {
    claims: &'a Claims,
    played: &'a P,
    gate: &'a G,
    lane: Snapshot<Sender<P::Piece>>,
}

impl<'a, P: Playable, G: Gate> Promise<Done<P::Piece>> for Task<'a, P, G> {
    ghost kept_by = { λ task done.
        Keeps task.claims.now (P.sessions task.played.now) (G.may_pass task.gate.now)
        (G.may_stop task.gate.now) task.lane.value.lane (handed_back done) };
}

/// Starts a worker in a thread of its own. No run of a session leaves the thread that makes it. But what is known of runs is known in
/// another thread only if they may be sent.
fn start<'s, 'e, P: Playable + Sync, R: Threads + Wait + Sync, G: Gate + Sync>(
    scope: &'s Scope<'s, &'e ()>,
    shared: &Shared<'e, P, R, G>,
    seat: Seat,
    sender: Sender<P::Piece>,
) -> Option<PromisedHandle<Done<P::Piece>, Task<'e, P, G>>>
where
    P::Run: Send,
    requires seat { (seat.of ≡ shared.now.claims.now) × (seat.numbers ≡ []) }
    requires sender { sender.sent ≡ [] }
    requires job { shared.now.claims.now.total ≡ length (P.sessions shared.now.played.now) }
    ensures { IfSome result
        (λ h. (h.promise.claims.now ≡ shared.now.claims.now) × (h.promise.played.now ≡ shared.now.played.now) ×
        (h.promise.gate.now ≡ shared.now.gate.now) × (h.promise.lane.value.lane ≡ sender.lane)) }
{
    let (rt, alloc) = (shared.rt, shared.alloc);
    let (claims, played, gate) = (shared.claims, shared.played, shared.gate);
    let bell = shared.bell;
    let task = Task {
        claims,
        played,
        gate,
        lane: Snapshot::of(&sender),
    };
    let run = move || -> Done<P::Piece>
        requires { (seat.of ≡ claims.now) × (seat.numbers ≡ []) × (sender.sent ≡ []) ×
            (claims.now.total ≡ length (P.sessions played.now)) }
        ensures { Keeps claims.entry.now (P.sessions played.entry.now) (G.may_pass gate.entry.now)
            (G.may_stop gate.entry.now) sender.lane (handed_back result) }
    {
        let duty = Duty {
            alloc,
            claims,
            played,
            gate,
            bell,
        };
        work_to_end(rt, &duty, seat, sender)
    };
    scope.spawn_with(task, run).ok()
}

/// What a worker has, once it is done.
fn join<'e, P: Playable + Sync, R: Threads + Wait + Sync, G: Gate + Sync>(
    shared: &Shared<'e, P, R, G>,
    lane: Snapshot<Sender<P::Piece>>,
    started: PromisedHandle<Done<P::Piece>, Task<'e, P, G>>,
) -> Done<P::Piece>
    requires { (started.promise.claims.now ≡ shared.now.claims.now) ×
        (started.promise.played.now ≡ shared.now.played.now) ×
        (started.promise.gate.now ≡ shared.now.gate.now) × (started.promise.lane.value.lane ≡ lane.value.lane) }
    ensures { Keeps shared.now.claims.now (P.sessions shared.now.played.now) (G.may_pass shared.now.gate.now)
        (G.may_stop shared.now.gate.now) lane.value.lane (handed_back result) }
{
    started.join(shared.rt)
}

/// Records all that the workers send.
fn gather<T: Drop, R: Wait>(
    rt: &R,
    bell: &Parker,
    maker: Maker,
    inboxes: &mut Vec<Inbox<T>>,
    sessions: Option<Sessions<T>>,
) -> Result<(Maker, Sessions<T>), ReplayFault>
    requires { IsRecorded inboxes.old.items sessions }
    ensures lanes { map lane_of inboxes.new.items ≡ map lane_of inboxes.old.items }
    ensures ended { All IsHonest inboxes.new.items × All HasEnded inboxes.new.items }
    ensures done { IfOk result
        (λ made. (made.0 ≡ maker) × Gathered (map taken_of inboxes.new.items) made.1 ×
        IfSome sessions (λ s. length made.1 ≡ length s) × IsSome sessions) }
    ensures fault { IfErr result (λ fault. fault ≡ ReplayFault.Memory) }
{
    let mut sessions = sessions;
    record(rt, bell, inboxes.as_mut_slice(), &mut sessions);
    match sessions {
        Some(sessions) => Ok((maker, sessions)),
        None => Err(ReplayFault::Memory),
    }
}

/// What was taken at the inbox is all that was sent on its lane.
fn confirm<P: Playable>(
    mut inbox: Inbox<P::Piece>,
    mut sender: Sender<P::Piece>,
    played: &P,
    ended: &Ended,
)
    requires lane { sender.lane ≡ inbox.taker.lane }
    requires inbox { IsHonest inbox × HasEnded inbox }
    requires sent { sender.sent ≡ sent_for (P.sessions played.now) ended.now.numbers }
    ensures { taken_of inbox ≡ sent_for (P.sessions played.now) ended.now.numbers }
{
    inbox.taker.left_beside(&mut sender);
}

/// The first of the fault below and that of the worker, if there is any.
fn first_fault<T>(
    below: &Result<(Maker, Sessions<T>), ReplayFault>,
    end: End,
) -> Option<ReplayFault>
    ensures { result ≡ first_fault (fault_in below.now) (fault_at end) }
{
    match (below, end) {
        (Err(ReplayFault::Memory), _) | (_, End::Memory) => Some(ReplayFault::Memory),
        (Err(ReplayFault::Workers), _) => Some(ReplayFault::Workers),
        (Err(ReplayFault::GateClosed), _) | (_, End::GateClosed) => Some(ReplayFault::GateClosed),
        (Err(ReplayFault::LaneLost), _) => Some(ReplayFault::LaneLost),
        (Ok(_), End::Finished) => None,
    }
}

/// Adds what one worker has to what the workers below it made. Of two faults the first is handed up.
fn settle<P: Playable>(
    claims: &Claims,
    played: &P,
    below: Result<(Maker, Sessions<P::Piece>), ReplayFault>,
    done: Done<P::Piece>,
    inbox: Inbox<P::Piece>,
) -> Result<(Maker, Sessions<P::Piece>), ReplayFault>
    requires maker { IfOk below (λ made. made.0.of ≡ claims.now) }
    requires worked { IsWorked claims.now (P.sessions played.now) inbox.taker.lane (handed_back done) }
    requires inbox { IsHonest inbox × HasEnded inbox }
    ensures settled { IfOk result
        (λ made. IfOk below (λ before. IsSettled (P.sessions played.now) inbox before.0 before.1 made.0 made.1)) }
    ensures below { IfOk result (λ _. IsOk below) }
    ensures joined { IfOk result
        (λ made. IfOk below (λ before.
        IfSome done.ended (λ ended. made.0.numbers ≡ before.0.numbers ++ ended.numbers) × IsSome done.ended)) }
    ensures first { fault_in result ≡ first_fault (fault_in below) (fault_at done.end) }
    ensures workers { result ≡ Err ReplayFault.Workers → below ≡ Err ReplayFault.Workers }
    ensures lost { result ≡ Err ReplayFault.LaneLost → below ≡ Err ReplayFault.LaneLost }
    ensures closed { IfErr result
        (λ fault. fault ≡ ReplayFault.GateClosed → (done.end ≡ End.GateClosed) ⊎
        (below ≡ Err ReplayFault.GateClosed)) }
{
    if let Some(fault) = first_fault(&below, done.end) {
        drop(below);
        drop(done);
        drop(inbox);
        return Err(fault);
    }
    let Ok((maker, sessions)) = below else {
        unreachable!();
    };
    let Done {
        end: _,
        ended,
        sender,
    } = done;
    let Some(ended) = ended else {
        unreachable!();
    };
    confirm(inbox, sender, played, &ended);
    let maker = claims.join(maker, ended);
    Ok((maker, sessions))
}

/// Opens a lane, with an inbox at its other end. Without memory the inboxes are as they were.
fn open_lane<T: Drop>(
    alloc: Global,
    capacity: usize,
    inboxes: &mut Vec<Inbox<T>>,
) -> Option<Sender<T>>
    requires { 1 ≤ capacity }
    ensures some { IfSome result
        (λ sender. (sender.sent ≡ []) × IsOpened inboxes.old.items inboxes.new.items sender.lane) }
    ensures none { IfNone result (inboxes.new.items ≡ inboxes.old.items) }
{
    let (sender, taker) = lane(alloc, capacity).ok()?;
    inboxes
        .push(Inbox {
            taker,
            end: None,
            is_quiet: false,
        })
        .ok()?;
    Some(sender)
}

/// Starts the workers that are left, and records what all of them send. Each call starts one worker, and joins it. If a worker
/// can't be started, those that run are still waited for, and the answer is `Memory`.
fn run_workers<'s, 'e, P: Playable + Sync, R: Threads + Wait + Sync, G: Gate + Sync>(
    scope: &'s Scope<'s, &'e ()>,
    shared: &Shared<'e, P, R, G>,
    maker: Maker,
    left: usize,
    inboxes: &mut Vec<Inbox<P::Piece>>,
    sessions: Option<Sessions<P::Piece>>,
) -> Result<(Maker, Sessions<P::Piece>), ReplayFault>
where
    P::Run: Send,
    requires capacity { 1 ≤ shared.now.capacity }
    requires maker { (maker.of ≡ shared.now.claims.now) × (maker.made + left ≤ MOST_SEATS) }
    requires job { shared.now.claims.now.total ≡ length (P.sessions shared.now.played.now) }
    requires recorded { IsRecorded inboxes.old.items sessions ×
        IfSome sessions (λ s. length s ≡ length (P.sessions shared.now.played.now)) }
    ensures lanes { map lane_of inboxes.new.items ≡ map lane_of inboxes.old.items }
    ensures ended { All IsHonest inboxes.new.items × All HasEnded inboxes.new.items }
    ensures whole { IfOk result
        (λ made. IsDone (P.sessions shared.now.played.now) maker left inboxes.new.items made.0 made.1) }
    ensures workers { result ≢ Err ReplayFault.Workers }
    ensures lost { result ≢ Err ReplayFault.LaneLost }
    ensures passed { MayPassFor (G.may_pass shared.now.gate.now) (P.sessions shared.now.played.now) maker.numbers →
        IfOk result (λ made. MayPassFor (G.may_pass shared.now.gate.now)
        (P.sessions shared.now.played.now) made.0.numbers) }
    ensures closed { result ≡ Err ReplayFault.GateClosed →
        HasStop (G.may_stop shared.now.gate.now) (P.sessions shared.now.played.now) }
{
    let rt = shared.rt;
    if left == 0 {
        return gather(rt, shared.bell, maker, inboxes, sessions);
    }
    let Some(sender) = open_lane(shared.alloc, shared.capacity, inboxes) else {
        drop(gather(rt, shared.bell, maker, inboxes, sessions));
        return Err(ReplayFault::Memory);
    };
    let (maker, seat) = shared.claims.split(maker);
    let of = Snapshot::of(&sender);
    let Some(started) = start(scope, shared, seat, sender) else {
        drop(inboxes.pop());
        drop(gather(rt, shared.bell, maker, inboxes, sessions));
        return Err(ReplayFault::Memory);
    };
    let below = run_workers(scope, shared, maker, left - 1, inboxes, sessions);
    let done = join(shared, of, started);
    let Some(inbox) = inboxes.pop() else {
        unreachable!()
    };
    settle(shared.claims, shared.played, below, done, inbox)
}

/// Plays a job with so many workers: the maker that has joined them all, and the items of each session.
pub(crate) fn all_started<'s, 'e, P: Playable + Sync, R: Threads + Wait + Sync, G: Gate + Sync>(
    scope: &'s Scope<'s, &'e ()>,
    shared: &Shared<'e, P, R, G>,
    maker: Maker,
    workers: usize,
    blank: Sessions<P::Piece>,
) -> Result<(Maker, Sessions<P::Piece>), ReplayFault>
where
    P::Run: Send,
    requires capacity { 1 ≤ shared.now.capacity }
    requires workers { (1 ≤ workers) × (workers ≤ MOST_SEATS) }
    requires maker { (maker.of ≡ shared.now.claims.now) × (maker.made ≡ 0) × (maker.joined ≡ 0) × (maker.numbers ≡ []) }
    requires job { shared.now.claims.now.total ≡ length (P.sessions shared.now.played.now) }
    requires blank { blank ≡ replicate (length (P.sessions shared.now.played.now)) [] }
    ensures workers { result ≢ Err ReplayFault.Workers }
    ensures lost { result ≢ Err ReplayFault.LaneLost }
    ensures all { IfOk result
        (λ made. IsAll (P.sessions shared.now.played.now) shared.now.claims.now workers made.0 made.1) }
    ensures passed { IfOk result
        (λ made. MayPassFor (G.may_pass shared.now.gate.now) (P.sessions shared.now.played.now) made.0.numbers) }
    ensures closed { result ≡ Err ReplayFault.GateClosed →
        HasStop (G.may_stop shared.now.gate.now) (P.sessions shared.now.played.now) }
{
    let mut inboxes = Vec::new(shared.alloc);
    run_workers(scope, shared, maker, workers, &mut inboxes, Some(blank))
}
