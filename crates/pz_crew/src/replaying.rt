//! The replay of a job, by several workers.

ghost use Rattle.std.specs.Prelude.{◌≡◌, ◌≢◌, ◌↔◌, ◌⊎◌, ◌<◌, ◌≤◌, [], length, replicate, Err, IfOk};
ghost use Rattle.pz_crew.specs.Gates.{HasStop, MayPassAll, MayPassFor};
ghost use Rattle.pz_crew.specs.Workers.{IsAll};

use crate::fault::ReplayFault;
use crate::gate::Gate;
use crate::playing::Playable;
use crate::recorder::Sessions;
use crate::workers::{Shared, all_started};
use pz_claims::{Claims, Maker};
use std::alloc::Global;
use std::sync::Wait;
use std::thread;
use std::thread::{Parker, Threads};

/// The most workers that play a job.
pub const MOST_WORKERS: usize = 64;

/// Promises the limit as a number, so that changing the constant alone breaks a proof.
pub fn workers_are_limited()
    ensures { MOST_WORKERS ≡ 64 }
{}

/// How many workers are started: no more than there are sessions, but at least one.
fn crew_for(workers: usize, sessions: usize) -> usize
    requires { 1 ≤ workers }
    ensures some { 1 ≤ result }
    ensures few { result ≤ workers }
{
    workers.min(sessions).max(1)
}

/// What every session of a job shows, by session number. At most so many workers play the sessions, each in a thread of its own and over a
/// lane that holds `capacity` messages; the calling thread records while they play. No worker is started without a session for it. Err:
/// `Workers`, if their number is not from 1 to 64, which is tested first; else `Memory`, if a growth or the start of a thread was refused;
/// or `GateClosed`, if the gate answered false. Of several the one named first is answered. No lane is lost: each worker hands its end
/// back. Rule `program.threads`.
pub fn replay_with<'a, P: Playable + Sync, R: Threads + Wait + Sync, G: Gate + Sync>(
    rt: &'a R,
    alloc: Global,
    played: &'a P,
    workers: usize,
    capacity: usize,
    gate: &'a G,
) -> Result<Sessions<P::Piece>, ReplayFault>
where
    P::Run: Send,
    requires capacity { 1 ≤ capacity }
    ensures workers { (result ≡ Err ReplayFault.Workers) ↔ ((workers ≡ 0) ⊎ (MOST_WORKERS < workers)) }
    ensures sessions { IfOk result (λ s. s ≡ P.sessions played.now) }
    ensures passed { IfOk result (λ _. MayPassAll (G.may_pass gate.now) (P.sessions played.now)) }
    ensures closed { result ≡ Err ReplayFault.GateClosed → HasStop (G.may_stop gate.now) (P.sessions played.now) }
    ensures whole { result ≢ Err ReplayFault.LaneLost }
{
    if workers == 0 || workers > MOST_WORKERS {
        return Err(ReplayFault::Workers);
    }
    let count = played.count();
    let Ok(blank) = Sessions::blank(alloc, count) else {
        return Err(ReplayFault::Memory);
    };
    let Ok((claims, maker)) = Claims::new(alloc, count) else {
        return Err(ReplayFault::Memory);
    };
    let bell = Parker::new();
    let table = &claims;
    let ring = &bell;
    let started = crew_for(workers, count);
    let all = thread::scope(
        thread::scope_env(),
        rt,
        |scope| -> Result<(Maker, Sessions<P::Piece>), ReplayFault>
            requires { (1 ≤ capacity) × (1 ≤ started) × (started ≤ MOST_WORKERS) × (maker.of ≡ table.now) ×
                (maker.made ≡ 0) × (maker.joined ≡ 0) × (maker.numbers ≡ []) ×
                (table.now.total ≡ length (P.sessions played.now)) ×
                (blank ≡ replicate (length (P.sessions played.now)) []) }
            ensures { IfOk result (λ made. IsAll (P.sessions played.entry.now) table.entry.now started made.0 made.1) ×
                IfOk result (λ made. MayPassFor (G.may_pass gate.entry.now)
                (P.sessions played.entry.now) made.0.numbers) ×
                (result ≡ Err ReplayFault.GateClosed →
                HasStop (G.may_stop gate.entry.now) (P.sessions played.entry.now)) ×
                (result ≢ Err ReplayFault.Workers) × (result ≢ Err ReplayFault.LaneLost) }
        {
            let shared = Shared {
                rt,
                alloc,
                claims: table,
                played,
                gate,
                bell: ring,
                capacity,
            };
            all_started(scope, &shared, maker, started, blank)
        },
    );
    let (maker, sessions) = all?;
    claims.close(maker);
    Ok(sessions)
}
