//! The work of one worker.

ghost use Rattle.std.specs.Prelude.{◌≡◌};

use crate::sessions::{ClosedTo, WALK, job_of};
use pz_replay::{Always, Claims, End, Gate, Message, SentAll, Taker, lane, work};
use pz_session::Job;
use std::alloc::{AllocError, Global};
use std::sync::Wait;
use std::test::Fail;
use std::thread::Threads;

/// Two walks, each of three frames and its close.
fn walks<R: Threads + Sync>(rt: &R, alloc: Global) -> Result<Job, Fail> {
    let text = format!(in alloc; "[{WALK},{WALK}]")?;
    job_of(rt, alloc, text.as_str(), 2)
}

/// What was taken from a lane.
#[derive(Clone, Copy, Debug, PartialEq, Eq)]
enum Taken {
    ItemOf(usize),
    LastOf(End),
    Nothing,
}

fn take_next(taker: &mut Taker) -> Taken {
    match taker.try_take() {
        Some(Message::Piece(session, _)) => Taken::ItemOf(session),
        Some(Message::Last(end)) => Taken::LastOf(end),
        None => Taken::Nothing,
    }
}

/// All that was taken from a lane on which nothing more is sent.
fn take_all(alloc: Global, taker: &mut Taker, all: &mut SentAll) -> Result<Vec<Taken>, AllocError>
    requires { all.old.lane ≡ taker.old.lane }
{
    let mut taken = Vec::new(alloc);
    for _ in 0..taker.left(all) {
        taken.push(take_next(taker))?;
    }
    Ok(taken)
}

/// How a worker that plays two walks ends, and what it sends. Another worker may have claimed the first.
fn played<R: Threads + Wait + Sync, G: Gate>(
    rt: &R,
    alloc: Global,
    is_claimed: bool,
    gate: &G,
) -> Result<(End, Vec<Taken>), Fail> {
    let job = walks(rt, alloc)?;
    let (claims, maker) = Claims::new(alloc, job.len())?;
    let (maker, other) = claims.split(maker);
    let (_, seat) = claims.split(maker);
    if is_claimed {
        let _ = claims.claim(other);
    }
    let (sender, mut taker) = lane(alloc, 16)?;
    let worked = work(rt, alloc, &claims, seat, sender, &job, gate);
    let mut all = worked.sent.ok_or("the taker is there")?;
    Ok((worked.end, take_all(alloc, &mut taker, &mut all)?))
}

const FIRST: Taken = Taken::ItemOf(0);

const SECOND: Taken = Taken::ItemOf(1);

#[test]
fn sends_two_walks(rt: HostRuntime) -> Result<(), Fail> {
    let (end, sent) = played(&rt, rt.alloc(), false, &Always)?;
    let last = Taken::LastOf(End::Finished);
    assert!(rt;
        sent.as_slice()
            == [
                FIRST, FIRST, FIRST, FIRST, SECOND, SECOND, SECOND, SECOND, last
            ]
            .as_slice()
    );
    assert_eq!(rt; end, End::Finished);
    Ok(())
}

#[test]
fn leaves_what_others_claimed(rt: HostRuntime) -> Result<(), Fail> {
    let (end, sent) = played(&rt, rt.alloc(), true, &Always)?;
    let last = Taken::LastOf(End::Finished);
    assert!(rt; sent.as_slice() == [SECOND, SECOND, SECOND, SECOND, last].as_slice());
    assert_eq!(rt; end, End::Finished);
    Ok(())
}

#[test]
fn ends_where_the_gate_is_closed(rt: HostRuntime) -> Result<(), Fail> {
    let gate = ClosedTo {
        session: 1,
        item: 3,
    };
    let (end, sent) = played(&rt, rt.alloc(), false, &gate)?;
    assert_eq!(rt; (end, sent.len()), (End::GateClosed, 8));
    Ok(())
}
