//! The replay of a job by several workers.

use crate::sessions::{ClosedTo, FirstAlone, LONG, REFUSED, STALE, WALK, job_of, many_sources};
use pz_replay::{
    Always, Gate, Output, Record, Recording, ReplayFault, replay, replay_with, write_recording,
};
use pz_session::{Job, Listed, Text, frames};
use std::alloc::{AllocError, Global};
use std::sync::Wait;
use std::sync::atomic::{AtomicBool, Ordering};
use std::test::Fail;
use std::thread;
use std::thread::Threads;

fn nine_sessions<R: Threads + Sync>(rt: &R, alloc: Global) -> Result<Job, Fail> {
    let text = format!(in alloc;
        "[{WALK},{REFUSED},{STALE},{LONG},{WALK},{LONG},{STALE},{REFUSED},{WALK}]"
    )?;
    job_of(rt, alloc, text.as_str(), 2)
}

/// What the cases show, one after the other, in the calling thread.
fn one_by_one(alloc: Global, job: &Job) -> Result<Recording, AllocError> {
    let mut records = Vec::new(alloc);
    for session in 0..job.len() {
        let case = job.case(session);
        records.push(Record {
            name: Text::of_str(alloc, case.name.as_str())?,
            items: Listed::new(frames(alloc, case)?),
        })?;
    }
    Ok(Recording::new(records))
}

fn bytes_of(alloc: Global, recording: &Recording) -> Result<Vec<u8>, Fail> {
    let mut output = Output::new(Vec::new(alloc));
    write_recording(alloc, recording, &mut output).map_err(|_| "not written whole")?;
    Ok(output.into_writer())
}

/// Whether so many workers record these bytes, over lanes of one message and of 64.
fn records<R: Threads + Wait + Sync>(
    rt: &R,
    alloc: Global,
    job: &Job,
    workers: usize,
    bytes: &[u8],
) -> Result<bool, Fail> {
    let narrow = replay_with(rt, alloc, job, workers, 1, &Always).map_err(|_| "no recording")?;
    let wide = replay(rt, alloc, job, workers, &Always).map_err(|_| "no recording")?;
    Ok(bytes_of(alloc, &narrow)?.as_slice() == bytes && bytes_of(alloc, &wide)?.as_slice() == bytes)
}

#[test]
fn records_the_same_with_any_number_of_workers(rt: HostRuntime) -> Result<(), Fail> {
    let job = nine_sessions(&rt, rt.alloc())?;
    let bytes = bytes_of(rt.alloc(), &one_by_one(rt.alloc(), &job)?)?;
    for workers in [1, 2, 64] {
        assert!(rt; records(&rt, rt.alloc(), &job, workers, bytes.as_slice())?);
    }
    Ok(())
}

#[test]
fn plays_by_as_many_workers_as_a_table_has_seats(rt: HostRuntime) -> Result<(), Fail> {
    let job = walks(&rt, rt.alloc(), 70)?;
    let bytes = bytes_of(rt.alloc(), &one_by_one(rt.alloc(), &job)?)?;
    assert!(rt; records(&rt, rt.alloc(), &job, 64, bytes.as_slice())?);
    Ok(())
}

/// What a file of many sources shows if so many threads read them.
fn bytes_of_many<R: Threads + Sync>(
    rt: &R,
    alloc: Global,
    workers: usize,
) -> Result<Vec<u8>, Fail> {
    let text = many_sources(alloc, 32)?;
    let job = job_of(rt, alloc, text.as_str(), workers)?;
    bytes_of(alloc, &one_by_one(alloc, &job)?)
}

#[test]
fn prepares_the_same_with_any_number_of_threads(rt: HostRuntime) -> Result<(), Fail> {
    let bytes = bytes_of_many(&rt, rt.alloc(), 1)?;
    assert!(rt; bytes.len() > 1000);
    for workers in [0, 3, 64] {
        assert!(rt; bytes_of_many(&rt, rt.alloc(), workers)?.as_slice() == bytes.as_slice());
    }
    Ok(())
}

#[test]
fn refuses_other_numbers_of_workers(rt: HostRuntime) -> Result<(), Fail> {
    let job = nine_sessions(&rt, rt.alloc())?;
    for workers in [0, 65] {
        let end = replay(&rt, rt.alloc(), &job, workers, &Always);
        assert!(rt; matches!(end, Err(ReplayFault::Workers)));
    }
    Ok(())
}

/// Session 0 waits until the first item of another session may pass, and looks for that so many times.
#[derive(Drop)]
struct WaitsFor {
    session: usize,
    tries: u64,
    has_come: AtomicBool,
}

impl WaitsFor {
    fn new(session: usize, tries: u64) -> WaitsFor {
        WaitsFor {
            session,
            tries,
            has_come: AtomicBool::new(false),
        }
    }

    fn sees(&self) -> bool {
        for _ in 0..self.tries {
            if self.has_come.load(Ordering::SeqCst) {
                return true;
            }
            thread::yield_now();
        }
        false
    }
}

impl Gate for WaitsFor {
    ghost may_pass = { λ _ session item. Unit {0} };

    ghost may_stop = { λ _ session item. Unit {0} };

    fn pass(&self, session: usize, item: u64) -> bool {
        if (session, item) == (self.session, 0) {
            self.has_come.store(true, Ordering::SeqCst);
        }
        (session, item) != (0, 0) || self.sees()
    }
}

/// So many walks.
fn walks<R: Threads + Sync>(rt: &R, alloc: Global, count: usize) -> Result<Job, Fail> {
    let mut text = String::from_str(alloc, "[")?;
    for number in 0..count {
        text.push_str(if number == 0 { "" } else { "," })?;
        text.push_str(WALK)?;
    }
    text.push_str("]")?;
    job_of(rt, alloc, text.as_str(), 1)
}

fn end_of(answer: Result<Recording, ReplayFault>) -> Result<(), ReplayFault> {
    match answer {
        Ok(_) => Ok(()),
        Err(fault) => Err(fault),
    }
}

/// How a replay ends if session 0 waits for another, over lanes of one message and of 64.
fn ends<R: Threads + Wait + Sync>(
    rt: &R,
    alloc: Global,
    job: &Job,
    workers: usize,
    waits_for: usize,
    tries: u64,
) -> [Result<(), ReplayFault>; 2] {
    let gate = WaitsFor::new(waits_for, tries);
    let narrow = replay_with(rt, alloc, job, workers, 1, &gate);
    let gate = WaitsFor::new(waits_for, tries);
    let wide = replay(rt, alloc, job, workers, &gate);
    [end_of(narrow), end_of(wide)]
}

#[test]
fn plays_a_session_beside_one_that_waits(rt: HostRuntime) -> Result<(), Fail> {
    let nine = nine_sessions(&rt, rt.alloc())?;
    for session in [1, 2] {
        let found = ends(&rt, rt.alloc(), &nine, 2, session, 1_000_000_000);
        assert_eq!(rt; found, [Ok(()), Ok(())]);
    }
    for count in [2, 3] {
        let some = walks(&rt, rt.alloc(), count)?;
        let found = ends(&rt, rt.alloc(), &some, 2, count - 1, 1_000_000_000);
        assert_eq!(rt; found, [Ok(()), Ok(())]);
    }
    Ok(())
}

#[test]
fn plays_one_session_at_a_time_with_one_worker(rt: HostRuntime) -> Result<(), Fail> {
    for count in [2, 3] {
        let job = walks(&rt, rt.alloc(), count)?;
        let found = ends(&rt, rt.alloc(), &job, 1, count - 1, 1000);
        assert_eq!(rt;
            found,
            [Err(ReplayFault::GateClosed), Err(ReplayFault::GateClosed)]
        );
    }
    Ok(())
}

/// Whether a replay ends at each item of a session if the gate is closed to that item.
fn misses_each_item<R: Threads + Wait + Sync>(
    rt: &R,
    alloc: Global,
    job: &Job,
    session: usize,
    items: usize,
) -> bool {
    let mut missed = true;
    for item in 0..items as u64 {
        let gate = ClosedTo { session, item };
        let one = replay_with(rt, alloc, job, 1, 1, &gate);
        let three = replay_with(rt, alloc, job, 3, 1, &gate);
        missed = missed
            && matches!(one, Err(ReplayFault::GateClosed))
            && matches!(three, Err(ReplayFault::GateClosed));
    }
    missed
}

#[test]
fn misses_each_item_that_may_not_pass(rt: HostRuntime) -> Result<(), Fail> {
    let job = nine_sessions(&rt, rt.alloc())?;
    for session in 0..job.len() {
        let items = frames(rt.alloc(), job.case(session))?.len();
        assert!(rt; misses_each_item(&rt, rt.alloc(), &job, session, items));
    }
    Ok(())
}

#[test]
fn stops_behind_the_first_item_if_it_alone_may_pass(rt: HostRuntime) -> Result<(), Fail> {
    let job = nine_sessions(&rt, rt.alloc())?;
    let found = replay_with(&rt, rt.alloc(), &job, 2, 1, &FirstAlone);
    assert!(rt; matches!(found, Err(ReplayFault::GateClosed)));
    Ok(())
}
