//! The replay of a file of sessions over lanes of one message.

use crate::gate::ClosedTo;
use crate::playing::job_of;
use pz_replay::{Always, Gate, Output, Recording, ReplayFault, replay_with, write_recording};
use std::alloc::{AllocError, Global};
use std::sync::Wait;
use std::thread::Threads;

/// The number of workers that the second word says.
pub(crate) fn workers(words: &[String]) -> usize {
    match words.get(1) {
        Some(word) => word.parse::<usize>().unwrap_or(1),
        None => 1,
    }
}

/// The lines of a recording.
fn lines_of(alloc: Global, recording: &Recording) -> Result<String, AllocError> {
    let mut lines = Output::new(Vec::new(alloc));
    write_recording(alloc, recording, &mut lines).map_err(|_| AllocError)?;
    String::from_utf8(lines.into_writer()).map_err(|_| AllocError)
}

/// What `replay_with` answers by so many workers, each of whose lanes holds one message.
fn answered<R: Threads + Wait + Sync, G: Gate + Sync>(
    rt: &R,
    alloc: Global,
    workers: usize,
    text: &str,
    gate: &G,
) -> Result<String, AllocError> {
    let job = job_of(alloc, text)?;
    match replay_with(rt, alloc, &job, workers, 1, gate) {
        Ok(recording) => lines_of(alloc, &recording),
        Err(ReplayFault::Memory) => Err(AllocError),
        Err(fault) => format!(in alloc; "{fault:?}\n"),
    }
}

/// What it answers if the gate is always open.
pub(crate) fn replayed<R: Threads + Wait + Sync>(
    rt: &R,
    alloc: Global,
    workers: usize,
    text: &str,
) -> Result<String, AllocError> {
    answered(rt, alloc, workers, text, &Always)
}

/// What it answers if the gate is closed to the second item of the second session.
pub(crate) fn stopped<R: Threads + Wait + Sync>(
    rt: &R,
    alloc: Global,
    workers: usize,
    text: &str,
) -> Result<String, AllocError> {
    let gate = ClosedTo {
        session: 1,
        item: 1,
    };
    answered(rt, alloc, workers, text, &gate)
}
