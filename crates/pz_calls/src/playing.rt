//! The calls that take the text of a file of sessions.

use pz_session::{Case, FileFault, Item, Job, Order, Run, frames, prepare, read_sessions};
use std::alloc::{AllocError, Global};

/// More items than a session of the files that are played shows.
const MANY: usize = 10_000;

/// The job of a file of sessions, whose levels are by rows.
pub(crate) fn job_of(alloc: Global, text: &str) -> Result<Job, AllocError> {
    match read_sessions(alloc, text) {
        Ok(entries) => prepare(alloc, entries, Order::Rows),
        Err(_) => Err(AllocError),
    }
}

/// What `read_sessions` answers.
pub(crate) fn read(alloc: Global, text: &str) -> Result<String, AllocError> {
    match read_sessions(alloc, text) {
        Ok(entries) => format!(in alloc; "{} entries\n", entries.len()),
        Err(FileFault::Memory) => Err(AllocError),
        Err(fault) => format!(in alloc; "{fault:?}\n"),
    }
}

/// What `prepare` answers.
pub(crate) fn prepared(alloc: Global, text: &str) -> Result<String, AllocError> {
    let job = job_of(alloc, text)?;
    format!(in alloc; "{} cases\n", job.len())
}

/// Tells an item, with its number if it is a frame.
fn tell_item(told: &mut String, alloc: Global, item: &Item) -> Result<(), AllocError> {
    match item {
        Item::Frame {
            number,
            kind,
            at,
            level_text,
        } => {
            let length = level_text.plain(alloc)?.len();
            told.push_str(format!(in alloc; "{number} {kind:?} {at} {length};")?.as_str())
        }
        Item::Close(verdict) => told.push_str(format!(in alloc; "{verdict:?}\n")?.as_str()),
    }
}

/// What `frames` answers of each case.
pub(crate) fn shown(alloc: Global, text: &str) -> Result<String, AllocError> {
    let job = job_of(alloc, text)?;
    let mut told = String::new(alloc);
    for number in 0..job.len() {
        let items = frames(alloc, job.case(number))?;
        for item in items.as_slice() {
            tell_item(&mut told, alloc, item)?;
        }
    }
    Ok(told)
}

/// Tells the next item of a run, and whether there was one. If memory was refused, it is refused once more.
fn tell_next(told: &mut String, alloc: Global, run: &mut Run<'_>) -> Result<bool, AllocError> {
    match run.next() {
        Ok(Some(item)) => {
            tell_item(told, alloc, &item)?;
            Ok(true)
        }
        Ok(None) => Ok(false),
        Err(fault) => {
            if run.next().is_ok() {
                told.push_str("goes on behind a refusal\n")?;
                return Ok(false);
            }
            Err(fault)
        }
    }
}

/// What is told of a run, item by item.
fn tell_run(told: &mut String, alloc: Global, case: &Case) -> Result<(), AllocError> {
    let mut run = Run::new(alloc, case)?;
    for _turn in 0..MANY {
        if !tell_next(told, alloc, &mut run)? {
            return Ok(());
        }
    }
    told.push_str("no end\n")
}

/// What `Run::next` answers of each case.
pub(crate) fn run(alloc: Global, text: &str) -> Result<String, AllocError> {
    let job = job_of(alloc, text)?;
    let mut told = String::new(alloc);
    for number in 0..job.len() {
        tell_run(&mut told, alloc, job.case(number))?;
    }
    Ok(told)
}
