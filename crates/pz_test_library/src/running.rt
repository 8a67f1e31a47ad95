//! The items of a case, one by one.

use crate::sample::expect;
use pz_session::{
    Case, FrameKind, Item, Job, Order, Refusal, Run, Stop, Verdict, frames, prepare, read_sessions,
};
use std::alloc::{AllocError, Global};
use std::test::Fail;

/// A walk of two steps against a wall, and a source that is refused.
const SESSIONS: &str =
    r#"[["walk",["OBJECTS\nBackground .\nblack\nPlayer p\nwhite\nWall #\ngrey\nLEGEND\nCOLLISIONLAYERS\nBackground\nPlayer, Wall\nLEVELS\n#p.#\n",[3,3],"background wall:0,background:1,background player:2,0,\n"]],["refused",["",[3],"background:0,\n"]]]"#;

fn job_of(alloc: Global) -> Result<Job, Fail> {
    let entries = read_sessions(alloc, SESSIONS).map_err(|_| "no sessions")?;
    Ok(prepare(alloc, entries, Order::Rows)?)
}

fn kind_name(kind: FrameKind) -> &'static str {
    match kind {
        FrameKind::Start => "start",
        FrameKind::Move => "move",
        FrameKind::Tick => "tick",
        FrameKind::Undo => "undo",
        FrameKind::Restart => "restart",
        FrameKind::Load => "load",
        FrameKind::Over => "over",
    }
}

fn close_name(verdict: Verdict) -> &'static str {
    match verdict {
        Verdict::Passed => "passed",
        Verdict::Differs => "differs",
        Verdict::Stopped(Stop::LoopLimit) => "loop-limit",
        Verdict::Stopped(Stop::AgainLimit) => "again-limit",
        Verdict::Stopped(Stop::MatchLimit) => "match-limit",
        Verdict::Refused(Refusal::Source(_)) => "refused",
        Verdict::Refused(Refusal::NoLevel) => "no-level",
    }
}

fn add_item(text: &mut String, alloc: Global, item: &Item) -> Result<(), AllocError> {
    match item {
        Item::Frame {
            number,
            kind,
            at,
            level_text,
        } => {
            let kind = kind_name(*kind);
            let level = level_text.plain(alloc)?;
            let level = level.as_str();
            text.push_str(format!(in alloc; "{number} {kind} {at} {level};")?.as_str())
        }
        Item::Close(verdict) => text.push_str(close_name(*verdict)),
    }
}

/// What a run shows when it is asked once more.
fn add_next(text: &mut String, alloc: Global, run: &mut Run<'_>) -> Result<(), AllocError> {
    match run.next()? {
        Some(item) => add_item(text, alloc, &item),
        None => text.push_str("|none"),
    }
}

/// What a run shows, asked so often.
fn run_text(alloc: Global, case: &Case, times: usize) -> Result<String, AllocError> {
    let mut run = Run::new(alloc, case)?;
    let mut text = String::new(alloc);
    for _ in 0..times {
        add_next(&mut text, alloc, &mut run)?;
    }
    Ok(text)
}

fn frames_text(alloc: Global, case: &Case) -> Result<String, AllocError> {
    let items = frames(alloc, case)?;
    let mut text = String::new(alloc);
    for item in items.as_slice() {
        add_item(&mut text, alloc, item)?;
    }
    Ok(text)
}

/// What a case of the job shows, and what it shows one by one, asked so often.
fn shown(alloc: Global, number: usize, times: usize) -> Result<(String, String), Fail> {
    let job = job_of(alloc)?;
    if number >= job.len() {
        return Err(Fail::new("no case"));
    }
    let case = job.case(number);
    Ok((frames_text(alloc, case)?, run_text(alloc, case, times)?))
}

const WALKED: &str =
    "0 start 0 background wall:0,background player:1,background:2,0,\n;1 move 1 background wall:0,background:1,background player:2,0,\n;2 move 2 background wall:0,background:1,background player:2,0,\n;passed";

#[test]
fn shows_a_walk_item_by_item(rt: HostRuntime) -> Result<(), Fail> {
    let (whole, single) = shown(rt.alloc(), 0, 4)?;
    expect(whole.as_str(), WALKED)?;
    expect(single.as_str(), WALKED)
}

#[test]
fn has_nothing_after_the_close(rt: HostRuntime) -> Result<(), Fail> {
    let (whole, single) = shown(rt.alloc(), 1, 3)?;
    expect(whole.as_str(), "refused")?;
    expect(single.as_str(), "refused|none|none")
}
