//! The playing of a file's sessions, one after another in the calling thread.

ghost use Rattle.std.specs.Prelude.{◌≡◌, ◌≢◌, ◌≤◌, ◌+◌, ◌++◌, ◌∷◌, [], ◌&&◌, ◌||◌, None, Some, Ok, Err, IfOk, IfErr, OnOk, drop, length, take};
ghost use Rattle.pz_entries.specs.declared.fault.FileFault.TheVariants as fault;
ghost use Rattle.pz_case.specs.Playing.{shown_by};
ghost use Rattle.pz_lines.specs.Lines.{frame_count, item_line, lines_from, text_from, text_of};
ghost use Rattle.pz_session.specs.Case.{items_of};
ghost use Rattle.pz_session.specs.Recording.{recording};
ghost use Rattle.pz_engine.specs.Engine.{IsPlayed, line_from, next_piece};
ghost use Rattle.pz_engine.specs.Sessions.{all_passed, has_passed, is_pass, sessions_in};

use crate::sessions::{decode, is_pass};
use pz_case::case::Case;
use pz_case::item::Item;
use pz_case::job::Job;
use pz_entries::fault::FileFault;
use pz_job::job::prepare;
use pz_lines::line::{is_from, write_item};
use pz_lines::packed::{PackedLines, Packer};
use pz_record::order::Order;
use pz_session::laws::cases_close_once;
use pz_session::run::Run;
use std::alloc::{AllocError, Global};

/// The lines of what the sessions of a file showed, and whether every session passed.
#[derive(Drop)]
pub struct Played {
    pub lines: Vec<u8>,
    pub passed: bool,
}

/// The lines of what a session showed, or of a piece of it, and whether they tell that it passed.
#[derive(Drop)]
pub struct PlayedCase {
    pub lines: PackedLines,
    pub passed: bool,
}

/// What is written of a session that is played: the lines of its items so far; how many of these items are frames; and whether they
/// say that the session passed.
#[derive(Drop)]
struct Written {
    lines: Packer,
    frames: u64,
    passed: bool,
}

/// Packs the line of an item of a session, whose name and number of frames the close tells.
fn add_line(
    alloc: Global,
    lines: &mut Packer,
    session: u64,
    name: &str,
    frames: u64,
    item: &Item,
) -> Result<(), AllocError>
    ensures { OnOk result (lines.new ≡ lines.old ++ item_line session name.now frames item.now) }
{
    let line = write_item(alloc, lines.room(), session, name, frames, item)?;
    lines.push(line)
}

/// How many frames there are with one more item. If no `u64` holds the count, the answer is want of memory; no session has so
/// many.
fn counted(frames: u64, item: &Item) -> Result<u64, AllocError>
    ensures { IfOk result (λ more. more ≡ frames + frame_count (item.now ∷ [])) }
{
    match item {
        Item::Frame { .. } => frames.checked_add(1).ok_or(AllocError),
        Item::Close(_) => Ok(frames),
    }
}

/// Takes in the next item of a session. Its line is written if it is shown from an input on.
fn add_item(
    alloc: Global,
    written: &mut Written,
    session: u64,
    name: &str,
    item: &Item,
    from: u64,
) -> Result<(), AllocError>
    ensures lines { OnOk result
        (written.new.lines ≡ written.old.lines ++ line_from from session name.now written.old.frames item.now) }
    ensures frames { OnOk result (written.new.frames ≡ written.old.frames + frame_count (item.now ∷ [])) }
    ensures passed { OnOk result (written.new.passed ≡ (written.old.passed || is_pass item.now)) }
{
    if is_from(from, item) {
        add_line(
            alloc,
            &mut written.lines,
            session,
            name,
            written.frames,
            item,
        )?;
    }
    written.frames = counted(written.frames, item)?;
    written.passed = written.passed || is_pass(item);
    Ok(())
}

/// Plays the session of a case, and packs the lines of its items from an input on. Each item is dropped before the next is played, so
/// that only one item is held at a time beside the lines.
pub fn play_case(
    alloc: Global,
    session: u64,
    case: &Case,
    from: u64,
) -> Result<PlayedCase, AllocError>
    ensures lines { IfOk result (λ played. played.lines ≡ lines_from from session (shown_by items_of case.now)) }
    ensures passed { IfOk result (λ played. played.passed ≡ has_passed (shown_by items_of case.now)) }
{
    // (brings the proof that the close is the last item, which tells how many frames there were)
    cases_close_once();
    let mut run = Run::new(alloc, case)?;
    let mut written = Written {
        lines: Packer::new(alloc),
        frames: 0,
        passed: false,
    };
    'items: while let Some(item) = run.next()? {
        add_item(
            alloc,
            &mut written,
            session,
            case.name.as_str(),
            &item,
            from,
        )?;
    }
    Ok(PlayedCase {
        lines: written.lines.finish(),
        passed: written.passed,
    })
}

/// The piece of a session that was written, if it has items, and how many frames were shown with it.
fn piece(written: Written, taken: usize, frames: &mut u64) -> Option<PlayedCase>
    ensures none { taken ≡ 0 → result ≡ None }
    ensures some { taken ≢ 0 → result ≡ Some (record { lines = written.lines; passed = written.passed }) }
    ensures frames { frames.new ≡ written.frames }
{
    let Written {
        lines,
        frames: shown,
        passed,
    } = written;
    *frames = shown;
    if taken == 0 {
        drop(lines);
        return None;
    }
    Some(PlayedCase {
        lines: lines.finish(),
        passed,
    })
}

/// Plays the next items of a session, at most so many, and packs their lines. `frames` counts those that were shown so far. None: no item
/// was left.
pub fn play_on(
    alloc: Global,
    session: u64,
    name: &str,
    run: &mut Run<'_>,
    frames: &mut u64,
    most: usize,
) -> Result<Option<PlayedCase>, AllocError>
    requires { 1 ≤ most }
    ensures piece { IfOk result (λ answer. answer ≡ next_piece session name.now frames.old most run.old.items) }
    ensures left { IfOk result (λ _. run.new.items ≡ drop most run.old.items) }
    ensures frames { IfOk result (λ _. frames.new ≡ frames.old + frame_count (take most run.old.items)) }
{
    let mut written = Written {
        lines: Packer::new(alloc),
        frames: *frames,
        passed: false,
    };
    for taken in 0..most {
        let Some(item) = run.next()? else {
            return Ok(piece(written, taken, frames));
        };
        add_item(alloc, &mut written, session, name, &item, 0)?;
    }
    Ok(piece(written, most, frames))
}

/// Plays every session of a job, and answers the lines of the items from an input on: the frames that are shown after so many inputs
/// or more, and each close.
#[tactic(auto, unfolding(pz_lines::specs::Lines::text_from))]
pub fn play(alloc: Global, job: &Job, from: u64) -> Result<Played, AllocError>
    ensures lines { IfOk result (λ played. played.lines.items ≡ text_from from (recording job.now)) }
    ensures passed { IfOk result (λ played. played.passed ≡ all_passed (recording job.now)) }
{
    let mut lines = Vec::new(alloc);
    let mut passed = true;
    for number in 0..job.len() {
        let played = play_case(alloc, number as u64, job.case(number), from)?;
        lines = played.lines.append_to(lines)?;
        passed = passed && played.passed;
    }
    Ok(Played { lines, passed })
}

/// Plays the sessions that the bytes of a file hold, the cells of each level in this order. Err: the file's first fault, as the
/// program tells it, or `Memory` if memory was refused.
pub fn lines(alloc: Global, bytes: &[u8], order: Order) -> Result<Played, FileFault>
    ensures played { IfOk result (IsPlayed text_of order bytes.now) }
    ensures refused { IfErr result (λ cause. cause ≢ fault.Memory → sessions_in bytes.now ≡ Err cause) }
{
    lines_from(alloc, bytes, order, 0)
}

/// The same, with only the lines of the items from an input on.
pub fn lines_from(alloc: Global, bytes: &[u8], order: Order, from: u64) -> Result<Played, FileFault>
    ensures played { IfOk result (IsPlayed (text_from from) order bytes.now) }
    ensures refused { IfErr result (λ cause. cause ≢ fault.Memory → sessions_in bytes.now ≡ Err cause) }
{
    let entries = decode(alloc, bytes)?;
    let job = prepare(alloc, entries, order)?;
    Ok(play(alloc, &job, from)?)
}
