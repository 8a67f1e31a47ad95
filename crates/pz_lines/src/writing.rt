//! The writing of a recording.

ghost use Rattle.std.specs.Prelude.{◌≡◌, ◌++◌, ℕ, None, List, OnOk, IfOk, IfErr};
ghost use Rattle.std.specs.List.{concat};
ghost use Rattle.pz_lines.specs.Lines.{lines_of, text_of};
ghost use Rattle.pz_lines.specs.Writing.{EndsFor, HasWritten, IsSent, IsSentInPart};

use crate::fault::{Cause, WriteFault};
use crate::line::{frame_count, write_item};
use crate::output::Output;
use crate::packed::{PackedLines, unpack};
use pz_case::recording::{Record, Recording};
use std::alloc::Global;
use std::io::Write;

/// Writes lines and counts their bytes, those written before them included. If no u64 holds the count, the writing ends as at a
/// device's fault; no recording is so long.
fn write_lines<W: Write>(
    lines: &[u8],
    written: &mut u64,
    output: &mut Output<W>,
) -> Result<(), Cause>
    requires { output.old.failure ≡ None }
    ensures ok { OnOk result (IsSent lines.now written.old written.new output.old output.new) }
    ensures err { IfErr result (IsSentInPart lines.now written.old written.new output.old output.new) }
{
    let Some(all) = written.checked_add(lines.len() as u64) else {
        return Err(Cause::Device);
    };
    match output.write_whole(lines) {
        Ok(()) => {
            *written = all;
            Ok(())
        }
        Err(fault) => {
            *written += fault.written;
            Err(fault.cause)
        }
    }
}

/// Writes the lines of what a session showed, each by itself, and counts their bytes, those written before them included.
fn write_session<W: Write>(
    alloc: Global,
    session: u64,
    shown: &Record,
    written: &mut u64,
    output: &mut Output<W>,
) -> Result<(), Cause>
    requires { output.old.failure ≡ None }
    ensures ok { OnOk result (IsSent (lines_of session shown.now) written.old written.new output.old output.new) }
    ensures err { IfErr result
        (IsSentInPart (lines_of session shown.now) written.old written.new output.old output.new) }
{
    let items = shown.items.items();
    let frames = frame_count(items);
    let mut line = Vec::new(alloc);
    for item in items {
        line.clear();
        let name = shown.name.as_str();
        let Ok(next) = write_item(alloc, line, session, name, frames, item) else {
            return Err(Cause::Memory);
        };
        write_lines(next.as_slice(), written, output)?;
        line = next;
    }
    Ok(())
}

/// Writes the text of a recording: all of it, or as many first bytes as the fault tells. Each write is handed the whole rest of one
/// line. After a failed write nothing more is written.
#[tactic(auto, unfolding(crate::specs::Lines::text_of))]
pub fn write_recording<W: Write>(
    alloc: Global,
    recording: &Recording,
    output: &mut Output<W>,
) -> Result<(), WriteFault>
    requires { output.old.failure ≡ None }
    ensures ok { OnOk result (HasWritten (text_of recording.now) output.old output.new) }
    ensures err { IfErr result (λ fault. EndsFor fault (text_of recording.now) output.old output.new) }
{
    let mut written = 0;
    for (session, shown) in recording.records().iter().enumerate() {
        if let Err(cause) = write_session(alloc, session as u64, shown, &mut written, output) {
            return Err(WriteFault { written, cause });
        }
    }
    Ok(())
}

/// Packed lines go out together once they have so many bytes, however many sessions they are of.
const PIECE: usize = 65_536;

/// Writes lines if there are enough to go out together, and answers those that are left.
fn write_full<W: Write>(
    lines: Vec<u8>,
    written: &mut u64,
    output: &mut Output<W>,
) -> Result<Vec<u8>, Cause>
    requires { output.old.failure ≡ None }
    ensures ok { IfOk result (λ left. (sent : List ℕ) × (lines.items ≡ sent ++ left.items) ×
        IsSent sent written.old written.new output.old output.new) }
    ensures err { IfErr result (IsSentInPart lines.items written.old written.new output.old output.new) }
{
    let mut lines = lines;
    if lines.len() >= PIECE {
        write_lines(lines.as_slice(), written, output)?;
        lines.clear();
    }
    Ok(lines)
}

/// Puts packed lines after others, writes them whenever there are enough, and answers those that are left.
fn write_lines_of<W: Write>(
    before: Vec<u8>,
    packed: &PackedLines,
    written: &mut u64,
    output: &mut Output<W>,
) -> Result<Vec<u8>, Cause>
    requires { output.old.failure ≡ None }
    ensures ok { IfOk result (λ left. (sent : List ℕ) × (before.items ++ packed.now ≡ sent ++ left.items) ×
        IsSent sent written.old written.new output.old output.new) }
    ensures err { IfErr result
        (IsSentInPart (before.items ++ packed.now) written.old written.new output.old output.new) }
{
    let mut lines = before;
    let mut last = Vec::new(*lines.allocator());
    for part in &packed.parts {
        let Ok(()) = unpack(&packed.kept, *part, &mut last, &mut lines) else {
            return Err(Cause::Memory);
        };
        lines = write_full(lines, written, output)?;
    }
    Ok(lines)
}

/// Writes the packed lines of texts, one text after another, and counts their bytes, those written before them included.
fn write_texts<W: Write>(
    alloc: Global,
    texts: &[PackedLines],
    written: &mut u64,
    output: &mut Output<W>,
) -> Result<(), Cause>
    requires { output.old.failure ≡ None }
    ensures ok { OnOk result (IsSent (concat texts.now) written.old written.new output.old output.new) }
    ensures err { IfErr result (IsSentInPart (concat texts.now) written.old written.new output.old output.new) }
{
    // (asked for at once: while room grows, the C library keeps the smaller blocks that it left)
    let Ok(mut lines) = Vec::with_capacity(alloc, 2 * PIECE) else {
        return Err(Cause::Memory);
    };
    for packed in texts {
        lines = write_lines_of(lines, packed, written, output)?;
    }
    write_lines(&lines, written, output)?;
    Ok(())
}

/// Writes the packed lines of texts, one text after another: all of them, or as many first bytes as the fault tells. After a failed
/// write nothing more is written.
pub fn write_packed<W: Write>(
    alloc: Global,
    texts: &[PackedLines],
    output: &mut Output<W>,
) -> Result<(), WriteFault>
    requires { output.old.failure ≡ None }
    ensures ok { OnOk result (HasWritten (concat texts.now) output.old output.new) }
    ensures err { IfErr result (λ fault. EndsFor fault (concat texts.now) output.old output.new) }
{
    let mut written = 0;
    match write_texts(alloc, texts, &mut written, output) {
        Ok(()) => Ok(()),
        Err(cause) => Err(WriteFault { written, cause }),
    }
}
