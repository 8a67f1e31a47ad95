//! The line of an item: compact JSON, its keys in the order of their bytes, and a line feed. It is written after the lines before
//! it.

ghost use Rattle.std.specs.Prelude.{◌≡◌, ◌++◌, IfOk, OnOk};
ghost use Rattle.pz_lines.specs.Lines.{frame_count, frame_line, close_line, is_from, item_line, with_cause};
ghost use Rattle.pz_lines.specs.Naming.{cause_name};

use crate::naming::{cause_name, close_name, quoted_kind};
use crate::parts::{put_json, put_number, put_quoted, put_text};
use pz_case::item::{FrameKind, Item, Verdict};
use pz_json_text::quoted::QuotedText;
use std::alloc::{AllocError, Global};

/// Room for what a line has beside its text.
const ROOM: usize = 128;

/// Writes the line of a frame.
fn write_frame(
    lines: Vec<u8>,
    session: u64,
    number: u64,
    kind: FrameKind,
    at: u64,
    level_text: &QuotedText,
) -> Result<Vec<u8>, AllocError>
    ensures { IfOk result (λ written. written.items ≡ lines.items ++ frame_line session number kind at level_text.now) }
{
    let mut lines = lines;
    lines.reserve(ROOM + level_text.as_json().len())?;
    put_number(&mut lines, b"{\"at\":", at)?;
    put_number(&mut lines, b",\"frame\":", number)?;
    put_json(&mut lines, b",\"kind\":", quoted_kind(kind))?;
    put_quoted(&mut lines, b",\"level\":", level_text)?;
    put_number(&mut lines, b",\"session\":", session)?;
    lines.extend_from_slice(b"}\n")?;
    Ok(lines)
}

/// Writes the cause of a close, if it has one. Rule `program.causes`.
fn put_cause(alloc: Global, lines: &mut Vec<u8>, verdict: Verdict) -> Result<(), AllocError>
    ensures { OnOk result (lines.new.items ≡ lines.old.items ++ with_cause (cause_name verdict)) }
{
    match cause_name(alloc, verdict)? {
        None => Ok(()),
        Some(cause) => {
            put_text(lines, b"\"cause\":", cause.as_str())?;
            lines.extend_from_slice(b",")
        }
    }
}

/// Writes the line of a close.
fn write_close(
    alloc: Global,
    lines: Vec<u8>,
    session: u64,
    name: &str,
    frames: u64,
    verdict: Verdict,
) -> Result<Vec<u8>, AllocError>
    ensures { IfOk result (λ written. written.items ≡ lines.items ++ close_line session name.now frames verdict) }
{
    let mut closed = lines;
    closed.extend_from_slice(b"{")?;
    put_cause(alloc, &mut closed, verdict)?;
    put_text(&mut closed, b"\"close\":", close_name(verdict))?;
    put_number(&mut closed, b",\"frames\":", frames)?;
    put_text(&mut closed, b",\"name\":", name)?;
    put_number(&mut closed, b",\"session\":", session)?;
    closed.extend_from_slice(b"}\n")?;
    Ok(closed)
}

/// How many of the items are frames.
pub(crate) fn frame_count(items: &[Item]) -> u64
    ensures { result ≡ frame_count items.now }
{
    items
        .iter()
        .filter(|item| matches!(item, Item::Frame { .. }))
        .count() as u64
}

/// Writes the line of an item of a session, whose name and number of frames the close tells. Rule `program.lines`.
pub fn write_item(
    alloc: Global,
    lines: Vec<u8>,
    session: u64,
    name: &str,
    frames: u64,
    item: &Item,
) -> Result<Vec<u8>, AllocError>
    ensures { IfOk result (λ written. written.items ≡ lines.items ++ item_line session name.now frames item.now) }
{
    match item {
        Item::Frame {
            number,
            kind,
            at,
            level_text,
        } => write_frame(lines, session, *number, *kind, *at, level_text),
        Item::Close(verdict) => write_close(alloc, lines, session, name, frames, *verdict),
    }
}

/// Whether an item is shown from an input on. The close is, and so is a frame that is shown after so many inputs or more.
pub fn is_from(from: u64, item: &Item) -> bool
    ensures { result ≡ is_from from item.now }
{
    match item {
        Item::Frame { at, .. } => from <= *at,
        Item::Close(_) => true,
    }
}
