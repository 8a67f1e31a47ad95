//! The lines of LEVELS.

ghost use Rattle.std.specs.Prelude.{◌≡◌, ◌≤◌, ◌<◌, ◌+◌, ◌*◌, ◌^◌, length, drop, [], IfOk, OnOk, Ok, ◌++◌, map, take, option_map, get_or, true};
ghost use Rattle.pz_base.specs.Fault.{and_then};
ghost use Rattle.std.specs.List.{list_any, slice_range};
ghost use Rattle.pz_game.specs.Level.{is_playable};
ghost use Rattle.pz_source.specs.Levels.{is_message, rows_if_any, entries_of, is_entry, glyph_of, glyphs_of, row_of_length, is_too_large, row_of, rows_of, entry_of, levels_of};

use crate::glyphs::Glyphs;
use pz_base::fault::{Code, SourceFault};
use pz_base::listed::Listed;
use pz_base::name_set::NameSet;
use pz_game::denotation::Denotation;
use pz_game::level::{DrawnLevel, LevelEntry};
use pz_game::limits::{MOST_CELLS, MOST_SIDE};
use pz_names::objects::is_blank;
use pz_text::heading::begins_with_word;
use pz_text::line::Line;
use std::alloc::{AllocError, Global};

/// The most entries that a source may have. Rule `limits.entries`.
pub const MOST_ENTRIES: usize = 1_024;

/// Promises the limit as a number, so that changing the constant alone breaks a proof.
pub fn entries_are_limited()
    ensures { MOST_ENTRIES ≡ 1_024 }
{}

/// Whether a line of LEVELS is a message.
pub fn is_message(line: &Line) -> bool
    ensures { result ≡ is_message line.now }
{
    begins_with_word(line.text.items(), b"message")
}

/// The entries of LEVELS, each with its lines: the line of a message, or the rows of a level. Rule `levels.entries`.
pub fn entries<'a>(alloc: Global, lines: &'a [Line]) -> Result<Vec<&'a [Line]>, AllocError>
    ensures { IfOk result (λ entries. map (λ entry. entry.now) entries.items ≡ entries_of [] lines.entry.now) }
{
    let mut entries = Vec::new(alloc);
    let mut start = 0;
    for place in 0..lines.len() {
        start = pass(&mut entries, lines, start, place)?;
    }
    close(&mut entries, &lines[start..])?;
    Ok(entries)
}

/// Takes the line at `place` into account. The rows from `start` up to it belong to an open level. Gives where the rows of the level that
/// is open after the line start. Rule `text.blank-lines`.
fn pass<'a>(
    entries: &mut Vec<&'a [Line]>,
    lines: &'a [Line],
    start: usize,
    place: usize,
) -> Result<usize, AllocError>
    requires within { start ≤ place }
    requires below { place < length lines.now }
    ensures after { IfOk result
        (λ next. map (λ entry. entry.now) entries.new.items ++ entries_of (slice_range lines.entry.now next (place + 1))
        (drop (place + 1) lines.entry.now) ≡
        map (λ entry. entry.now) entries.old.items ++ entries_of (slice_range lines.entry.now start place)
        (drop place lines.entry.now)) }
    ensures behind { IfOk result (λ next. next ≤ place + 1) }
{
    let line = &lines[place];
    if is_blank(line) {
        close(entries, &lines[start..place])?;
        return Ok(place + 1);
    }
    if is_message(line) {
        close(entries, &lines[start..place])?;
        entries.push(&lines[place..place + 1])?;
        return Ok(place + 1);
    }
    Ok(start)
}

fn close<'a>(entries: &mut Vec<&'a [Line]>, rows: &'a [Line]) -> Result<(), AllocError>
    ensures { OnOk result (map (λ entry. entry.now) entries.new.items ≡
        map (λ entry. entry.now) entries.old.items ++ rows_if_any rows.entry.now) }
{
    if !rows.is_empty() {
        entries.push(rows)?;
    }
    Ok(())
}

/// The numbers of the names that the glyphs of a row stand for, if all of them draw something.
fn numbers_of(
    alloc: Global,
    glyphs: &mut Glyphs,
    row: &[char],
) -> Result<Option<Vec<usize>>, AllocError>
    ensures numbers { IfOk result
        (λ r. option_map (λ found. found.items) r ≡ glyphs_of (glyph_of glyphs.old.names glyphs.old.values) row.now) }
    ensures same { glyphs.new ≡ glyphs.old }
{
    let mut found = Vec::new(alloc);
    found.reserve(row.len())?;
    for character in row {
        let Some(number) = glyphs.number_of(alloc, *character)? else {
            return Ok(None);
        };
        found.push(number)?;
    }
    Ok(Some(found))
}

/// Adds a row of this width to the cells. A shorter row is filled with its own last glyph. Rule `levels.short-rows`.
fn add_row(cells: &mut Vec<usize>, width: usize, row: &[usize]) -> Result<(), AllocError>
    ensures cells { OnOk result (cells.new.items ≡ cells.old.items ++ row_of_length width 0 row.now) }
    ensures count { OnOk result (length cells.new.items ≡ length cells.old.items + width) }
{
    let mut last = 0;
    for column in 0..width {
        last = next_glyph(row, column, last);
        cells.push(last)?;
    }
    Ok(())
}

fn next_glyph(row: &[usize], column: usize, last: usize) -> usize
    ensures { result ≡ get_or row.now column last }
{
    row.get(column).copied().unwrap_or(last)
}

/// The cells of the rows of a level, or `BadGlyph` at the first row with a glyph that draws nothing.
/// Rules `levels.glyphs`, `levels.long-rows`.
fn rows(
    alloc: Global,
    glyphs: &mut Glyphs,
    width: usize,
    lines: &[Line],
) -> Result<Result<Vec<usize>, SourceFault>, AllocError>
    requires { width * length lines.now < 2 ^ 64 }
    ensures read { IfOk result
        (λ read. and_then (λ cells. Ok cells.items) read ≡
        rows_of (glyph_of glyphs.old.names glyphs.old.values) width lines.now) }
    ensures count { IfOk result (λ read. IfOk read (λ cells. length cells.items ≡ width * length lines.now)) }
    ensures same { glyphs.new ≡ glyphs.old }
{
    let mut cells = Vec::new(alloc);
    cells.reserve(width * lines.len())?;
    for line in lines {
        let Some(row) = numbers_of(alloc, glyphs, cut_to(line.text.items(), width))? else {
            return Ok(Err(SourceFault {
                code: Code::BadGlyph,
                line: line.number,
            }));
        };
        add_row(&mut cells, width, row.as_slice())?;
    }
    Ok(Ok(cells))
}

fn cut_to(text: &[char], width: usize) -> &[char]
    ensures { result.now ≡ take width text.now }
{
    if width < text.len() {
        &text[..width]
    } else {
        text
    }
}

fn is_too_large(width: usize, height: usize) -> bool
    ensures { result ≡ is_too_large width height }
{
    width > MOST_SIDE || height > MOST_SIDE || width * height > MOST_CELLS
}

/// The entry with these lines, or its first fault. `above` is the number of entries above it.
fn read_entry(
    alloc: Global,
    glyphs: &mut Glyphs,
    above: usize,
    lines: &[Line],
) -> Result<Result<LevelEntry, SourceFault>, AllocError>
    requires { is_entry lines.now ≡ true }
    ensures read { IfOk result
        (λ entry. entry ≡ entry_of (glyph_of glyphs.old.names glyphs.old.values) above lines.now) }
    ensures same { glyphs.new ≡ glyphs.old }
{
    let Some((first, _)) = lines.split_first() else {
        return Ok(Ok(LevelEntry::Message));
    };
    if above >= MOST_ENTRIES {
        return Ok(Err(SourceFault {
            code: Code::TooLarge,
            line: first.number,
        }));
    }
    if is_message(first) {
        return Ok(Ok(LevelEntry::Message));
    }
    let width = first.text.items().len();
    let height = lines.len();
    if is_too_large(width, height) {
        return Ok(Err(SourceFault {
            code: Code::TooLarge,
            line: first.number,
        }));
    }
    let cells = or_fault!(rows(alloc, glyphs, width, lines)?);
    let level = DrawnLevel::new(width as u32, height as u32, Listed::new(cells));
    Ok(Ok(LevelEntry::Level(level)))
}

/// The entries of LEVELS, or their first fault: `TooLarge` or `BadGlyph` of an entry, then `NoLevel`, with line 0, if no entry is a level.
/// Err: memory was refused. Rule `checks.levels`.
pub fn read_levels(
    alloc: Global,
    names: &NameSet,
    values: &[Denotation],
    lines: &[Line],
) -> Result<Result<Vec<LevelEntry>, SourceFault>, AllocError>
    ensures { IfOk result
        (λ read. and_then (λ entries. Ok entries.items) read ≡
        levels_of (glyph_of names.now values.now) lines.now) }
{
    let blocks = entries(alloc, lines)?;
    let mut glyphs = Glyphs::new(names, values);
    let mut read = Vec::new(alloc);
    for block in &blocks {
        let entry = or_fault!(read_entry(alloc, &mut glyphs, read.len(), block)?);
        read.push(entry)?;
    }
    if !any_playable(read.as_slice()) {
        return Ok(Err(SourceFault {
            code: Code::NoLevel,
            line: 0,
        }));
    }
    Ok(Ok(read))
}

fn any_playable(entries: &[LevelEntry]) -> bool
    ensures { result ≡ list_any is_playable entries.now }
{
    entries.iter().any(|entry| entry.playable())
}
