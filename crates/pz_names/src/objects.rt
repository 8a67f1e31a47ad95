//! OBJECTS: its objects, and their names.

ghost use Rattle.std.specs.Prelude.{◌≡◌, ◌≤◌, ◌++◌, ◌∷◌, [], ℕ, suc, length, map, IfOk, Ok, None, false, All};
ghost use Rattle.std.specs.List.{list_all};
ghost use Rattle.pz_base.specs.Fault.{first_fault, unless, and_then};
ghost use Rattle.pz_names.specs.Objects.{object_names, is_blank, is_pixel, is_sprite_row, sprite_rows, is_wide, is_sprite, is_whole, behind_paragraph, paragraphs_within, paragraphs_of, name_line_of, has_repeat, paragraph_at, paragraph_fault, fault_below, misnames, objects_of, IsNamed};

use crate::name_line::NameLine;
use pz_base::fault::{Code, SourceFault};
use pz_base::listed::Listed;
use pz_base::name::Name;
use pz_base::name_set::NameSet;
use pz_game::limits::MOST_OBJECTS;
use pz_text::line::Line;
use pz_text::words::names_of;
use std::alloc::{AllocError, Global};

/// The most names that a source may have, all names of OBJECTS and LEGEND together. Rule `limits.names`.
pub const MOST_NAMES: usize = 1024;

/// Promises the limit as a number, so that changing the constant alone breaks a proof.
pub fn names_are_limited()
    ensures { MOST_NAMES ≡ 1024 }
{}

/// The lines of an object: its name line, and whether its colours and its sprite have the right form.
#[derive(Drop)]
pub struct Paragraph {
    pub line: NameLine,
    pub is_whole: bool,
}

/// Whether a line has only white space.
pub fn is_blank(line: &Line) -> bool
    ensures { result ≡ is_blank line.now }
{
    line.text.items().iter().all(|c| c.is_whitespace())
}

fn is_pixel(c: char) -> bool
    ensures { result ≡ is_pixel c }
{
    c == '.' || c.is_ascii_digit()
}

fn are_pixels(text: &[char]) -> bool
    ensures { result ≡ list_all is_pixel text.now }
{
    text.iter().all(|c| is_pixel(*c))
}

fn is_sprite_row(line: &Line) -> bool
    ensures { result ≡ is_sprite_row line.now }
{
    !is_blank(line) && are_pixels(line.text.items())
}

/// The sprite rows at the front, at most five of them. Rule `objects.sprites`.
pub fn sprite_rows(lines: &[Line]) -> &[Line]
    ensures rows { result.now ≡ sprite_rows 5 lines.now }
    ensures within { length result.now ≤ length lines.now }
{
    for (count, line) in lines.iter().enumerate() {
        if count == 5 || !is_sprite_row(line) {
            return &lines[..count];
        }
    }
    lines
}

fn is_sprite(rows: &[Line]) -> bool
    ensures { result ≡ is_sprite rows.now }
{
    rows.is_empty() || rows.len() == 5 && are_wide(rows)
}

fn is_wide(row: &Line) -> bool
    ensures { result ≡ is_wide row.now }
{
    row.text.items().len() == 5
}

fn are_wide(rows: &[Line]) -> bool
    ensures { result ≡ list_all is_wide rows.now }
{
    rows.iter().all(|row| is_wide(row))
}

/// Whether the lines after a name line begin with colours, and go on with no sprite or a whole one.
fn is_whole(lines: &[Line]) -> bool
    ensures { result ≡ is_whole lines.now }
{
    match lines.split_first() {
        Some((colours, rest)) => !is_blank(colours) && is_sprite(sprite_rows(rest)),
        None => false,
    }
}

/// What is left of the lines after a name line, without its colours and its sprite rows. Rule `text.blank-lines`.
fn behind_paragraph(lines: &[Line]) -> &[Line]
    ensures { result.now ≡ behind_paragraph lines.now }
{
    match lines.split_first() {
        Some((colours, rest)) if !is_blank(colours) => &rest[sprite_rows(rest).len()..],
        _ => lines,
    }
}

/// Adds the paragraph that a line begins, if the line isn't blank, and gives the lines after it.
fn read_paragraph<'a>(
    alloc: Global,
    found: &mut Vec<Paragraph>,
    line: &Line,
    others: &'a [Line],
) -> Result<&'a [Line], AllocError>
    ensures { IfOk result (λ after. (n : ℕ) →
        found.new.items ++ paragraphs_within n after.now ≡
        found.old.items ++ paragraphs_within (suc n) (line.now ∷ others.entry.now)) }
{
    if is_blank(line) {
        return Ok(others);
    }
    let names = names_of(alloc, line.text.items())?;
    found.push(Paragraph {
        line: NameLine {
            number: line.number,
            names,
        },
        is_whole: is_whole(others),
    })?;
    Ok(behind_paragraph(others))
}

/// The paragraphs of OBJECTS: each object with its name line, whether or not its form is right.
pub fn paragraphs_of(alloc: Global, lines: &[Line]) -> Result<Vec<Paragraph>, AllocError>
    ensures { IfOk result (λ found. found.items ≡ paragraphs_of lines.now) }
{
    let mut found = Vec::new(alloc);
    let mut rest = lines;
    for _step in 0..lines.len() {
        let Some((line, others)) = rest.split_first() else {
            break;
        };
        rest = read_paragraph(alloc, &mut found, line, others)?;
    }
    Ok(found)
}

/// Adds names up to the first that is there already, and says whether there was one.
fn note_names(alloc: Global, above: &mut NameSet, names: &[Name]) -> Result<bool, AllocError>
    ensures repeat { IfOk result (λ r. r ≡ has_repeat above.old names.now) }
    ensures noted { IfOk result (λ r. (r ≡ false) → above.new ≡ above.old ++ names.now) }
{
    for name in names {
        if above.contains(name.as_str()) {
            return Ok(true);
        }
        above.add(alloc, name.as_str())?;
    }
    Ok(false)
}

/// What is wrong with a paragraph, if anything: `BadObject`, `Duplicate` or `TooLarge`. `count` paragraphs stand above it. `repeats`: one of
/// its names is there already. With its own there are `total` names. Rule `checks.objects`.
fn paragraph_fault(paragraph: &Paragraph, repeats: bool, count: usize, total: usize) -> Option<Code>
    ensures { result ≡ paragraph_fault paragraph.now repeats count total }
{
    if !paragraph.is_whole {
        return Some(Code::BadObject);
    }
    if repeats {
        return Some(Code::Duplicate);
    }
    if count >= MOST_OBJECTS || total > MOST_NAMES {
        return Some(Code::TooLarge);
    }
    None
}

/// Adds the names of a paragraph with `count` others above it, or gives its fault.
fn note_paragraph(
    alloc: Global,
    above: &mut NameSet,
    count: usize,
    paragraph: &Paragraph,
) -> Result<Option<Code>, AllocError>
    ensures found { IfOk result (λ fault. fault ≡ fault_below above.old count paragraph.now) }
    ensures noted { IfOk result (λ fault. fault ≡ None → above.new ≡ above.old ++ paragraph.now.line.names) }
{
    let repeats = note_names(alloc, above, paragraph.line.names.items())?;
    Ok(paragraph_fault(paragraph, repeats, count, above.len()))
}

/// Adds the names of the paragraphs to an empty set, or gives the first fault of a paragraph.
fn note_paragraphs(
    alloc: Global,
    names: &mut NameSet,
    paragraphs: &[Paragraph],
) -> Result<Option<SourceFault>, AllocError>
    requires { names.old ≡ [] }
    ensures found { IfOk result (λ fault. fault ≡ first_fault paragraph_at misnames [] paragraphs.now) }
    ensures names { IfOk result
        (λ fault. fault ≡ None → names.new ≡ object_names (map name_line_of paragraphs.now)) }
{
    for (count, paragraph) in paragraphs.iter().enumerate() {
        if let Some(code) = note_paragraph(alloc, names, count, paragraph)? {
            return Ok(Some(SourceFault {
                code,
                line: paragraph.line.number,
            }));
        }
    }
    Ok(None)
}

/// The names of the paragraphs, or the first fault of a paragraph.
fn names_of_paragraphs(
    alloc: Global,
    paragraphs: &[Paragraph],
) -> Result<Result<NameSet, SourceFault>, AllocError>
    ensures { IfOk result
        (λ names. names ≡ unless (first_fault paragraph_at misnames [] paragraphs.now)
        (Ok (object_names (map name_line_of paragraphs.now)))) }
{
    let mut names = NameSet::new(alloc);
    if let Some(fault) = note_paragraphs(alloc, &mut names, paragraphs)? {
        return Ok(Err(fault));
    }
    Ok(Ok(names))
}

fn name_line_of(paragraph: Paragraph) -> NameLine
    ensures { result ≡ name_line_of paragraph }
{
    let Paragraph { line, is_whole: _ } = paragraph;
    line
}

fn name_lines(alloc: Global, paragraphs: Vec<Paragraph>) -> Result<Vec<NameLine>, AllocError>
    ensures { IfOk result (λ objects. objects.items ≡ map name_line_of paragraphs.items) }
{
    paragraphs.into_iter().map(name_line_of).collect(alloc)
}

/// The name line of each object, and all names of OBJECTS; or the first fault, at the name line of an object. It is `BadObject` (no colours
/// directly after the name line, or sprite rows that aren't five of five), `Duplicate` or `TooLarge`. Err: memory was refused.
/// Rule `objects.names`.
pub fn read_objects(
    alloc: Global,
    lines: &[Line],
) -> Result<Result<(Vec<NameLine>, NameSet), SourceFault>, AllocError>
    ensures read { IfOk result (λ read. and_then (λ both. Ok both.0.items) read ≡ objects_of lines.now) }
    ensures names { IfOk result (λ read. IfOk read (λ both. both.1 ≡ object_names both.0.items)) }
    ensures few { IfOk result (λ read. IfOk read (λ both. length both.0.items ≤ MOST_OBJECTS)) }
    ensures named { IfOk result (λ read. IfOk read (λ both. All IsNamed both.0.items)) }
{
    let paragraphs = paragraphs_of(alloc, lines)?;
    let names = or_fault!(names_of_paragraphs(alloc, paragraphs.as_slice())?);
    let objects = name_lines(alloc, paragraphs)?;
    Ok(Ok((objects, names)))
}
