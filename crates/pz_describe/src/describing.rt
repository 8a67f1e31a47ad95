//! The description of a source, and its outline.

ghost use Rattle.std.specs.Prelude.{◌++◌, ◌∷◌, ◌≡◌, IfOk, OnOk, codes};
ghost use Rattle.json.specs.Print.{print};
ghost use Rattle.json.specs.Token.{key};
ghost use Rattle.pz_describe.specs.Description.{description_of, fault_in, fault_tokens, first_members, last_members, lines_of, outline_of, rules_in, source_tokens};

use crate::legend::put_legend;
use crate::levels::put_levels;
use crate::lines::put_lines;
use crate::objects::put_objects;
use crate::page::Page;
use crate::prelude::put_prelude;
use crate::program::put_program;
use crate::reading::{Reading, read, read_unexpanded};
use crate::sections::{put_layers, put_rules, put_wins};
use pz_base::fault::SourceFault;
use pz_lines::naming::code_name;
use pz_text::characters::characters;
use pz_text::check::too_long;
use pz_text::cutting::cut;
use pz_text::line::{Line, Section};
use pz_text::section::lines_in;
use std::alloc::{AllocError, Global};

fn put_fault(page: &mut Page, fault: SourceFault) -> Result<(), AllocError>
    ensures { OnOk result (page.new ≡ page.old ++ fault_tokens fault) }
{
    page.begin_object()?;
    page.key("code")?;
    page.string(code_name(fault.code))?;
    page.line(fault.line)?;
    page.end_object()
}

/// Puts the first fault of a source, or none.
fn put_fault_in(page: &mut Page, reading: &Reading) -> Result<(), AllocError>
    ensures { OnOk result (page.new ≡ page.old ++ key (codes "fault") ∷ fault_in reading.now) }
{
    page.key("fault")?;
    match reading {
        Reading::Refused(fault) | Reading::Unruled(_, fault) => put_fault(page, *fault),
        Reading::Unexpanded(_) | Reading::Whole(_, _) => page.null(),
    }
}

/// Puts the program of a source, or none.
fn put_rules_in(page: &mut Page, reading: &Reading) -> Result<(), AllocError>
    ensures { OnOk result (page.new ≡ page.old ++ key (codes "program") ∷ rules_in reading.now) }
{
    page.key("program")?;
    match reading {
        Reading::Whole(game, program) => put_program(page, game.rules(), program),
        Reading::Refused(_) | Reading::Unexpanded(_) | Reading::Unruled(_, _) => page.null(),
    }
}

/// Puts the members up to the levels.
fn put_first(
    alloc: Global,
    page: &mut Page,
    lines: &[Line],
    reading: &Reading,
) -> Result<(), AllocError>
    ensures { OnOk result (page.new ≡ page.old ++ first_members lines.now reading.now) }
{
    put_fault_in(page, reading)?;
    put_layers(alloc, page, lines_in(Section::Layers, lines))?;
    put_legend(alloc, page, reading, lines_in(Section::Legend, lines))?;
    put_levels(alloc, page, lines_in(Section::Levels, lines))
}

/// Puts the members from the lines on.
fn put_last(
    alloc: Global,
    page: &mut Page,
    lines: &[Line],
    reading: &Reading,
) -> Result<(), AllocError>
    ensures { OnOk result (page.new ≡ page.old ++ last_members lines.now reading.now) }
{
    put_lines(alloc, page, lines)?;
    put_objects(alloc, page, reading, lines_in(Section::Objects, lines))?;
    put_prelude(alloc, page, lines_in(Section::Prelude, lines))?;
    put_rules_in(page, reading)?;
    put_rules(alloc, page, lines_in(Section::Rules, lines))?;
    put_wins(alloc, page, lines_in(Section::Wins, lines))
}

/// Puts what is told of the lines of a source, of which this was read.
fn put_source(
    alloc: Global,
    page: &mut Page,
    lines: &[Line],
    reading: &Reading,
) -> Result<(), AllocError>
    ensures { OnOk result (page.new ≡ page.old ++ source_tokens lines.now reading.now) }
{
    page.begin_object()?;
    put_first(alloc, page, lines, reading)?;
    put_last(alloc, page, lines, reading)?;
    page.end_object()
}

/// The lines of a source; none of one that is too long.
fn lines_of(alloc: Global, source: &str) -> Result<Vec<Line>, AllocError>
    ensures { IfOk result (λ lines. lines.items ≡ lines_of source.now) }
{
    if too_long(source).is_some() {
        return Ok(Vec::new(alloc));
    }
    let characters = characters(alloc, source)?;
    cut(alloc, &characters)
}

/// The text that tells a source of which this was read.
fn tell(alloc: Global, source: &str, reading: &Reading) -> Result<Vec<u8>, AllocError>
    ensures { IfOk result (λ text. text.items ≡ print (source_tokens (lines_of source.now) reading.now)) }
{
    let lines = lines_of(alloc, source)?;
    let mut page = Page::new(alloc);
    put_source(alloc, &mut page, &lines, reading)?;
    Ok(page.into_text())
}

/// What the engine has read of a source, as JSON text without spaces: its first fault, or null; each section line by line, with what it
/// means where the source is a game; and the program of its rules, or null. Of a source that is refused the sections are told too; of one
/// that is too long no line is told. Err: memory was refused.
#[tactic(auto, unfolding(crate::specs::Description::tokens_of))]
pub fn describe(alloc: Global, source: &str) -> Result<Vec<u8>, AllocError>
    ensures { IfOk result (λ text. text.items ≡ description_of source.now) }
{
    let reading = read(alloc, source)?;
    tell(alloc, source, &reading)
}

/// The outline of a source: its description without the program of its rules, and without a fault that is found as rules are expanded. None is, so
/// no rule adds to its time but by its own length. Err: memory was refused.
#[tactic(auto, unfolding(crate::specs::Description::outline_tokens_of))]
pub fn outline(alloc: Global, source: &str) -> Result<Vec<u8>, AllocError>
    ensures { IfOk result (λ text. text.items ≡ outline_of source.now) }
{
    let reading = read_unexpanded(alloc, source)?;
    tell(alloc, source, &reading)
}
