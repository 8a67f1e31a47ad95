//! The lines of the firings of a group or a loop.

ghost use Rattle.std.specs.Prelude.{◌≡◌, ◌++◌, ◌<◌, ℕ, IfOk, IfSome, List, MatchOption, None, OnOk, Some, false, flat_map, length, true};
ghost use Rattle.pz_program.specs.Instance.{IsBlockOf, IsProgramOf};
ghost use Rattle.pz_sheet.specs.Grid.{IsOfGame};
ghost use Rattle.pz_trace.specs.FiringPlay.{with_level};
ghost use Rattle.pz_stages.specs.Firings.{behind_part, block_at, firing_line, firing_lines, lines_before, place_text, places_text};
ghost use Rattle.pz_stages.specs.Writer.{IsWriterOf};

use crate::detail::Detail;
use crate::naming::{dir_name, part_name};
use crate::stage_line::{Place, headings_of, put_block, put_bracketed, put_level, put_list};
use pz_grid::{Level, placing};
use pz_level_text::text_writer::TextWriter;
use pz_lines::parts::{put_number, put_text};
use pz_program::instance::{Block, Program};
use pz_trace::firing::Places;
use pz_trace::{Firing, Firings, Part};
use pz_turn::StepFault;
use std::alloc::{AllocError, Global};

/// Adds a place, with a comma before it.
fn put_place(texts: &mut Vec<u8>, place: placing::Place) -> Result<(), AllocError>
    ensures { OnOk result (texts.new.items ≡ texts.old.items ++ place_text place) }
{
    put_number(texts, b",[", place.x as u64)?;
    put_number(texts, b",", place.y as u64)?;
    put_number(texts, b",", place.gap as u64)?;
    texts.extend_from_slice(b"]")
}

/// Adds a combination of places, with a comma before it.
fn put_places(texts: &mut Vec<u8>, places: &[placing::Place]) -> Result<(), AllocError>
    ensures { OnOk result (texts.new.items ≡ texts.old.items ++ places_text places.now) }
{
    let mut inner = Vec::new(*texts.allocator());
    for place in places {
        put_place(&mut inner, *place)?;
    }
    texts.extend_from_slice(b",")?;
    put_bracketed(texts, &inner)
}

/// The combinations of places at which an instance changed a cell, each with a comma before it.
fn places_of(alloc: Global, all: &[Places]) -> Result<Vec<u8>, AllocError>
    ensures { IfOk result (λ texts. texts.items ≡ flat_map places_text all.now) }
{
    let mut texts = Vec::new(alloc);
    for places in all {
        put_places(&mut texts, places.items())?;
    }
    Ok(texts)
}

/// Puts the line of a firing behind others.
fn put_firing(
    lines: &mut Vec<u8>,
    texts: &mut TextWriter<'_>,
    place: Place<'_, '_>,
    part: Part,
    firing: &Firing,
    level: &Level,
) -> Result<(), AllocError>
    requires { IsWriterOf place.board.now texts.old }
    ensures writer { IsWriterOf place.entry.board.now texts.new }
    ensures line { OnOk result
        (lines.new.items ≡ lines.old.items ++ firing_line place.entry.number place.entry.tick place.entry.board.now part
        (with_level firing.now level.now.grid)) }
{
    let alloc = *lines.allocator();
    let moment = firing.moment;
    lines.extend_from_slice(b"{")?;
    put_block(lines, part)?;
    put_text(lines, b"\"direction\":", dir_name(firing.scan))?;
    put_number(lines, b",\"group\":", moment.group as u64)?;
    put_list(
        lines,
        b",\"headings\":",
        &headings_of(alloc, place.board.game(), level)?,
    )?;
    put_number(lines, b",\"input\":", place.number)?;
    put_number(lines, b",\"instance\":", moment.instance as u64)?;
    put_level(lines, texts, level)?;
    put_number(lines, b",\"line\":", firing.line as u64)?;
    put_number(lines, b",\"pass\":", moment.pass)?;
    put_list(
        lines,
        b",\"places\":",
        &places_of(alloc, firing.places.items())?,
    )?;
    put_number(lines, b",\"round\":", moment.round)?;
    put_text(lines, b",\"stage\":", part_name(part))?;
    put_number(lines, b",\"tick\":", place.tick)?;
    lines.extend_from_slice(b"}\n")?;
    Ok(())
}

/// Puts the next firing of a block behind those before it. False: there is none, or no more.
fn put_next(
    lines: &mut Vec<u8>,
    texts: &mut TextWriter<'_>,
    place: Place<'_, '_>,
    part: Part,
    firings: &mut Firings<'_>,
) -> Result<bool, AllocError>
    requires { IsWriterOf place.board.now texts.old }
    ensures writer { IsWriterOf place.entry.board.now texts.new }
    ensures more { IfOk result
        (λ more. more ≡ true → lines.new.items ++ flat_map
        (firing_line place.entry.number place.entry.tick place.entry.board.now part) firings.new.sequence.firings ≡
        lines.old.items ++ flat_map
        (firing_line place.entry.number place.entry.tick place.entry.board.now part) firings.old.sequence.firings) }
    ensures over { IfOk result
        (λ more. more ≡ false → lines.new.items ≡
        lines.old.items ++ flat_map
        (firing_line place.entry.number place.entry.tick place.entry.board.now part) firings.old.sequence.firings) }
    ensures fewer { IfOk result
        (λ more. more ≡ true → length firings.new.sequence.firings < length firings.old.sequence.firings) }
{
    match firings.next() {
        Ok(Some(firing)) => {
            put_firing(lines, texts, place, part, &firing, firings.level())?;
            Ok(true)
        }
        Err(StepFault::Memory) => Err(AllocError),
        Ok(None) | Err(StepFault::LoopLimit | StepFault::MatchLimit) => Ok(false),
    }
}

/// Puts the firings of a block as it leads on from a level.
fn put_block_firings(
    lines: &mut Vec<u8>,
    texts: &mut TextWriter<'_>,
    place: Place<'_, '_>,
    part: Part,
    block: &Block,
    level: &Level,
) -> Result<(), AllocError>
    requires writer { IsWriterOf place.board.now texts.old }
    requires level_of { IsOfGame place.board.now.game level.now.grid }
    requires block_of { IsBlockOf place.board.now.game.layers block.now }
    ensures writer { IsWriterOf place.entry.board.now texts.new }
    ensures lines { OnOk result (lines.new.items ≡ lines.old.items ++
        firing_lines place.entry.number place.entry.tick place.entry.board.now part (Some block.now) level.now.grid) }
{
    let mut firings = Firings::new(*lines.allocator(), place.board.game(), block, level)?;
    'firings: while put_next(lines, texts, place, part, &mut firings)? {}
    Ok(())
}

/// The part behind one, if it is a block that is there.
fn part_behind(program: &Program, last: Part) -> Option<Part>
    ensures { MatchOption result (block_at program.now (behind_part last) ≡ None) (λ part. part ≡ behind_part last) }
{
    match last {
        Part::Input => Some(Part::Early(0)),
        Part::Early(number) if number < program.early().len() => Some(Part::Early(number + 1)),
        Part::Movement => Some(Part::Late(0)),
        Part::Late(number) if number < program.late().len() => Some(Part::Late(number + 1)),
        Part::Early(_) | Part::Late(_) | Part::End => None,
    }
}

/// The block of a part, if there is one.
fn block_at(program: &Program, part: Part) -> Option<&Block>
    ensures block { MatchOption result (block_at program.now part ≡ None)
        (λ block. block_at program.now part ≡ Some block.now) }
    ensures of_game { (layers : List ℕ) → IsProgramOf layers program.now →
        IfSome result (λ block. IsBlockOf layers block.now) }
{
    match part {
        Part::Early(number) => program.early().get(number),
        Part::Late(number) => program.late().get(number),
        Part::Input | Part::Movement | Part::End => None,
    }
}

/// Puts the firings of the block behind a part, if there is one, as it leads on from a level.
fn put_behind(
    lines: &mut Vec<u8>,
    texts: &mut TextWriter<'_>,
    place: Place<'_, '_>,
    last: Part,
    level: &Level,
) -> Result<(), AllocError>
    requires writer { IsWriterOf place.board.now texts.old }
    requires level_of { IsOfGame place.board.now.game level.now.grid }
    ensures writer { IsWriterOf place.entry.board.now texts.new }
    ensures lines { OnOk result
        (lines.new.items ≡ lines.old.items ++ firing_lines place.entry.number place.entry.tick place.entry.board.now
        (behind_part last) (block_at place.entry.board.now.program (behind_part last)) level.now.grid) }
{
    // (brings the proof that the session has one game)
    let _level = place.board.level();
    let program = place.board.program();
    let Some(part) = part_behind(program, last) else {
        return Ok(());
    };
    match block_at(program, part) {
        Some(block) => put_block_firings(lines, texts, place, part, block, level),
        None => Ok(()),
    }
}

/// Puts what is told before the part behind this one, which leads on from a level.
#[tactic(auto, unfolding(crate::specs::Firings::lines_before))]
pub(crate) fn put_before(
    lines: &mut Vec<u8>,
    texts: &mut TextWriter<'_>,
    place: Place<'_, '_>,
    detail: Detail,
    last: Part,
    level: &Level,
) -> Result<(), AllocError>
    requires writer { IsWriterOf place.board.now texts.old }
    requires level_of { IsOfGame place.board.now.game level.now.grid }
    ensures writer { IsWriterOf place.entry.board.now texts.new }
    ensures lines { OnOk result (lines.new.items ≡ lines.old.items ++
        lines_before detail place.entry.number place.entry.tick place.entry.board.now last level.now.grid) }
{
    match detail {
        Detail::Stages => Ok(()),
        Detail::Firings => put_behind(lines, texts, place, last, level),
    }
}
