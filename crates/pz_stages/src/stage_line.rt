//! The line of a stage.

ghost use Rattle.std.specs.Prelude.{◌≡◌, ◌++◌, IfOk, OnOk, codes, decimal, flat_map, slice_get};
ghost use Rattle.json.specs.Print.{quoted};
ghost use Rattle.pz_level_text.specs.LevelText.{text_of_level};
ghost use Rattle.pz_turn.specs.declared.outcome.StepFault.{StepFault};
ghost use Rattle.pz_session.specs.Turn.{stop_of};
ghost use Rattle.pz_trace.specs.Tracing.{with_level};
ghost use Rattle.pz_stages.specs.Parts.{block_text, json_list, command_names, headings_of, lines_text, source_lines};
ghost use Rattle.pz_stages.specs.Stages.{stage_line, stop_line};
ghost use Rattle.pz_stages.specs.Writer.{IsWriterOf};

use crate::heading::put_headings;
use crate::naming::{bool_text, part_name, put_commands};
use pz_case::item::Stop;
use pz_game::game::Game;
use pz_grid::Level;
use pz_level_text::text_writer::TextWriter;
use pz_lines::naming::stop_name;
use pz_lines::parts::{put_json, put_number, put_quoted, put_text};
use pz_program::commands::Commands;
use pz_program::instance::{Block, Program};
use pz_record::order::Order;
use pz_session::board::Board;
use pz_trace::{Part, Stage, lines_of};
use std::alloc::{AllocError, Global};

/// What a line of stages tells of its step: where the session stands, the number of the input, and that of the step.
#[derive(Clone, Copy)]
pub(crate) struct Place<'b, 'a> {
    pub board: &'b Board<'a>,
    pub number: u64,
    pub tick: u64,
}

/// Puts texts that each begin with a comma as a JSON list: the first comma is left out.
pub(crate) fn put_bracketed(line: &mut Vec<u8>, texts: &[u8]) -> Result<(), AllocError>
    ensures { OnOk result (line.new.items ≡ line.old.items ++ json_list texts.now) }
{
    let (_, behind) = texts.split_at(texts.len().min(1));
    line.extend_from_slice(b"[")?;
    line.extend_from_slice(behind)?;
    line.extend_from_slice(b"]")
}

/// Puts a list of what was gathered, with its key.
pub(crate) fn put_list(line: &mut Vec<u8>, key: &[u8], texts: &[u8]) -> Result<(), AllocError>
    ensures { OnOk result (line.new.items ≡ line.old.items ++ (key.now ++ json_list texts.now)) }
{
    line.extend_from_slice(key)?;
    put_bracketed(line, texts)
}

/// Puts the number of a block.
pub(crate) fn put_block(line: &mut Vec<u8>, part: Part) -> Result<(), AllocError>
    ensures { OnOk result (line.new.items ≡ line.old.items ++ block_text part) }
{
    match part {
        Part::Early(number) | Part::Late(number) => {
            put_number(line, b"\"block\":", number as u64)?;
            line.extend_from_slice(b",")
        }
        _ => Ok(()),
    }
}

/// Adds the lines of the source that a block comes from, each with a comma before it.
fn put_numbers(texts: &mut Vec<u8>, lines: &[u32]) -> Result<(), AllocError>
    ensures { OnOk result (texts.new.items ≡
        texts.old.items ++ flat_map (λ line. codes "," ++ decimal line) lines.now) }
{
    for line in lines {
        put_number(texts, b",", *line as u64)?;
    }
    Ok(())
}

/// The lines of the source that the block of a number comes from, each with a comma before it.
fn source_lines(
    alloc: Global,
    game: &Game,
    blocks: &[Block],
    number: usize,
) -> Result<Vec<u8>, AllocError>
    ensures { IfOk result (λ texts. texts.items ≡ source_lines game.now.rules (slice_get blocks.now number)) }
{
    let mut texts = Vec::new(alloc);
    if let Some(block) = blocks.get(number) {
        let lines = lines_of(alloc, game, block)?;
        put_numbers(&mut texts, &lines)?;
    }
    Ok(texts)
}

/// Puts the lines of the source that a part comes from, if it is a block.
fn put_source(
    alloc: Global,
    line: &mut Vec<u8>,
    game: &Game,
    program: &Program,
    part: Part,
) -> Result<(), AllocError>
    ensures { OnOk result (line.new.items ≡ line.old.items ++ lines_text game.now.rules program.now part) }
{
    match part {
        Part::Early(number) => {
            let lines = source_lines(alloc, game, program.early(), number)?;
            put_list(line, b",\"lines\":", &lines)
        }
        Part::Late(number) => {
            let lines = source_lines(alloc, game, program.late(), number)?;
            put_list(line, b",\"lines\":", &lines)
        }
        _ => Ok(()),
    }
}

/// The names of commands, each with a comma before it.
fn commands_of(alloc: Global, commands: Commands) -> Result<Vec<u8>, AllocError>
    ensures { IfOk result (λ names. names.items ≡ command_names commands) }
{
    let mut names = Vec::new(alloc);
    put_commands(&mut names, commands)?;
    Ok(names)
}

/// What heads somewhere in a level, each with a comma before it.
pub(crate) fn headings_of(alloc: Global, game: &Game, level: &Level) -> Result<Vec<u8>, AllocError>
    ensures { IfOk result (λ texts. texts.items ≡ headings_of game.now.objects level.now.grid) }
{
    let mut texts = Vec::new(alloc);
    put_headings(&mut texts, game.objects(), level)?;
    Ok(texts)
}

/// Puts the text of a level.
pub(crate) fn put_level(
    line: &mut Vec<u8>,
    texts: &mut TextWriter<'_>,
    level: &Level,
) -> Result<(), AllocError>
    ensures text { OnOk result
        (line.new.items ≡ line.old.items ++
        (codes ",\"level\":" ++ quoted (text_of_level texts.old.table.game texts.old.order level.now.grid))) }
    ensures game { texts.new.table.game ≡ texts.old.table.game }
    ensures order { texts.new.order ≡ texts.old.order }
{
    let text = texts.write(level.bare())?;
    put_quoted(line, b",\"level\":", &text)
}

/// Puts the line of a stage behind others.
pub(crate) fn put_stage(
    lines: &mut Vec<u8>,
    texts: &mut TextWriter<'_>,
    place: Place<'_, '_>,
    stage: Stage,
    level: &Level,
) -> Result<(), AllocError>
    requires { IsWriterOf place.board.now texts.old }
    ensures writer { IsWriterOf place.entry.board.now texts.new }
    ensures line { OnOk result
        (lines.new.items ≡ lines.old.items ++ stage_line place.entry.number place.entry.tick place.entry.board.now
        (with_level stage level.now.grid)) }
{
    let alloc = *lines.allocator();
    let board = place.board;
    let game = board.game();
    lines.extend_from_slice(b"{")?;
    put_block(lines, stage.part)?;
    put_json(lines, b"\"changed\":", bool_text(stage.changed))?;
    put_list(
        lines,
        b",\"commands\":",
        &commands_of(alloc, stage.commands)?,
    )?;
    put_list(lines, b",\"headings\":", &headings_of(alloc, game, level)?)?;
    put_number(lines, b",\"input\":", place.number)?;
    put_level(lines, texts, level)?;
    put_source(alloc, lines, game, board.program(), stage.part)?;
    put_text(lines, b",\"stage\":", part_name(stage.part))?;
    put_number(lines, b",\"tick\":", place.tick)?;
    lines.extend_from_slice(b"}\n")?;
    Ok(())
}

/// Puts the line of a stop behind others.
#[tactic(auto, unfolding(crate::specs::Stages::stop_line))]
pub(crate) fn put_stop(
    lines: &mut Vec<u8>,
    place: Place<'_, '_>,
    stop: Stop,
) -> Result<(), AllocError>
    ensures { OnOk result ((fault : StepFault) → stop_of fault ≡ stop →
        lines.new.items ≡ lines.old.items ++ stop_line place.entry.number place.entry.tick fault) }
{
    put_number(lines, b"{\"input\":", place.number)?;
    put_text(lines, b",\"stop\":", stop_name(stop))?;
    put_number(lines, b",\"tick\":", place.tick)?;
    lines.extend_from_slice(b"}\n")
}
