//! The lines of the stages of a step, and of the steps of an input.

ghost use Rattle.std.specs.Prelude.{◌≡◌, ◌++◌, ◌+◌, ◌<◌, ◌≢◌, IfOk, IfSome, None, OnOk, length};
ghost use Rattle.pz_sheet.specs.Grid.{IsOfGame};
ghost use Rattle.pz_turn.specs.declared.outcome.StepFault.TheVariants.{Memory};
ghost use Rattle.pz_trace.specs.Tracing.{with_level};
ghost use Rattle.pz_steps.specs.Steps.{taken_step};
ghost use Rattle.pz_stages.specs.Writer.{IsWriterOf};
ghost use Rattle.pz_stages.specs.Stages.{course_lines, input_lines, is_told, step_lines, stop_line, told_line};

use crate::detail::Detail;
use crate::firing_line::put_before;
use crate::stage_line::{Place, put_stage, put_stop};
use bitflags::Flags;
use pz_case::item::Stop;
use pz_grid::Level;
use pz_level_text::text_writer::TextWriter;
use pz_steps::Steps;
use pz_steps::steps::Step;
use pz_trace::{Part, Stage, Tracing};
use pz_turn::StepFault;
use std::alloc::{AllocError, Global};

/// Whether a stage is told: a block is if it changed something or gave a command, and every other stage always is. Rule `stages.quiet`.
fn is_told(stage: Stage, level: &Level) -> bool
    ensures { result ≡ is_told stage.part (with_level stage level.now.grid) }
{
    match stage.part {
        Part::Early(_) | Part::Late(_) => stage.changed || !stage.commands.is_empty(),
        _ => true,
    }
}

/// Puts the line of a stage behind others, if it is told.
fn put_told(
    lines: &mut Vec<u8>,
    texts: &mut TextWriter<'_>,
    place: Place<'_, '_>,
    stage: Stage,
    level: &Level,
) -> Result<(), AllocError>
    requires { IsWriterOf place.board.now texts.old }
    ensures writer { IsWriterOf place.entry.board.now texts.new }
    ensures line { OnOk result
        (lines.new.items ≡ lines.old.items ++ told_line place.entry.number place.entry.tick place.entry.board.now
        (with_level stage level.now.grid)) }
{
    if is_told(stage, level) {
        put_stage(lines, texts, place, stage, level)?;
    }
    Ok(())
}

/// Puts the stop of a step behind its stages.
fn put_fault(lines: &mut Vec<u8>, place: Place<'_, '_>, fault: StepFault) -> Result<(), AllocError>
    ensures { OnOk result ((fault ≢ Memory) ×
        (lines.new.items ≡ lines.old.items ++ stop_line place.entry.number place.entry.tick fault)) }
{
    match fault {
        StepFault::Memory => Err(AllocError),
        StepFault::LoopLimit => put_stop(lines, place, Stop::LoopLimit),
        StepFault::MatchLimit => put_stop(lines, place, Stop::MatchLimit),
    }
}

/// Puts the next stage of a step, or its stop, behind those before it, with what is told before it. The answer is its part; `None`: there
/// is none, or no more.
fn put_next(
    lines: &mut Vec<u8>,
    texts: &mut TextWriter<'_>,
    place: Place<'_, '_>,
    detail: Detail,
    last: Part,
    tracing: &mut Tracing<'_>,
) -> Result<Option<Part>, AllocError>
    requires writer { IsWriterOf place.board.now texts.old }
    requires level_of { IsOfGame place.board.now.game tracing.old.grid }
    ensures writer { IsWriterOf place.entry.board.now texts.new }
    ensures grid { tracing.new.grid ≡ tracing.old.grid }
    ensures more { IfOk result (λ part. IfSome part (λ part. lines.new.items ++
        course_lines detail place.entry.number place.entry.tick place.entry.board.now part tracing.new.level tracing.new.course ≡ lines.old.items ++ course_lines detail place.entry.number place.entry.tick place.entry.board.now last tracing.old.level tracing.old.course)) }
    ensures over { IfOk result (λ part. part ≡ None → lines.new.items ≡ lines.old.items ++
        course_lines detail place.entry.number place.entry.tick place.entry.board.now last tracing.old.level tracing.old.course) }
    ensures fewer { IfOk result
        (λ part. IfSome part (λ part. length tracing.new.course.stages < length tracing.old.course.stages)) }
{
    put_before(lines, texts, place, detail, last, tracing.level())?;
    match tracing.next() {
        Ok(Some(stage)) => {
            put_told(lines, texts, place, stage, tracing.level())?;
            Ok(Some(stage.part))
        }
        Ok(None) => Ok(None),
        Err(fault) => {
            put_fault(lines, place, fault)?;
            Ok(None)
        }
    }
}

/// Puts the stages of a step behind others.
fn put_step(
    lines: &mut Vec<u8>,
    step: &Step<'_, '_>,
    detail: Detail,
    number: u64,
    tick: u64,
) -> Result<(), AllocError>
    ensures { OnOk result (lines.new.items ≡
        lines.old.items ++ step_lines detail number tick (taken_step step.now.board.now step.now.input)) }
{
    let alloc = *lines.allocator();
    let board = step.board;
    let place = Place {
        board,
        number,
        tick,
    };
    let mut tracing = Tracing::new(
        alloc,
        board.game(),
        board.program(),
        board.level(),
        step.input,
    )?;
    let mut texts = TextWriter::new(alloc, board.game(), board.order());
    let mut last = Part::End;
    'stages: while let Some(part) = put_next(
        lines,
        &mut texts,
        place,
        detail,
        last,
        &mut tracing,
    )? {
        last = part;
    }
    Ok(())
}

/// The number of the next step. If no `u64` holds it, the answer is want of memory; no input has so many.
fn counted(tick: u64) -> Result<u64, AllocError>
    ensures { IfOk result (λ next. next ≡ tick + 1) }
{
    tick.checked_add(1).ok_or(AllocError)
}

/// The lines of the steps of an input.
pub(crate) fn input_lines(
    alloc: Global,
    steps: Steps<'_>,
    detail: Detail,
    number: u64,
) -> Result<Vec<u8>, AllocError>
    ensures { IfOk result (λ lines. lines.items ≡ input_lines detail number steps.entry) }
{
    let mut steps = steps;
    let mut lines = Vec::new(alloc);
    let mut tick = 0u64;
    'steps: while let Some(step) = steps.next() {
        put_step(&mut lines, &step, detail, number, tick)?;
        steps.advance()?;
        tick = counted(tick)?;
    }
    Ok(lines)
}
