//! The checks of a text: its length, and its headings.

ghost use Rattle.std.specs.Prelude.{◌≡◌, IfOk, IfErr, IfSome, None, Ok};
ghost use Rattle.pz_base.specs.Fault.{and_then};
ghost use Rattle.pz_text.specs.Check.{too_long, misplaced_heading, has_section, missing_section, lines_of};
ghost use Rattle.pz_base.specs.declared.fault.Code.TheVariants as code;

use crate::characters::characters;
use crate::cutting::cut;
use crate::line::{Line, Section};
use crate::section::{is_heading_of, place_of};
use pz_base::fault::{Code, SourceFault};
use std::alloc::{AllocError, Global};

/// The most bytes that a source may have. Rule `limits.source`.
pub const MOST_BYTES: usize = 1_048_576;

/// Promises the limit as a number, so that changing the constant alone breaks a proof.
pub fn sources_are_limited()
    ensures { MOST_BYTES ≡ 1_048_576 }
{}

/// `TooLong`, with line 0, if the text has more bytes than a source may have. Rule `checks.length`.
pub fn too_long(text: &str) -> Option<SourceFault>
    ensures { result ≡ too_long text.now }
{
    if text.len() > MOST_BYTES {
        Some(SourceFault {
            code: Code::TooLong,
            line: 0,
        })
    } else {
        None
    }
}

/// `Section` at the first heading that is out of the order of the sections, or repeated. Rule `sections.order`.
pub fn misplaced_heading(lines: &[Line]) -> Option<SourceFault>
    ensures first { result ≡ misplaced_heading lines.now }
    ensures code { IfSome result (λ fault. fault.code ≡ code.Section) }
{
    let mut least = 0;
    for line in lines {
        if line.is_heading {
            let place = place_of(line.section);
            if place < least {
                return Some(SourceFault {
                    code: Code::Section,
                    line: line.number,
                });
            }
            least = place + 1;
        }
    }
    None
}

fn has_section(section: Section, lines: &[Line]) -> bool
    ensures { result ≡ has_section section lines.now }
{
    lines.iter().any(|line| is_heading_of(section, line))
}

/// `Section`, with line 0, if OBJECTS, LEGEND, COLLISIONLAYERS or LEVELS is missing. Rule `checks.sections`.
pub fn missing_section(lines: &[Line]) -> Option<SourceFault>
    ensures { result ≡ missing_section lines.now }
{
    if has_section(Section::Objects, lines)
        && has_section(Section::Legend, lines)
        && has_section(Section::Layers, lines)
        && has_section(Section::Levels, lines)
    {
        None
    } else {
        Some(SourceFault {
            code: Code::Section,
            line: 0,
        })
    }
}

/// The lines of a text, or its first fault: `TooLong`, then `Section`. No memory is asked for where it is `TooLong`.
pub fn read_lines(alloc: Global, text: &str) -> Result<Result<Vec<Line>, SourceFault>, AllocError>
    ensures read { IfOk result (λ read. and_then (λ lines. Ok lines.items) read ≡ lines_of text.now) }
    ensures short { IfErr result (λ _. too_long text.now ≡ None) }
{
    if let Some(fault) = too_long(text) {
        return Ok(Err(fault));
    }
    let characters = characters(alloc, text)?;
    let lines = cut(alloc, characters.as_slice())?;
    if let Some(fault) = misplaced_heading(lines.as_slice()) {
        return Ok(Err(fault));
    }
    if let Some(fault) = missing_section(lines.as_slice()) {
        return Ok(Err(fault));
    }
    Ok(Ok(lines))
}
