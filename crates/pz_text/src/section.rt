//! The lines of a section.

ghost use Rattle.std.specs.Prelude.{◌≡◌, ◌<◌, ◌≤◌, ◌-◌, ◌++◌, length, drop};
ghost use Rattle.pz_text.specs.Section.{place_of, is_heading_of, before_heading, behind_heading, lines_in};

use crate::line::{Line, Section};

/// The place of a section in the order of the sections, from 0.
pub fn place_of(section: Section) -> u8
    ensures place { result ≡ place_of section }
    ensures within { result < 8 }
{
    match section {
        Section::Prelude => 0,
        Section::Objects => 1,
        Section::Legend => 2,
        Section::Sounds => 3,
        Section::Layers => 4,
        Section::Rules => 5,
        Section::Wins => 6,
        Section::Levels => 7,
    }
}

/// Whether a line is the heading of a section.
pub fn is_heading_of(section: Section, line: &Line) -> bool
    ensures { result ≡ is_heading_of section line.now }
{
    line.is_heading && place_of(line.section) == place_of(section)
}

fn before_heading(lines: &[Line]) -> &[Line]
    ensures { result.now ≡ before_heading lines.now }
{
    for (count, line) in lines.iter().enumerate() {
        if line.is_heading {
            return &lines[..count];
        }
    }
    lines
}

fn behind_heading(section: Section, lines: &[Line]) -> &[Line]
    ensures { result.now ≡ behind_heading section lines.now }
{
    let mut rest = lines;
    while let Some((line, others)) = rest.split_first() {
        rest = others;
        if is_heading_of(section, line) {
            break;
        }
    }
    rest
}

/// The lines from the first one of a section on.
fn lines_from(section: Section, lines: &[Line]) -> &[Line]
    ensures begins { before_heading result.now ≡ lines_in section lines.now }
    ensures short { length result.now ≤ length lines.now }
    ensures end { drop (length lines.now - length result.now) lines.now ≡ result.now }
{
    match section {
        Section::Prelude => lines,
        _ => behind_heading(section, lines),
    }
}

/// The lines of a section, without its heading. The prelude has those before the first heading.
pub fn lines_in(section: Section, lines: &[Line]) -> &[Line]
    ensures { result.now ≡ lines_in section lines.now }
{
    before_heading(lines_from(section, lines))
}

/// The lines before those of a section, with its heading; its own; and the lines behind them.
pub fn around(section: Section, lines: &[Line]) -> (&[Line], &[Line], &[Line])
    ensures own { result.1.now ≡ lines_in section lines.now }
    ensures whole { lines.now ≡ result.0.now ++ (result.1.now ++ result.2.now) }
{
    let begun = lines_from(section, lines);
    let (before, rest) = lines.split_at(lines.len() - begun.len());
    let (own, behind) = rest.split_at(before_heading(begun).len());
    (before, own, behind)
}
