//! The lines of a source that aren't left out.

ghost use Rattle.std.specs.Prelude.{◌++◌, ◌∷◌, ◌≡◌, OnOk, codes, flat_map};
ghost use Rattle.json.specs.Token.{key};
ghost use Rattle.pz_describe.specs.Sections.{line_tokens, section_name};
ghost use Rattle.pz_describe.specs.Values.{array};

use crate::page::Page;
use pz_text::line::{Line, Section};
use std::alloc::{AllocError, Global};

/// A section by the word of its heading.
fn section_name(section: Section) -> &'static str
    ensures { result.now ≡ section_name section }
{
    match section {
        Section::Prelude => "prelude",
        Section::Objects => "objects",
        Section::Legend => "legend",
        Section::Sounds => "sounds",
        Section::Layers => "collisionlayers",
        Section::Rules => "rules",
        Section::Wins => "winconditions",
        Section::Levels => "levels",
    }
}

fn put_line(alloc: Global, page: &mut Page, line: &Line) -> Result<(), AllocError>
    ensures { OnOk result (page.new ≡ page.old ++ line_tokens line.now) }
{
    page.begin_array()?;
    page.number(line.number as u64)?;
    page.string(section_name(line.section))?;
    page.truth(line.is_heading)?;
    page.text(alloc, line.text.items())?;
    page.end_array()
}

fn put_each(alloc: Global, page: &mut Page, lines: &[Line]) -> Result<(), AllocError>
    ensures { OnOk result (page.new ≡ page.old ++ flat_map line_tokens lines.now) }
{
    for line in lines {
        put_line(alloc, page, line)?;
    }
    Ok(())
}

/// Puts the lines.
pub(crate) fn put_lines(alloc: Global, page: &mut Page, lines: &[Line]) -> Result<(), AllocError>
    ensures { OnOk result (page.new ≡ page.old ++ key (codes "lines") ∷ array (flat_map line_tokens lines.now)) }
{
    page.key("lines")?;
    page.begin_array()?;
    put_each(alloc, page, lines)?;
    page.end_array()
}
