//! The lines of the prelude.

ghost use Rattle.std.specs.Prelude.{◌++◌, ◌∷◌, ◌≡◌, ◌≤◌, OnOk, codes, flat_map, length};
ghost use Rattle.json.specs.Token.{key};
ghost use Rattle.pz_describe.specs.Sections.{keyword_end, prelude_tokens};
ghost use Rattle.pz_describe.specs.Values.{array};

use crate::page::Page;
use pz_names::objects::is_blank;
use pz_text::characters::trimmed;
use pz_text::line::Line;
use std::alloc::{AllocError, Global};

/// How long the keyword of a line is.
fn keyword_end(line: &[char]) -> usize
    ensures end { result ≡ keyword_end line.now }
    ensures within { result ≤ length line.now }
{
    for (count, c) in line.iter().enumerate() {
        if c.is_whitespace() {
            return count;
        }
    }
    line.len()
}

/// Puts the number, the keyword and the value of a line, unless it is blank.
fn put_line(alloc: Global, page: &mut Page, line: &Line) -> Result<(), AllocError>
    ensures { OnOk result (page.new ≡ page.old ++ prelude_tokens line.now) }
{
    if is_blank(line) {
        return Ok(());
    }
    let text = line.text.items();
    let end = keyword_end(text);
    page.begin_array()?;
    page.number(line.number as u64)?;
    page.text(alloc, &text[..end])?;
    page.text(alloc, trimmed(&text[end..]))?;
    page.end_array()
}

fn put_lines(alloc: Global, page: &mut Page, lines: &[Line]) -> Result<(), AllocError>
    ensures { OnOk result (page.new ≡ page.old ++ flat_map prelude_tokens lines.now) }
{
    for line in lines {
        put_line(alloc, page, line)?;
    }
    Ok(())
}

/// Puts the lines of the prelude.
pub(crate) fn put_prelude(alloc: Global, page: &mut Page, lines: &[Line]) -> Result<(), AllocError>
    ensures { OnOk result (page.new ≡ page.old ++ key (codes "prelude") ∷ array (flat_map prelude_tokens lines.now)) }
{
    page.key("prelude")?;
    page.begin_array()?;
    put_lines(alloc, page, lines)?;
    page.end_array()
}
