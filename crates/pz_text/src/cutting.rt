//! The lines of a source.

ghost use Rattle.std.specs.Prelude.{◌≡◌, ◌≤◌, ◌<◌, ◌+◌, ◌++◌, ◌∷◌, ◌^◌, ◌==◌, ℕ, List, [], length, map, true, IfOk, option_to_list};
ghost use Rattle.std.specs.List.{slice_split};
ghost use Rattle.pz_text.specs.Characters.{trimmed_text};
ghost use Rattle.pz_text.specs.Comment.{outside, depth_after};
ghost use Rattle.pz_text.specs.Cutting.{holds_only, is_left_out, lines_from, lines_of_text};

use crate::characters::trimmed;
use crate::comment::{opens_bracket, outside};
use crate::heading::heading_in;
use crate::line::{Line, Section};
use pz_base::listed::Listed;
use std::alloc::{AllocError, Global};

fn holds_only(line: &[char], mark: char) -> bool
    ensures { result ≡ holds_only mark line.now }
{
    let mut rest = line;
    while let Some((c, others)) = rest.split_first() {
        if *c != mark {
            return false;
        }
        rest = others;
    }
    true
}

/// Rule `text.void-lines`.
fn is_left_out(depth: usize, line: &[char], left: &[char], text: &[char]) -> bool
    ensures { result ≡ is_left_out depth line.now left.now text.now }
{
    if text.is_empty() {
        depth > 0 || left.len() < line.len()
    } else {
        holds_only(text, '=')
    }
}

fn raw_lines<'a>(alloc: Global, text: &'a [char]) -> Result<Vec<&'a [char]>, AllocError>
    ensures { IfOk result (λ parts. map (λ part. part.now) parts.items ≡ slice_split (λ c. c == 10) text.entry.now) }
{
    text.split(|c| *c == '\n').collect(alloc)
}

/// Where a reader of lines stands: the section, and how many brackets are open.
#[derive(Clone, Copy, Debug)]
struct Standing {
    section: Section,
    depth: usize,
}

/// A line, unless it is left out, and where a reader stands after it. `left` is what is left of it without comments, and `depth` brackets
/// are open after it.
fn line_of(
    alloc: Global,
    before: Standing,
    number: u32,
    line: &[char],
    left: &[char],
    depth: usize,
) -> Result<(Option<Line>, Standing), AllocError>
    requires left { left.now ≡ outside before.section true [] before.depth line.now }
    requires depth { depth ≡ depth_after before.section true [] before.depth line.now }
    ensures lines { IfOk result
        (λ r. (raw : List ℕ) (more : List (List ℕ)) → line.now ≡ trimmed_text raw →
        lines_from before.section before.depth number (raw ∷ more) ≡
        option_to_list r.0 ++ lines_from r.1.section r.1.depth (number + 1) more) }
    ensures behind { IfOk result (λ r. r.1.depth ≡ depth) }
{
    let text = trimmed(left);
    let heading = heading_in(before.section, text);
    let section = heading.unwrap_or(before.section);
    let after = Standing { section, depth };
    if is_left_out(before.depth, line, left, text) {
        return Ok((None, after));
    }
    let line = Line {
        number,
        section,
        is_heading: heading.is_some(),
        text: Listed::new(text.to_vec(alloc)?),
    };
    Ok((Some(line), after))
}

fn read_line(
    alloc: Global,
    before: Standing,
    number: u32,
    raw: &[char],
) -> Result<(Option<Line>, Standing), AllocError>
    requires { before.depth + length raw.now < 2 ^ 64 }
    ensures lines { IfOk result
        (λ r. (more : List (List ℕ)) →
        lines_from before.section before.depth number (raw.now ∷ more) ≡
        option_to_list r.0 ++ lines_from r.1.section r.1.depth (number + 1) more) }
    ensures bound { IfOk result (λ r. r.1.depth ≤ before.depth + length raw.now) }
{
    let line = trimmed(raw);
    if before.depth == 0 && !opens_bracket(line) {
        return line_of(alloc, before, number, line, line, 0);
    }
    let (left, depth) = outside(alloc, before.section, before.depth, line)?;
    line_of(alloc, before, number, line, left.as_slice(), depth)
}

/// The lines of a text, without comments. Blank lines are kept. Void lines and lines of only `=` are left out. Rule `text.lines`.
pub fn cut(alloc: Global, text: &[char]) -> Result<Vec<Line>, AllocError>
    requires { length text.now < 2 ^ 31 }
    ensures { IfOk result (λ lines. lines.items ≡ lines_of_text text.now) }
{
    let parts = raw_lines(alloc, text)?;
    let mut lines = Vec::new(alloc);
    let mut standing = Standing {
        section: Section::Prelude,
        depth: 0,
    };
    let mut number = 1;
    for part in &parts {
        let (line, after) = read_line(alloc, standing, number, part)?;
        if let Some(line) = line {
            lines.push(line)?;
        }
        standing = after;
        number += 1;
    }
    Ok(lines)
}
