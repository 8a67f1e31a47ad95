//! The definitions of LEGEND.

ghost use Rattle.std.specs.Prelude.{◌++◌, ◌∷◌, ◌≡◌, OnOk, [], codes, flat_map};
ghost use Rattle.std.specs.Option.{option_map_or};
ghost use Rattle.pz_names.specs.Legend.{sides};
ghost use Rattle.json.specs.Token.{key};
ghost use Rattle.pz_describe.specs.Sections.{definition_tokens, kind_member, kind_name, legend_tokens, meaning, members_of};
ghost use Rattle.pz_describe.specs.Values.{array, numbers_array, numeral};

use crate::objects::put_words;
use crate::page::Page;
use crate::reading::Reading;
use pz_game::denotation::Kind;
use pz_names::legend::{Definition, read_definition, sides};
use pz_text::line::Line;
use std::alloc::{AllocError, Global};

fn kind_name(kind: Kind) -> &'static str
    ensures { result.now ≡ kind_name kind }
{
    match kind {
        Kind::Object => "object",
        Kind::Property => "property",
        Kind::Aggregate => "aggregate",
    }
}

fn put_each(page: &mut Page, numbers: &[usize]) -> Result<(), AllocError>
    ensures { OnOk result (page.new ≡ page.old ++ flat_map numeral numbers.now) }
{
    for number in numbers {
        page.number(*number as u64)?;
    }
    Ok(())
}

fn put_numbers(page: &mut Page, numbers: &[usize]) -> Result<(), AllocError>
    ensures { OnOk result (page.new ≡ page.old ++ numbers_array numbers.now) }
{
    page.begin_array()?;
    put_each(page, numbers)?;
    page.end_array()
}

/// Puts the kind of a name in the game of a source, if it is one.
fn put_kind(page: &mut Page, reading: &Reading, name: &str) -> Result<(), AllocError>
    ensures { OnOk result (page.new ≡ page.old ++ kind_member (meaning reading.now name.now)) }
{
    let Some(game) = reading.game() else {
        return Ok(());
    };
    let Some(kind) = game.kind(name) else {
        return Ok(());
    };
    page.key("kind")?;
    page.string(kind_name(kind))
}

/// Puts the members of a name, by their places among the objects.
fn put_members(page: &mut Page, reading: &Reading, name: &str) -> Result<(), AllocError>
    ensures { OnOk result (page.new ≡ page.old ++ members_of (meaning reading.now name.now)) }
{
    let Some(game) = reading.game() else {
        return Ok(());
    };
    let Some(members) = game.members(name) else {
        return Ok(());
    };
    page.key("members")?;
    put_numbers(page, members)
}

/// Puts a definition, with the two sides of its line.
fn put_definition(
    alloc: Global,
    page: &mut Page,
    reading: &Reading,
    line: &Line,
    definition: &Definition,
) -> Result<(), AllocError>
    ensures { OnOk result (page.new ≡
        page.old ++ option_map_or (definition_tokens reading.now line.now definition.now) (sides line.now.text) []) }
{
    let Some((left, right)) = sides(line.text.items()) else {
        return Ok(());
    };
    let name = definition.name.as_str();
    page.begin_object()?;
    put_kind(page, reading, name)?;
    put_words(alloc, page, "left", left)?;
    page.line(line.number)?;
    put_members(page, reading, name)?;
    put_words(alloc, page, "right", right)?;
    page.end_object()
}

/// Puts a line, if it is a definition.
fn put_line(
    alloc: Global,
    page: &mut Page,
    reading: &Reading,
    line: &Line,
) -> Result<(), AllocError>
    ensures { OnOk result (page.new ≡ page.old ++ legend_tokens reading.now line.now) }
{
    match read_definition(alloc, line)? {
        Some(definition) => put_definition(alloc, page, reading, line, &definition),
        None => Ok(()),
    }
}

fn put_lines(
    alloc: Global,
    page: &mut Page,
    reading: &Reading,
    lines: &[Line],
) -> Result<(), AllocError>
    ensures { OnOk result (page.new ≡ page.old ++ flat_map (legend_tokens reading.now) lines.now) }
{
    for line in lines {
        put_line(alloc, page, reading, line)?;
    }
    Ok(())
}

/// Puts the definitions.
pub(crate) fn put_legend(
    alloc: Global,
    page: &mut Page,
    reading: &Reading,
    lines: &[Line],
) -> Result<(), AllocError>
    ensures { OnOk result (page.new ≡
        page.old ++ key (codes "legend") ∷ array (flat_map (legend_tokens reading.now) lines.now)) }
{
    page.key("legend")?;
    page.begin_array()?;
    put_lines(alloc, page, reading, lines)?;
    page.end_array()
}
