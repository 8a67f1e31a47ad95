//! What heads somewhere in a level, as JSON.

ghost use Rattle.std.specs.Prelude.{◌≡◌, ◌<◌, ◌++◌, OnOk};
ghost use Rattle.pz_sheet.specs.Grid.{IsOfGame};
ghost use Rattle.pz_stages.specs.Parts.{cell_headings, heading_text, headings_of, row_headings};

use crate::naming::dir_name;
use pz_base::name::Name;
use pz_game::direction::Dir;
use pz_grid::Level;
use pz_lines::parts::{put_number, put_text};
use std::alloc::AllocError;

/// Adds an object that heads somewhere.
fn put_heading(
    texts: &mut Vec<u8>,
    x: u32,
    y: u32,
    object: &Name,
    heading: Option<Dir>,
) -> Result<(), AllocError>
    ensures { OnOk result (texts.new.items ≡ texts.old.items ++ heading_text x y object.now heading) }
{
    let Some(dir) = heading else {
        return Ok(());
    };
    put_number(texts, b",[", x as u64)?;
    put_number(texts, b",", y as u64)?;
    put_text(texts, b",", object.as_str())?;
    put_text(texts, b",", dir_name(dir))?;
    texts.extend_from_slice(b"]")
}

/// Adds what heads somewhere in a cell.
#[tactic(auto, using(crate::proofs::Headings::still_adds))]
fn put_cell(
    texts: &mut Vec<u8>,
    objects: &[Name],
    level: &Level,
    y: u32,
    x: u32,
) -> Result<(), AllocError>
    requires x_in { x < level.now.grid.width }
    requires y_in { y < level.now.grid.height }
    ensures { OnOk result (texts.new.items ≡ texts.old.items ++ cell_headings objects.now level.now.grid y x) }
{
    if level.bare().is_still(x, y) {
        return Ok(());
    }
    for (number, object) in objects.iter().enumerate() {
        put_heading(texts, x, y, object, level.dir_of(x, y, number))?;
    }
    Ok(())
}

/// Adds what heads somewhere in a row.
#[tactic(auto, using(crate::proofs::Headings::adds_one, crate::proofs::Headings::adds_none))]
fn put_row(texts: &mut Vec<u8>, objects: &[Name], level: &Level, y: u32) -> Result<(), AllocError>
    requires { y < level.now.grid.height }
    ensures { OnOk result (texts.new.items ≡ texts.old.items ++ row_headings objects.now level.now.grid y) }
{
    for x in 0..level.width() {
        put_cell(texts, objects, level, y, x)?;
    }
    Ok(())
}

/// Adds what heads somewhere in a level, each with a comma before it.
#[tactic(auto, using(crate::proofs::Headings::adds_one, crate::proofs::Headings::adds_none, crate::proofs::Headings::still_adds_nothing))]
pub(crate) fn put_headings(
    texts: &mut Vec<u8>,
    objects: &[Name],
    level: &Level,
) -> Result<(), AllocError>
    ensures { OnOk result (texts.new.items ≡ texts.old.items ++ headings_of objects.now level.now.grid) }
{
    // (after the movement nothing heads anywhere, and levels may be large)
    if level.bare().next_column(0).is_none() {
        return Ok(());
    }
    for y in 0..level.height() {
        put_row(texts, objects, level, y)?;
    }
    Ok(())
}
