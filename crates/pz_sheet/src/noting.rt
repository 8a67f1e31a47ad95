//! Makes the notes and planes of a level: where its cells head, and where its objects stand.

ghost use Rattle.std.specs.Prelude.{◌≡◌, ◌≤◌, ◌<◌, ◌*◌, All, length, IfOk};
ghost use Rattle.pz_game.specs.Size.{IsSize};
ghost use Rattle.pz_cells.specs.Layering.{IsLayering};
ghost use Rattle.pz_cells.specs.Lists.{IsSound};
ghost use Rattle.pz_planes.specs.Notes.{IsWider};
ghost use Rattle.pz_planes.specs.Planes.{AreKnown, HaveSameLines};
ghost use Rattle.pz_sheet.specs.Noting.{AreAllThere, ArePlaced, EndWithin};
ghost use Rattle.pz_sheet.specs.Seen.{IsNoted, AreNoted};

use crate::cells::objects_of;
use pz_cells::cell::Cell;
use pz_cells::layers::Layers;
use pz_planes::notes::Notes;
use pz_planes::planes::Planes;
use std::alloc::{AllocError, Global};

/// Where these cells head, and where their objects stand. Err: memory was refused.
#[tactic(auto, using(crate::proofs::PlacedLemmas::placed_all))]
pub(crate) fn noted<const N: usize>(
    alloc: Global,
    layers: &Layers<N>,
    width: usize,
    height: usize,
    cells: &[Cell<N>],
) -> Result<(Notes, Planes), AllocError>
    requires size { IsSize width height }
    requires covers { length cells.now ≡ width * height }
    requires sound { All (IsSound layers.now) cells.now }
    ensures notes { IfOk result (λ found. AreNoted N width height found.0 cells.now) }
    ensures planes { IfOk result (λ found. ArePlaced N (length layers.now.layers) width height found.1 cells.now) }
    ensures law { IsLayering N layers.now }
{
    let objects = layers.object_count();
    let mut notes = Notes::empty(alloc, width, height)?;
    renew_notes(&mut notes, layers, cells);
    let mut planes = Planes::empty(alloc, objects, width, height)?;
    note_all(&mut planes, cells);
    Ok((notes, planes))
}

/// Notes where the cell of this number heads. Cells are numbered row by row.
pub(crate) fn note_heading<const N: usize>(
    notes: &mut Notes,
    layers: &Layers<N>,
    index: usize,
    cell: &Cell<N>,
)
    requires within { index < length notes.old.columns * length notes.old.rows }
    ensures noted { IsNoted N (length notes.old.columns) notes.new index cell.now }
    ensures wider { IsWider notes.old notes.new }
{
    if !cell.is_still(layers) {
        notes.add(index, &cell.heading_set(layers));
    }
}

/// Notes where these cells head, and nothing else.
pub(crate) fn renew_notes<const N: usize>(notes: &mut Notes, layers: &Layers<N>, cells: &[Cell<N>])
    requires covers { length cells.now ≡ length notes.old.columns * length notes.old.rows }
    ensures { AreNoted N (length notes.old.columns) (length notes.old.rows) notes.new cells.now }
{
    notes.clear();
    for index in 0..cells.len() {
        note_heading(notes, layers, index, &cells[index]);
    }
}

/// Notes the objects of all cells, and nothing else.
pub(crate) fn note_all<const N: usize>(planes: &mut Planes, cells: &[Cell<N>])
    requires short { N ≤ 4 }
    requires covers { length cells.now ≡ planes.old.columns.count * planes.old.rows.count }
    requires known { All (λ cell. AreKnown planes.old cell.objects) cells.now }
    ensures size { HaveSameLines planes.old planes.new }
    ensures there { AreAllThere N planes.old.columns.count planes.old.rows.count planes.new cells.now }
    ensures ends { EndWithin planes.old.columns.count planes.old.rows.count planes.new }
{
    planes.clear();
    for index in 0..cells.len() {
        planes.note_at(index, &[0; N], objects_of(&cells[index]));
    }
}
