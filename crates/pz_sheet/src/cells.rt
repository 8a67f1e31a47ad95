//! One cell of a level: lent, replaced, or with one piece less or more.

ghost use Rattle.std.specs.Prelude.{◌≡◌, ◌<◌, ◌≤◌, ◌*◌, ◌/◌, ◌%◌, ℕ, Some, None, length};
ghost use Rattle.pz_sets.specs.Sets.{member};
ghost use Rattle.pz_cells.specs.Cell.{IsOnLayer, moving_piece, still_piece};
ghost use Rattle.pz_cells.specs.Layering.{IsLayering};
ghost use Rattle.pz_cells.specs.Lists.{pieces_of_cell, IsSound};
ghost use Rattle.pz_planes.specs.Planes.{AreChanged, AreKnown, AreThere};
ghost use Rattle.pz_sheet.specs.Changes.{with_cell};
ghost use Rattle.pz_sheet.specs.Grid.{IsOnMap, layers_in, place_at, with_place};
ghost use Rattle.pz_sheet.specs.Presence.{cell_of, is_in};

use crate::Sheet;
use crate::noting::note_heading;
use pz_cells::cell::Cell;
use pz_cells::layers::Layers;
use pz_cells::piece::Mover;
use pz_planes::planes::Planes;
use pz_sets::words::same;

impl<const N: usize> Sheet<N> {
    /// The layers of the game.
    pub(crate) fn layers(&self) -> &Layers<N>
        ensures layers { result.now ≡ layers_in self.now.grid }
        ensures law { IsLayering N (layers_in self.now.grid) }
    {
        &self.layers
    }

    /// The cell of this number. Cells are numbered row by row.
    pub(crate) fn cell(&self, index: usize) -> &Cell<N>
        requires { index < length self.now.grid.cells }
        ensures sound { IsSound (layers_in self.now.grid) result.now }
        ensures cell { pieces_of_cell (layers_in self.now.grid) result.now ≡ cell_of self.now.grid index }
    {
        &self.cells[index]
    }

    /// The objects that stand in the cell of this number. Cells are numbered row by row.
    pub(crate) fn objects_in(&self, index: usize) -> &[u128]
        requires { index < length self.now.grid.cells }
        ensures objects { (object : ℕ) → member result.now object ≡ is_in (cell_of self.now.grid index) object }
        ensures short { length result.now ≤ 4 }
    {
        objects_of(&self.cells[index])
    }

    /// Replaces the cell of this number, and notes where the new one heads and what stands there. (Inlined: each rewriting comes here.)
    #[inline(always)]
    pub(crate) fn set_cell(&mut self, index: usize, cell: Cell<N>)
        requires within { index < length self.old.grid.cells }
        requires sound { IsSound (layers_in self.old.grid) cell }
        ensures { self.new.grid ≡
            with_cell self.old.grid (record { number = index; cell = pieces_of_cell (layers_in self.old.grid) cell.entry }) }
    {
        let before = self.cells[index];
        self.cells[index] = cell;
        note_heading(&mut self.notes, &self.layers, index, &cell);
        note_objects(&mut self.planes, index, &before, &cell);
    }

    /// Takes away a piece that heads somewhere. The notes of headings stay, so they may have more than there are.
    pub(crate) fn take_away(&mut self, x: u32, y: u32, mover: Mover)
        requires on_map { IsOnMap self.old.grid x y }
        requires there { place_at self.old.grid x y mover.layer ≡ Some (moving_piece mover) }
        ensures taken { self.new.grid ≡ with_place self.old.grid x y mover.layer None }
        ensures on_layer { IsOnLayer self.old.grid.layers mover.layer (Some (still_piece mover.object)) }
    {
        let number = self.index(x, y);
        self.cells[number].take_away(&self.layers, mover);
        self.planes
            .toggle(mover.object as usize, x as usize, y as usize);
    }

    /// Puts an object, still, on its layer of a position, where nothing stands.
    pub(crate) fn land(&mut self, x: u32, y: u32, layer: usize, object: u16)
        requires on_map { IsOnMap self.old.grid x y }
        requires free { place_at self.old.grid x y layer ≡ None }
        requires on_layer { IsOnLayer self.old.grid.layers layer (Some (still_piece object)) }
        ensures landed { self.new.grid ≡ with_place self.old.grid x y layer (Some (still_piece object)) }
        ensures there { place_at self.new.grid x y layer ≡ Some (still_piece object) }
    {
        let number = self.index(x, y);
        self.cells[number].land(&self.layers, layer, object);
        self.planes.toggle(object as usize, x as usize, y as usize);
    }
}

/// Notes what stands in the cell of this number, instead of what stood there before. Mostly only a heading changes.
fn note_objects<const N: usize>(planes: &mut Planes, index: usize, before: &Cell<N>, cell: &Cell<N>)
    requires short { N ≤ 4 }
    requires within { index < planes.old.columns.count * planes.old.rows.count }
    requires known_before { AreKnown planes.old before.now.objects }
    requires known { AreKnown planes.old cell.now.objects }
    requires there { AreThere planes.old (index % planes.old.columns.count) (index / planes.old.columns.count)
        (member before.now.objects) }
    ensures { AreChanged planes.old planes.new (index % planes.old.columns.count) (index / planes.old.columns.count)
        (λ object was. member cell.now.objects object) }
{
    if same(&before.objects, &cell.objects) {
        return;
    }
    planes.note_at(index, objects_of(before), objects_of(cell));
}

/// The words of the objects that stand in a cell.
#[inline(always)]
pub(crate) fn objects_of<const N: usize>(cell: &Cell<N>) -> &[u128]
    ensures objects { result.now ≡ cell.now.objects }
    ensures count { length result.now ≡ N }
{
    // (brings the proof how many words a cell has)
    let _ = cell.word_count();
    &cell.objects
}
