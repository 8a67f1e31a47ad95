//! Which objects stand in a cell.

ghost use Rattle.std.specs.Prelude.{◌≡◌, ◌<◌, ℕ, length, Some, None, MatchOption};
ghost use Rattle.pz_sets.specs.Sets.{member};
ghost use Rattle.pz_sheet.specs.Presence.{is_in, cell_of};
ghost use Rattle.pz_sheet.specs.Standing.{standing_at, stands};

use crate::Sheet;
use pz_cells::piece::Piece;
use pz_sets::set::NumberSet;
use pz_sets::words::contains;

impl<const N: usize> Sheet<N> {
    /// The objects that stand at the position. Off the map there are none.
    pub fn objects_at(&self, x: u32, y: u32) -> NumberSet
        ensures { (object : ℕ) → member result object ≡ stands self.now.grid x y object }
    {
        if x < self.width() && y < self.height() {
            NumberSet::from_words(self.objects_in(self.index(x, y)))
        } else {
            NumberSet::empty()
        }
    }

    /// The object's piece, if it stands at the position. Off the map, and for a number without an object, there is none.
    pub fn piece(&self, x: u32, y: u32, object: usize) -> Option<Piece>
        ensures { MatchOption result (standing_at self.now.grid x y object ≡ None)
            (λ piece. standing_at self.now.grid x y object ≡ Some piece.heading) }
    {
        if x < self.width() && y < self.height() {
            let layers = self.layers();
            self.cell(self.index(x, y)).piece(layers, object)
        } else {
            None
        }
    }

    /// The number of cells.
    pub fn cell_count(&self) -> usize
        ensures { result ≡ length self.now.grid.cells }
    {
        self.cells.len()
    }

    /// Whether an object stands in the cell of this number. Cells are numbered row by row.
    pub fn is_in(&self, index: usize, object: usize) -> bool
        requires { index < length self.now.grid.cells }
        ensures { result ≡ is_in (cell_of self.now.grid index) object }
    {
        contains(self.objects_in(index), object)
    }
}
