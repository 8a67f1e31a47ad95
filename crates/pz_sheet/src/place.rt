//! What stands at a position, and its change.

ghost use Rattle.std.specs.Prelude.{◌≡◌, ◌<◌, IfSome, Some, None};
ghost use Rattle.pz_sets.specs.declared.set.TheConstants.{CAPACITY};
ghost use Rattle.pz_game.specs.Pattern.{AreOf};
ghost use Rattle.pz_cells.specs.Cell.{IsOnLayer, moving_piece, still_piece};
ghost use Rattle.pz_cells.specs.Pattern.{pattern_holds};
ghost use Rattle.pz_sheet.specs.Grid.{IsOnMap, cell_at, place_at};
ghost use Rattle.pz_sheet.specs.Movement.{with_piece_moved};
ghost use Rattle.pz_sheet.specs.Rewriting.{with_rewritten, changes};

use crate::Sheet;
use pz_cells::piece::{Mover, Piece};
use pz_game::pattern::Pattern;

impl<const N: usize> Sheet<N> {
    /// What stands on a layer of a position of the map.
    pub fn place(&self, x: u32, y: u32, layer: usize) -> Option<Piece>
        requires on_map { IsOnMap self.now.grid x y }
        requires layer_in { layer < self.now.grid.depth }
        ensures place { result ≡ place_at self.now.grid x y layer }
        ensures on_layer { IsOnLayer self.now.grid.layers layer result }
        ensures low { IfSome result (λ piece. piece.object < CAPACITY) }
    {
        let layers = self.layers();
        self.cell(self.index(x, y)).place(layers, layer)
    }

    /// Moves a piece that heads somewhere to a position where nothing stands on its layer, and stills it.
    pub fn carry(&mut self, x: u32, y: u32, mover: Mover, next_x: u32, next_y: u32)
        requires on_map { IsOnMap self.old.grid x y }
        requires goal_on_map { IsOnMap self.old.grid next_x next_y }
        requires there { place_at self.old.grid x y mover.layer ≡ Some (moving_piece mover) }
        requires free { place_at self.old.grid next_x next_y mover.layer ≡ None }
        ensures carried { self.new.grid ≡ with_piece_moved self.old.grid x y mover next_x next_y }
        ensures there { place_at self.new.grid next_x next_y mover.layer ≡ Some (still_piece mover.object) }
    {
        self.take_away(x, y, mover);
        self.land(next_x, next_y, mover.layer, mover.object);
    }

    /// Whether a rule's cell holds at a position of the map.
    pub fn holds(&self, x: u32, y: u32, pattern: &Pattern) -> bool
        requires on_map { IsOnMap self.now.grid x y }
        requires of_game { AreOf self.now.grid.layers pattern.now }
        ensures { result ≡ pattern_holds (cell_at self.now.grid x y) pattern.now }
    {
        self.holds_there(self.index(x, y), pattern)
    }

    /// Rewrites the cell at a position of the map from a left cell of a rule to its right cell, and says whether the cell changed.
    pub fn rewrite(&mut self, x: u32, y: u32, left: &Pattern, right: &Pattern) -> bool
        requires on_map { IsOnMap self.old.grid x y }
        requires left_of { AreOf self.old.grid.layers left.now }
        requires right_of { AreOf self.old.grid.layers right.now }
        ensures level { self.new.grid ≡ with_rewritten self.old.grid x y left.now right.now }
        ensures changed { result ≡ changes self.old.grid x y left.now right.now }
    {
        let index = self.index(x, y);
        let layers = self.layers();
        let mut cell = *self.cell(index);
        let changed = cell.rewrite(layers, left, right);
        if changed {
            self.set_cell(index, cell);
        }
        changed
    }
}
