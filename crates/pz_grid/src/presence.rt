//! Which objects are in a cell.

ghost use Rattle.std.specs.Prelude.{◌≡◌, ◌<◌, length};
ghost use Rattle.std.specs.List.{list_any, list_all};
ghost use Rattle.pz_sheet.specs.Presence.{holds_one, holds_each, holds_both, holds_if, cell_of};

use crate::Level;

impl Level {
    /// The number of cells.
    pub fn cell_count(&self) -> usize
        ensures { result ≡ length self.now.grid.cells }
    {
        self.bare.cell_count()
    }

    /// Whether one of the objects is in the cell of this number. Objects are numbered in the game's order, cells row by row, both from 0.
    pub fn holds_one(&self, index: usize, objects: &[usize]) -> bool
        requires { index < length self.now.grid.cells }
        ensures { result ≡ holds_one objects.now (cell_of self.now.grid index) }
    {
        for object in objects {
            if self.bare.is_in(index, *object) {
                return true;
            }
        }
        false
    }

    /// Whether each of the objects is in the cell of this number.
    pub fn holds_each(&self, index: usize, objects: &[usize]) -> bool
        requires { index < length self.now.grid.cells }
        ensures { result ≡ holds_each objects.now (cell_of self.now.grid index) }
    {
        for object in objects {
            if !self.bare.is_in(index, *object) {
                return false;
            }
        }
        true
    }

    /// Whether some cell holds both one of `objects` and one of `others`.
    pub fn some_holds(&self, objects: &[usize], others: &[usize]) -> bool
        ensures { result ≡ list_any (holds_both objects.now others.now) self.now.grid.cells }
    {
        self.bare.some_holds(objects, others)
    }

    /// Whether each cell that holds one of `objects` also holds one of `others`.
    pub fn all_hold(&self, objects: &[usize], others: &[usize]) -> bool
        ensures { result ≡ list_all (holds_if objects.now others.now) self.now.grid.cells }
    {
        self.bare.all_hold(objects, others)
    }
}
