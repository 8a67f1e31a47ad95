//! Whether two levels are the same.

ghost use Rattle.std.specs.Prelude.{◌≡◌, ◌↔◌, IsTrue};

use crate::Sheet;

impl<const N: usize> Sheet<N> {
    /// Whether both have the same size and the same layers.
    pub fn same_size(&self, other: &Sheet<N>) -> bool
        ensures { IsTrue result ↔
            ((self.now.grid.width ≡ other.now.grid.width) × (self.now.grid.height ≡ other.now.grid.height) ×
            (self.now.grid.depth ≡ other.now.grid.depth) × (self.now.grid.layers ≡ other.now.grid.layers)) }
    {
        self.width == other.width
            && self.height == other.height
            && self.layers.equals(&other.layers)
    }

    /// Whether both are the same: in their size, their layers, and what stands and heads on each layer of each cell.
    pub fn equals(&self, other: &Sheet<N>) -> bool
        ensures { IsTrue result ↔ (self.now.grid ≡ other.now.grid) }
    {
        self.same_size(other) && self.next_change(other, 0).is_none()
    }
}
