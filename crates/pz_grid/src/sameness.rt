//! Whether two levels are the same.

ghost use Rattle.std.specs.Prelude.{◌≡◌, ◌↔◌, IsTrue};
ghost use Rattle.pz_sheet.specs.Sameness.{same_grid};

use crate::Level;

impl Level {
    /// Whether two levels are the same: in their size, in their layers, and in what stands and heads on each layer of each cell. Marks
    /// don't count.
    pub fn same(&self, other: &Level) -> bool
        ensures same { result ≡ same_grid self.now.grid other.now.grid }
        ensures equal { IsTrue result ↔ (self.now.grid ≡ other.now.grid) }
    {
        self.bare.equals(&other.bare)
    }
}

/// Whether two levels are the same. Marks don't count.
pub fn same(level: &Level, other: &Level) -> bool
    ensures same { result ≡ same_grid level.now.grid other.now.grid }
    ensures equal { IsTrue result ↔ (level.now.grid ≡ other.now.grid) }
{
    level.same(other)
}
