//! A level made equal to another of its size by copying the cells in which they may differ.

ghost use Rattle.std.specs.Prelude.{◌≡◌, ◌<◌, All, length};
ghost use Rattle.pz_bare.specs.Differing.{DifferWithin};
ghost use Rattle.pz_grid.specs.Marks.{IsExact};
ghost use Rattle.pz_sheet.specs.Grid.{SameSize};

use crate::Level;
use crate::marks::mark_lines;
use pz_bare::BareLevel;

impl Level {
    /// Makes this level equal to another of the same size, marks and all, by copying some of its cells. Before, they differ at most in
    /// these.
    pub fn take_cells_of(&mut self, other: &Level, cells: &[usize])
        requires size { SameSize self.old.grid other.now.grid }
        requires within { All (λ index. index < length self.old.grid.cells) cells.now }
        requires rest { DifferWithin cells.now self.old.grid other.now.grid }
        ensures { self.new ≡ other.now }
    {
        // (brings the proof the law of both levels)
        let _ = (self.width(), other.width());
        self.bare.take_cells_of(&other.bare, cells);
        self.row_marks.copy_from_slice(&other.row_marks);
        self.column_marks.copy_from_slice(&other.column_marks);
        self.level_marks = other.level_marks;
    }

    /// Makes this level equal to a bare one of the same size by copying some of its cells, and its marks exactly what stands in each line.
    /// Before, they differ at most in these cells.
    pub fn take_bare_cells_of(&mut self, other: &BareLevel, cells: &[usize])
        requires size { SameSize self.old.grid other.now.grid }
        requires within { All (λ index. index < length self.old.grid.cells) cells.now }
        requires rest { DifferWithin cells.now self.old.grid other.now.grid }
        ensures grid { self.new.grid ≡ other.now.grid }
        ensures exact { IsExact self.new }
    {
        // (brings the proof the law of the level)
        let _ = self.width();
        self.bare.take_cells_of(other, cells);
        self.level_marks = mark_lines(&self.bare, &mut self.row_marks, &mut self.column_marks);
    }
}
