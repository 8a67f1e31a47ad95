//! Copies of levels.

ghost use Rattle.std.specs.Prelude.{◌≡◌, true, IfOk, OnOk, OnErr};
ghost use Rattle.pz_sheet.specs.Grid.{SameSize};

use crate::Sheet;
use pz_planes::copying::{make_room, refill, renew};
use pz_planes::notes::are_empty;
use std::alloc::AllocError;

/// From this many cells on it may pay to look for those that differ, in place of copying all.
const MANY_CELLS: usize = 256;

impl<const N: usize> Sheet<N> {
    /// A copy of the level. Err: memory was refused.
    pub fn copy(&self) -> Result<Sheet<N>, AllocError>
        ensures copied { IfOk result (λ sheet. sheet.grid ≡ self.now.grid) }
    {
        let alloc = *self.cells.allocator();
        let layers = self.layers.share()?;
        let cells = Vec::from_slice(alloc, &self.cells)?;
        let notes = self.notes.copy()?;
        let planes = self.planes.copy()?;
        let copy = Sheet {
            width: self.width,
            height: self.height,
            layers,
            cells,
            notes,
            planes,
        };
        Ok(copy)
    }

    /// Whether another level is of the same size, and finding the cells that differ should take less work than copying all. Nothing heads
    /// anywhere in either then.
    fn is_near(&self, other: &Sheet<N>) -> bool
        ensures { result ≡ true → SameSize self.now.grid other.now.grid }
    {
        self.cells.len() >= MANY_CELLS
            && are_empty(&self.notes, &other.notes)
            && self.is_told_by_planes()
            && self.same_size(other)
    }

    /// Makes this level equal to another. It reuses its memory if that is enough. Of a level that is near, only the cells that differ are
    /// copied. Err: memory was refused, and the level is unchanged.
    pub fn copy_from(&mut self, other: &Sheet<N>) -> Result<(), AllocError>
        ensures copied { OnOk result (self.new.grid ≡ other.now.grid) }
        ensures kept { OnErr result (self.new.grid ≡ self.old.grid) }
    {
        if self.is_near(other) {
            self.take_all(other);
            return Ok(());
        }
        let layers = other.layers.share()?;
        make_room(&mut self.cells, other.cells.len())?;
        renew(
            &mut self.notes,
            &mut self.planes,
            &other.notes,
            &other.planes,
        )?;
        self.width = other.width;
        self.height = other.height;
        self.layers = layers;
        refill(&mut self.cells, &other.cells);
        Ok(())
    }
}
