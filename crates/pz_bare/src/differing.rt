//! The cells in which another level of the same size differs, and cells compared and copied one by one.

ghost use Rattle.std.specs.Prelude.{◌≡◌, ◌<◌, ◌↔◌, All, IsTrue, length};
ghost use Rattle.pz_bare.specs.Differing.{DifferWithin};
ghost use Rattle.pz_sheet.specs.Changes.{differ_in, with_cell, TellsOf};
ghost use Rattle.pz_sheet.specs.Grid.{IsLawful, SameSize};
ghost use Rattle.pz_sheet.specs.Presence.{cell_of};
ghost use Rattle.pz_sets.specs.Next.{IsNext};

use crate::{AnySheet, BareLevel};
use pz_sheet::changes::KnownChanges;

impl BareLevel {
    /// Whether both have the same size and the same layers.
    pub fn same_size(&self, other: &BareLevel) -> bool
        ensures { IsTrue result ↔ SameSize self.now.grid other.now.grid }
    {
        match (&*self.sheet, &*other.sheet) {
            (AnySheet::Small(sheet), AnySheet::Small(other)) => sheet.same_size(other),
            (AnySheet::Middle(sheet), AnySheet::Middle(other)) => sheet.same_size(other),
            (AnySheet::Large(sheet), AnySheet::Large(other)) => sheet.same_size(other),
            _ => false,
        }
    }

    /// Whether the cell of this number is the same as some cell of another level of the same size, in what stands there and where it
    /// heads. Cells are numbered row by row.
    pub fn has_cell_of(&self, index: usize, other: &BareLevel, at: usize) -> bool
        requires size { SameSize self.now.grid other.now.grid }
        requires within { index < length self.now.grid.cells }
        requires there { at < length other.now.grid.cells }
        ensures { IsTrue result ↔ (cell_of self.now.grid index ≡ cell_of other.now.grid at) }
    {
        match (&*self.sheet, &*other.sheet) {
            (AnySheet::Small(sheet), AnySheet::Small(other)) => sheet.has_cell_of(index, other, at),
            (AnySheet::Middle(sheet), AnySheet::Middle(other)) => sheet.has_cell_of(
                index, other, at,
            ),
            (AnySheet::Large(sheet), AnySheet::Large(other)) => sheet.has_cell_of(index, other, at),
            _ => unreachable!(),
        }
    }

    /// Copies some cell of another level of the same size into the cell of this number.
    pub fn take_cell_of(&mut self, index: usize, other: &BareLevel, at: usize)
        requires size { SameSize self.old.grid other.now.grid }
        requires within { index < length self.old.grid.cells }
        requires there { at < length other.now.grid.cells }
        ensures { self.new.grid ≡
            with_cell self.old.grid (record { number = index; cell = cell_of other.now.grid at }) }
    {
        match (&mut *self.sheet, &*other.sheet) {
            (AnySheet::Small(sheet), AnySheet::Small(other)) => sheet.take_cell_of(
                index, other, at,
            ),
            (AnySheet::Middle(sheet), AnySheet::Middle(other)) => sheet.take_cell_of(
                index, other, at,
            ),
            (AnySheet::Large(sheet), AnySheet::Large(other)) => sheet.take_cell_of(
                index, other, at,
            ),
            _ => unreachable!(),
        }
    }

    /// Makes this level equal to another of the same size by copying some of its cells. Before, they differ at most in these.
    pub fn take_cells_of(&mut self, other: &BareLevel, cells: &[usize])
        requires size { SameSize self.old.grid other.now.grid }
        requires within { All (λ index. index < length self.old.grid.cells) cells.now }
        requires rest { DifferWithin cells.now self.old.grid other.now.grid }
        ensures { self.new.grid ≡ other.now.grid }
    {
        // (brings the proof the law of both levels)
        let _ = (self.width(), other.width());
        for cell in cells {
            self.take_cell_of(*cell, other, *cell);
        }
    }

    /// The first cell, from number `from` on, in which a level of the same size differs. Then the changes in its row are known, if that is
    /// little work.
    fn learn_next(&self, other: &BareLevel, known: &mut KnownChanges, from: usize) -> Option<usize>
        requires size { SameSize self.now.grid other.now.grid }
        requires known { TellsOf (differ_in self.now.grid other.now.grid) (length self.now.grid.cells) known.old }
        ensures lawful { IsLawful self.now.grid }
        ensures next { IsNext (differ_in self.now.grid other.now.grid) from (length self.now.grid.cells) result }
        ensures known { TellsOf (differ_in self.now.grid other.now.grid) (length self.now.grid.cells) known.new }
    {
        match (&*self.sheet, &*other.sheet) {
            (AnySheet::Small(sheet), AnySheet::Small(other)) => sheet.learn_next(
                other, known, from,
            ),
            (AnySheet::Middle(sheet), AnySheet::Middle(other)) => sheet.learn_next(
                other, known, from,
            ),
            (AnySheet::Large(sheet), AnySheet::Large(other)) => sheet.learn_next(
                other, known, from,
            ),
            _ => unreachable!(),
        }
    }

    /// The first cell, from number `from` on, in which a level of the same size differs. Cells are numbered row by row. Some changes may be
    /// known already, and more may be known then.
    pub fn next_change_after(
        &self,
        other: &BareLevel,
        known: &mut KnownChanges,
        from: usize,
    ) -> Option<usize>
        requires size { SameSize self.now.grid other.now.grid }
        requires known { TellsOf (differ_in self.now.grid other.now.grid) (length self.now.grid.cells) known.old }
        ensures lawful { IsLawful self.now.grid }
        ensures next { IsNext (differ_in self.now.grid other.now.grid) from (length self.now.grid.cells) result }
        ensures known { TellsOf (differ_in self.now.grid other.now.grid) (length self.now.grid.cells) known.new }
    {
        // (brings the proof the law of the level)
        let _ = self.width();
        match known.next(from) {
            Ok(index) => Some(index),
            Err(behind) => self.learn_next(other, known, behind),
        }
    }
}
