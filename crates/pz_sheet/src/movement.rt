//! What heads somewhere, and the end of all movement.

ghost use Rattle.std.specs.Prelude.{◌≡◌, ◌<◌, ◌≤◌, ◌↔◌, IsTrue, length, map, IfSome, MatchOption};
ghost use Rattle.pz_sets.specs.declared.set.TheConstants.{CAPACITY};
ghost use Rattle.pz_game.specs.declared.limits.TheConstants.{MOST_LAYERS};
ghost use Rattle.pz_cells.specs.Cell.{IsNextMover, still_place};
ghost use Rattle.pz_cells.specs.Lists.{AreMapped, HeadNowhere, HaveSameObjects};
ghost use Rattle.pz_sheet.specs.Seen.{IsStored};
ghost use Rattle.pz_sheet.specs.Grid.{IsLawful, IsOnMap, cell_at};
ghost use Rattle.pz_sheet.specs.Movement.{still_level, IsStillAt, AreStill, AreColumnsStill};

use crate::Sheet;
use pz_cells::cell::Cell;
use pz_cells::layers::Layers;
use pz_cells::piece::Mover;
use pz_cells::stilling::still_cells;
use pz_planes::notes::{Notes, is_empty};

impl<const N: usize> Sheet<N> {
    /// Whether nothing at a position of the map heads anywhere.
    pub fn is_still(&self, x: u32, y: u32) -> bool
        requires x_in { x < self.now.grid.width }
        requires y_in { y < self.now.grid.height }
        ensures { IsTrue result ↔ IsStillAt self.now.grid x y }
    {
        let layers = self.layers();
        self.cell(self.index(x, y)).is_still(layers)
    }

    /// The first piece at a position of the map that heads somewhere, on a layer from `from` on.
    pub fn next_mover(&self, x: u32, y: u32, from: usize) -> Option<Mover>
        requires { IsOnMap self.now.grid x y }
        ensures next { IsNextMover (cell_at self.now.grid x y) from result }
        ensures low { IfSome result
            (λ mover. (mover.layer < self.now.grid.depth) × (mover.layer < MOST_LAYERS) × (mover.object < CAPACITY)) }
    {
        let layers = self.layers();
        self.cell(self.index(x, y)).next_mover(layers, from)
    }

    /// The first column, from `from` on, in which something may head somewhere.
    #[tactic(auto, using(crate::proofs::SheetLemmas::lawful_here))]
    pub fn next_column(&self, from: u32) -> Option<u32>
        ensures next { MatchOption result (AreColumnsStill self.now.grid from self.now.grid.width)
            (λ x. (from ≤ x) × (x < self.now.grid.width) × AreColumnsStill self.now.grid from x) }
        ensures lawful { IsLawful self.now.grid }
    {
        match self.notes.next_column(from as usize) {
            None => None,
            Some(x) => Some(x as u32),
        }
    }

    /// The first row, from `from` on, for which a heading is noted. In those before it nothing heads anywhere in a column of the map.
    /// (Inlined, because it is asked again and again for each column.)
    #[inline(always)]
    fn next_noted(&self, x: u32, from: u32) -> Option<u32>
        requires { x < self.now.grid.width }
        ensures next { MatchOption result (AreStill self.now.grid x from self.now.grid.height)
            (λ y. (from ≤ y) × (y < self.now.grid.height) × AreStill self.now.grid x from y) }
        ensures lawful { IsLawful self.now.grid }
    {
        match self.notes.next_row(from as usize) {
            None => None,
            Some(y) => Some(y as u32),
        }
    }

    /// The first row, from `from` on, in which something in a column of the map may head somewhere.
    pub fn next_heading(&self, x: u32, from: u32) -> Option<u32>
        requires { x < self.now.grid.width }
        ensures next { MatchOption result (AreStill self.now.grid x from self.now.grid.height)
            (λ y. (from ≤ y) × (y < self.now.grid.height) × AreStill self.now.grid x from y) }
        ensures lawful { IsLawful self.now.grid }
    {
        let mut start = from;
        'rows: while let Some(y) = self.next_noted(x, start) {
            if !self.is_still(x, y) {
                return Some(y);
            }
            start = y + 1;
        }
        None
    }

    /// Stills every piece.
    #[tactic(auto, using(crate::proofs::SheetLemmas::lawful_here))]
    pub fn still_all(&mut self)
        ensures stilled { self.new.grid ≡ still_level self.old.grid }
        ensures lawful { IsLawful self.new.grid }
    {
        if is_empty(self.notes.whole()) {
            return;
        }
        still_rows(&mut self.cells, &self.layers, &self.notes, self.width);
        self.notes.clear();
    }
}

/// Stills every piece of the cells. Rows for which no heading is noted are left as they are.
fn still_rows<const N: usize>(
    cells: &mut Vec<Cell<N>>,
    layers: &Layers<N>,
    notes: &Notes,
    width: u32,
)
    requires { IsStored N width (length notes.now.rows) layers.now cells.old.items notes.now }
    ensures mapped { AreMapped layers.now (map still_place) cells.old.items cells.new.items }
    ensures nowhere { HeadNowhere cells.new.items }
    ensures objects { HaveSameObjects cells.old.items cells.new.items }
{
    let width = width as usize;
    let mut from = 0;
    'rows: while let Some(y) = notes.next_row(from) {
        still_cells(cells, layers, y * width, y * width + width);
        from = y + 1;
    }
}
