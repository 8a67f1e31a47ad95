//! The level of a recorded session.

ghost use Rattle.std.specs.Prelude.{◌≡◌, ◌<◌, [], length, slice_index_or, map, true, All};

use crate::cell_names::CellNames;
use std::marker::Model;

/// The level at the end of a recorded session. Contracts see the names of each cell, in the order of the cells. Cells with the same names
/// share them, so that a level takes no more room than its text.
#[derive(Drop)]
pub struct Recorded {
    sets: Vec<CellNames>,
    cells: Vec<u32>,
}

impl Model for Recorded {
    ghost use Rattle.std.specs.Prelude.{List, ℕ, [], map, ◌<◌, length, slice_index_or, All};

    ghost Value = { List (List (List ℕ)) };

    ghost view = { λ r. map (λ set. slice_index_or r.sets.items set []) r.cells.items };

    ghost invariant = { λ r. All (λ set. set < length r.sets.items) r.cells.items };
}

impl Recorded {
    /// The level in which each cell has the set of this number.
    pub fn new(sets: Vec<CellNames>, cells: Vec<u32>) -> Recorded
        requires { All (λ set. set < length sets.items) cells.items }
        ensures { result ≡ map (λ set. slice_index_or sets.items set []) cells.items }
    {
        Recorded { sets, cells }
    }

    /// How many cells the level has, those without names among them.
    pub fn len(&self) -> usize
        ensures { result ≡ length self.now }
    {
        self.cells.len()
    }

    /// Whether two cells share their names. Cells that don't share them may still have the same names.
    pub fn share_names(&self, number: usize, other: usize) -> bool
        requires number { number < length self.now }
        requires other { other < length self.now }
        ensures { (result ≡ true) → slice_index_or self.now number [] ≡ slice_index_or self.now other [] }
    {
        self.cells[number] == self.cells[other]
    }

    /// The names of the cell of this number.
    pub fn names(&self, number: usize) -> &CellNames
        requires { number < length self.now }
        ensures { result.now ≡ slice_index_or self.now number [] }
    {
        &self.sets[self.cells[number] as usize]
    }

    /// The sets of names that the cells have, and for each cell which of them. Two sets may be equal.
    pub fn parts(&self) -> (&[CellNames], &[u32])
        ensures cells { self.now ≡ map (λ set. slice_index_or result.0.now set []) result.1.now }
        ensures within { All (λ set. set < length result.0.now) result.1.now }
    {
        (&self.sets, &self.cells)
    }
}
