//! The cells in which a level differs from an older one, and the way back to that.

ghost use Rattle.std.specs.Prelude.{◌≡◌, ℕ, Bool, true, ◌<◌, ◌≤◌, ◌+◌, ◌^◌, ◌↔◌, IsTrue, All, Some, IfOk, OnOk, OnErr, MatchResult, length};
ghost use Rattle.pz_sheet.specs.Grid.{IsLawful, SameSize};
ghost use Rattle.pz_sheet.specs.Presence.{cell_of};
ghost use Rattle.pz_sets.specs.Next.{IsNext};

use crate::Sheet;
use crate::line::Axis;
use pz_cells::cell::Cell;
use pz_cells::differing::next_differing;
use pz_planes::bits;
use pz_planes::notes::are_empty;
use std::alloc::AllocError;

/// A cell of an older level, by its number: what stood there.
#[derive(Clone, Copy)]
pub struct Change<const N: usize> {
    index: usize,
    cell: Cell<N>,
}

/// Which of `count` cells from the number `first` on differ in two levels: those whose bits `places` has.
#[derive(Clone, Copy)]
pub struct KnownChanges {
    first: usize,
    count: u32,
    places: u128,
    ghost short: { count ≤ 128 },
    ghost small: { first + count < 2 ^ 64 },
}

impl KnownChanges {
    ghost use Rattle.pz_sheet.specs.Changes.{TellsOf, IsClear};

    /// Nothing is known of any cell.
    pub fn none() -> KnownChanges
        ensures { (test : ℕ → Bool) (end : ℕ) → TellsOf test end result }
    {
        KnownChanges {
            first: 0,
            count: 0,
            places: 0,
        }
    }

    /// The first cell, from number `from` on, that differs, if it is one of these. Err: from there on no cell before this number
    /// differs.
    pub fn next(&self, from: usize) -> Result<usize, usize>
        ensures { (test : ℕ → Bool) (end : ℕ) → TellsOf test end self.now →
            MatchResult result (λ index. IsNext test from end (Some index)) (λ behind. IsClear test from behind) }
    {
        if from < self.first || from - self.first >= self.count as usize {
            return Err(from);
        }
        let at = (from - self.first) as u32;
        match bits::next(self.places, at, self.count) {
            None => Err(self.first + self.count as usize),
            Some(place) => Ok(self.first + place as usize),
        }
    }
}

impl<const N: usize> Sheet<N> {
    ghost use Rattle.pz_sheet.specs.Changes.{changed_cells, changes_seen, IsChangeOf, with_cell, with_cells_back, differ_in, cell_there, TellsOf};

    /// Makes this level equal to a newer one of the same size, and gives the way back: exactly the cells in which they differed, as they
    /// were. Err: memory was refused, and the level is unchanged.
    #[tactic(auto, using(crate::proofs::NewerLemmas::all_taken, crate::proofs::NewerLemmas::size_back))]
    pub fn go_on(&mut self, newer: &Sheet<N>) -> Result<Vec<Change<N>>, AllocError>
        requires size { SameSize newer.now.grid self.old.grid }
        ensures newer { OnOk result (self.new.grid ≡ newer.now.grid) }
        ensures kept { OnErr result (self.new.grid ≡ self.old.grid) }
        ensures changes { IfOk result
            (λ changes. changes_seen newer.now.grid changes.items ≡ changed_cells newer.now.grid self.old.grid) }
        ensures of_level { IfOk result (λ changes. All (IsChangeOf newer.now.grid) changes.items) }
        ensures way_back { IfOk result
            (λ changes. with_cells_back (changes_seen newer.now.grid changes.items) newer.now.grid ≡ self.old.grid) }
    {
        let changes = newer.changes_to(self)?;
        for change in &changes {
            self.take_cell(newer, change.index);
        }
        Ok(changes)
    }

    /// The way back to an older level of the same size: exactly the cells in which it differs. Err: memory was refused.
    fn changes_to(&self, older: &Sheet<N>) -> Result<Vec<Change<N>>, AllocError>
        requires size { SameSize self.now.grid older.now.grid }
        ensures changes { IfOk result
            (λ changes. changes_seen self.now.grid changes.items ≡ changed_cells self.now.grid older.now.grid) }
        ensures of_level { IfOk result (λ changes. All (IsChangeOf self.now.grid) changes.items) }
        ensures way_back { IfOk result
            (λ changes. with_cells_back (changes_seen self.now.grid changes.items) self.now.grid ≡ older.now.grid) }
        ensures as_many { length self.now.grid.cells ≡ length older.now.grid.cells }
    {
        let mut changes = Vec::new(*self.cells.allocator());
        let mut from = 0;
        'changes: while let Some(index) = self.next_change(older, from) {
            let cell = *older.cell(index);
            changes.push(Change { index, cell })?;
            from = index + 1;
        }
        Ok(changes)
    }

    /// Puts the cells of an older level back.
    pub fn take_changes(&mut self, changes: &[Change<N>])
        requires { All (IsChangeOf self.old.grid) changes.now }
        ensures restored { self.new.grid ≡ with_cells_back (changes_seen self.old.grid changes.now) self.old.grid }
        ensures size { SameSize self.old.grid self.new.grid }
    {
        for change in changes {
            self.set_cell(change.index, change.cell);
        }
    }

    /// The first cell, from number `from` on, in which another level of the same size differs. Then the changes in its row are known, if
    /// that is little work.
    pub fn learn_next(
        &self,
        other: &Sheet<N>,
        known: &mut KnownChanges,
        from: usize,
    ) -> Option<usize>
        requires size { SameSize self.now.grid other.now.grid }
        requires known { TellsOf (differ_in self.now.grid other.now.grid) (length self.now.grid.cells) known.old }
        ensures next { IsNext (differ_in self.now.grid other.now.grid) from (length self.now.grid.cells) result }
        ensures known { TellsOf (differ_in self.now.grid other.now.grid) (length self.now.grid.cells) known.new }
        ensures as_many { length self.now.grid.cells ≡ length other.now.grid.cells }
        ensures lawful { IsLawful self.now.grid }
    {
        let are_still = are_empty(&self.notes, &other.notes);
        if are_still && self.is_told_by_planes() {
            let rows = self.planes.lines(Axis::Horizontal);
            let others = other.planes.lines(Axis::Horizontal);
            let Some(row) = rows.next_differing(others, self.width, from) else {
                return None;
            };
            *known = KnownChanges {
                first: row.line * self.width as usize,
                count: self.width,
                places: row.places,
            };
            return Some(row.found);
        }
        next_differing(&self.cells, &other.cells, are_still, from)
    }

    /// The first cell, from number `from` on, in which another level of the same size differs.
    pub fn next_change(&self, other: &Sheet<N>, from: usize) -> Option<usize>
        requires size { SameSize self.now.grid other.now.grid }
        ensures next { IsNext (differ_in self.now.grid other.now.grid) from (length self.now.grid.cells) result }
        ensures as_many { length self.now.grid.cells ≡ length other.now.grid.cells }
        ensures lawful { IsLawful self.now.grid }
    {
        self.learn_next(other, &mut KnownChanges::none(), from)
    }

    /// Makes this level equal to another of the same size. Only the cells in which they differ are copied.
    #[tactic(auto, using(crate::proofs::NewerLemmas::same_all, crate::proofs::SameLemmas::same_grids))]
    pub(crate) fn take_all(&mut self, other: &Sheet<N>)
        requires size { SameSize self.old.grid other.now.grid }
        ensures { self.new.grid ≡ other.now.grid }
    {
        let mut from = 0;
        'changes: while let Some(index) = self.next_change(other, from) {
            self.take_cell(other, index);
            from = index + 1;
        }
    }

    /// Whether to read from the planes, rather than from the cells, what stands in each cell. It takes less work if a row fits in a word,
    /// and half a row has more cells than the game has objects.
    pub(crate) fn is_told_by_planes(&self) -> bool
        ensures { result ≡ true → self.now.grid.width ≤ 128 }
    {
        self.width <= bits::ROOM && self.layers.object_count() < self.width as usize / 2
    }

    /// Whether the cell of this number is the same as some cell of another level of the same size.
    pub fn has_cell_of(&self, index: usize, other: &Sheet<N>, at: usize) -> bool
        requires size { SameSize self.now.grid other.now.grid }
        requires within { index < length self.now.grid.cells }
        requires there { at < length other.now.grid.cells }
        ensures { IsTrue result ↔ (cell_of self.now.grid index ≡ cell_of other.now.grid at) }
    {
        // (brings the proof the law of both levels)
        let _ = (self.layers().depth(), other.layers().depth());
        self.cell(index).same(other.cell(at))
    }

    /// Copies some cell of another level of the same size into the cell of this number.
    pub fn take_cell_of(&mut self, index: usize, other: &Sheet<N>, at: usize)
        requires size { SameSize self.old.grid other.now.grid }
        requires within { index < length self.old.grid.cells }
        requires there { at < length other.now.grid.cells }
        ensures { self.new.grid ≡
            with_cell self.old.grid (record { number = index; cell = cell_of other.now.grid at }) }
    {
        // (brings the proof the law of both levels)
        let _ = (self.width(), other.width(), other.layers().depth());
        self.set_cell(index, *other.cell(at));
    }

    /// Copies the cell of this number from another level of the same size.
    fn take_cell(&mut self, other: &Sheet<N>, index: usize)
        requires size { SameSize self.old.grid other.now.grid }
        requires within { index < length self.old.grid.cells }
        ensures { self.new.grid ≡ with_cell self.old.grid (cell_there other.now.grid index) }
    {
        // (brings the proof the law of both levels)
        let _ = (self.width(), other.width(), other.layers().depth());
        self.set_cell(index, *other.cell(index));
    }
}
