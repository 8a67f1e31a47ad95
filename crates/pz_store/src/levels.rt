//! Levels, each as the numbers of its cells.

ghost use Rattle.std.specs.Prelude.{◌≡◌, ◌<◌, ◌-◌, ◌↔◌, [], ◌∷◌, ◌++◌, All, length, take, slice_get};
ghost use Rattle.std.specs.Prelude.{IsTrue, IfOk, MatchResult, OnErr, OnOk, Some, option_map};
ghost use Rattle.pz_sheet.specs.Changes.{with_cell};
ghost use Rattle.pz_sheet.specs.Grid.{Grid, SameSize};
ghost use Rattle.pz_store.specs.Book.{AreNumbers, Extends};
ghost use Rattle.pz_store.specs.Digest.{digest_of};
ghost use Rattle.pz_store.specs.Levels.{IsRow, changed_places};

use crate::book::Book;
use crate::digest::{mixed, powers, replaced};
use crate::rows::Rows;
use pz_bare::BareLevel;
use pz_sheet::changes::KnownChanges;
use std::alloc::{AllocError, Global};
use std::marker::Model;

/// Levels of one size in order, each a row of the numbers that its cells have in the book. `powers` says by how much the word of each
/// cell counts in a digest.
pub struct Levels {
    book: Book,
    rows: Rows,
    powers: Vec<u64>,
}

/// Written out, so that each place where one goes out of scope is one call.
impl Drop for Levels {
    fn drop(self) {
        let Levels { book, rows, powers } = self;
        drop(book);
        drop(rows);
        drop(powers);
    }
}

impl Model for Levels {
    ghost use Rattle.std.specs.Prelude.{map};
    ghost use Rattle.pz_store.specs.Levels.{LevelsState, level_of, AreLevels};

    ghost Value = { LevelsState };

    ghost view = { λ l. record {
      frame = l.book.frame;
      objects = l.book.objects;
      cells = l.book.cells;
      grids = map (level_of l.book.frame l.book.cells) l.rows.rows;
    } };

    ghost invariant = { λ l. AreLevels l.book l.rows l.powers.items };
}

impl Levels {
    /// No levels, for levels of the size of one. Err: memory was refused.
    pub fn new(alloc: Global, level: &BareLevel, objects: usize) -> Result<Levels, AllocError>
        ensures frame { IfOk result (λ levels. levels.frame ≡ level.now.grid) }
        ensures objects { IfOk result (λ levels. levels.objects ≡ objects) }
        ensures grids { IfOk result (λ levels. levels.grids ≡ []) }
    {
        let book = Book::new(alloc, level, objects)?;
        let rows = Rows::new(alloc, level.cell_count());
        let powers = powers(alloc, level.cell_count())?;
        Ok(Levels { book, rows, powers })
    }

    /// The numbers of the cells of a level. Cells that have none get the next ones. Err: memory was refused.
    pub fn number_all(&mut self, alloc: Global, level: &BareLevel) -> Result<Vec<u32>, AllocError>
        requires size { SameSize self.old.frame level.now.grid }
        ensures frame { self.new.frame ≡ self.old.frame }
        ensures objects { self.new.objects ≡ self.old.objects }
        ensures grids { self.new.grids ≡ self.old.grids }
        ensures numbers { IfOk result (λ numbers. AreNumbers self.new.cells numbers.items level.now.grid) }
        ensures row { IfOk result (λ numbers. IsRow self.new.frame self.new.cells numbers.items) }
    {
        // (brings the proof the law of both levels)
        let _ = (self.book.frame().width(), level.width());
        let mut numbers = Vec::with_capacity(alloc, level.cell_count())?;
        for index in 0..level.cell_count() {
            numbers.push(self.book.number_of(level, index)?)?;
        }
        Ok(numbers)
    }

    /// Turns the numbers and the digest of level `before` into those of `level`. Looks up only the cells in which they differ, and appends
    /// these to `changed`. Err: memory was refused; `numbers` may then be those of neither level, and `changed` may have grown.
    pub fn number(
        &mut self,
        before: &BareLevel,
        level: &BareLevel,
        numbers: &mut [u32],
        digest: u64,
        changed: &mut Vec<usize>,
    ) -> Result<u64, AllocError>
        requires frame { SameSize self.old.frame before.now.grid }
        requires size { SameSize before.now.grid level.now.grid }
        requires row { IsRow self.old.frame self.old.cells numbers.old }
        requires numbers { AreNumbers self.old.cells numbers.old before.now.grid }
        requires digest { digest ≡ digest_of self.old.objects before.now.grid }
        ensures frame { self.new.frame ≡ self.old.frame }
        ensures objects { self.new.objects ≡ self.old.objects }
        ensures grids { self.new.grids ≡ self.old.grids }
        ensures extends { Extends self.old.cells self.new.cells }
        ensures size { OnOk result (SameSize self.new.frame level.now.grid) }
        ensures numbers { OnOk result (AreNumbers self.new.cells numbers.new level.now.grid) }
        ensures row { OnOk result (IsRow self.new.frame self.new.cells numbers.new) }
        ensures long { length numbers.new ≡ length numbers.old }
        ensures digest { IfOk result (λ digest. digest ≡ digest_of self.new.objects level.now.grid) }
        ensures changed { OnOk result
            (changed.new.items ≡ changed.old.items ++ changed_places level.now.grid before.now.grid) }
        ensures within { All (λ index. index < length level.now.grid.cells) changed.old.items →
            All (λ index. index < length level.now.grid.cells) changed.new.items }
    {
        // (brings the proof the law of both levels)
        let _ = (before.width(), level.width());
        let mut digest = digest;
        let mut known = KnownChanges::none();
        let mut from = 0;
        'changes: while let Some(index) = level.next_change_after(before, &mut known, from) {
            let number = self.book.number_of(level, index)?;
            changed.push(index)?;
            let old = self.book.word(numbers[index]);
            let new = self.book.word(number);
            digest = replaced(digest, old, new, self.powers[index]);
            numbers[index] = number;
            from = index + 1;
        }
        Ok(digest)
    }

    /// Copies the numbers of the cells of the level at a place into `numbers`.
    pub fn copy_to(&self, place: usize, numbers: &mut [u32])
        requires within { place < length self.now.grids }
        requires long { length numbers.old ≡ length self.now.frame.cells }
        ensures size { (grid : Grid) → slice_get self.now.grids place ≡ Some grid → SameSize self.now.frame grid }
        ensures numbers { (grid : Grid) → slice_get self.now.grids place ≡ Some grid →
            AreNumbers self.now.cells numbers.new grid }
        ensures row { IsRow self.now.frame self.now.cells numbers.new }
    {
        self.rows.copy_to(place, numbers);
    }

    /// The digest of the level of these numbers.
    pub fn digest(&self, numbers: &[u32]) -> u64
        requires { IsRow self.now.frame self.now.cells numbers.now }
        ensures { (grid : Grid) → AreNumbers self.now.cells numbers.now grid →
            result ≡ digest_of self.now.objects grid }
    {
        let mut digest = 0;
        for number in numbers {
            digest = mixed(digest, self.book.word(*number));
        }
        digest
    }

    /// Whether the level at a place is the one of these numbers.
    pub fn has_at(&self, place: usize, numbers: &[u32]) -> bool
        requires within { place < length self.now.grids }
        requires numbers { IsRow self.now.frame self.now.cells numbers.now }
        ensures { (grid : Grid) → SameSize self.now.frame grid → AreNumbers self.now.cells numbers.now grid →
            IsTrue result ↔ (slice_get self.now.grids place ≡ Some grid) }
    {
        // (brings the proof that no cell has two numbers)
        let _ = self.book.frame();
        self.rows.has_at(place, numbers)
    }

    /// Adds the level of these numbers. Err: memory was refused.
    pub fn push(&mut self, numbers: &[u32]) -> Result<(), AllocError>
        requires { IsRow self.old.frame self.old.cells numbers.now }
        ensures frame { self.new.frame ≡ self.old.frame }
        ensures objects { self.new.objects ≡ self.old.objects }
        ensures cells { self.new.cells ≡ self.old.cells }
        ensures pushed { OnOk result
            ((grid : Grid) → SameSize self.old.frame grid → AreNumbers self.old.cells numbers.now grid →
            self.new.grids ≡ self.old.grids ++ grid ∷ []) }
        ensures kept { OnErr result (self.new.grids ≡ self.old.grids) }
    {
        self.rows.push(numbers)?;
        Ok(())
    }

    /// Takes the last level away.
    pub fn pop(&mut self)
        requires { 0 < length self.old.grids }
        ensures frame { self.new.frame ≡ self.old.frame }
        ensures objects { self.new.objects ≡ self.old.objects }
        ensures cells { self.new.cells ≡ self.old.cells }
        ensures popped { self.new.grids ≡ take (length self.old.grids - 1) self.old.grids }
    {
        self.rows.pop();
    }

    /// Puts the cell of a number into a level.
    pub fn put(&self, level: &mut BareLevel, index: usize, number: u32)
        requires size { SameSize self.now.frame level.old.grid }
        requires within { index < length self.now.frame.cells }
        requires number { number < length self.now.cells }
        ensures { option_map (λ cell. with_cell level.old.grid (record { number = index; cell = cell }))
            (slice_get self.now.cells number) ≡ Some level.new.grid }
    {
        self.book.put(level, index, number);
    }
}
