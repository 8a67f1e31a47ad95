//! The distinct cells of levels, by their numbers.

ghost use Rattle.std.specs.Prelude.{◌≡◌, ◌<◌, [], length, All, IfOk, OnOk, Some, MatchOption, option_map, slice_get};
ghost use Rattle.pz_sheet.specs.Changes.{with_cell};
ghost use Rattle.pz_sheet.specs.Grid.{SameSize};
ghost use Rattle.pz_sheet.specs.Presence.{cell_of};
ghost use Rattle.pz_store.specs.Book.{AreDistinctCells, Extends, HasMore, IsFramed, IsInLast, IsUnknown};
ghost use Rattle.pz_store.specs.Digest.{cell_word};

use crate::digest::cell_word;
use pz_bare::BareLevel;
use std::alloc::{AllocError, Global};
use std::marker::Model;

/// Where a cell stands: in which of the levels that a book keeps, and which cell it is there; and its word.
#[derive(Clone, Copy)]
pub struct Place {
    pub level: usize,
    pub index: usize,
    pub word: u64,
}

/// The distinct cells of levels of one size, that of `frame`, numbered as they came. Each is kept as where it stands in a level in which it
/// came. Words are made of `objects` objects.
pub struct Book {
    frame: BareLevel,
    objects: usize,
    levels: Vec<BareLevel>,
    places: Vec<Place>,
}

/// Written out, so that each place where one goes out of scope is one call.
impl Drop for Book {
    fn drop(self) {
        let Book {
            frame,
            objects: _,
            levels,
            places,
        } = self;
        drop(frame);
        drop(levels);
        drop(places);
    }
}

impl Model for Book {
    ghost use Rattle.std.specs.Prelude.{map};
    ghost use Rattle.pz_store.specs.Book.{BookState, cell_in, IsBook};

    ghost Value = { BookState };

    ghost view = { λ b. record {
      frame = b.frame.grid;
      objects = b.objects;
      cells = map (cell_in b.levels.items) b.places.items;
    } };

    ghost invariant = { λ b. IsBook b.frame.grid b.levels.items b.places.items b.objects };
}

/// Keeps a level, unless the last one that is kept has this cell of it too. Err: memory was refused, and nothing changed.
fn keep(kept: &mut Vec<BareLevel>, level: &BareLevel, index: usize) -> Result<(), AllocError>
    requires alike { All (IsFramed level.now.grid) kept.old.items }
    requires within { index < length level.now.grid.cells }
    ensures more { HasMore kept.old.items kept.new.items level.now.grid }
    ensures last { OnOk result (IsInLast kept.new.items index (cell_of level.now.grid index)) }
{
    let count = kept.len();
    if count > 0 && level.has_cell_of(index, &kept[count - 1], index) {
        return Ok(());
    }
    kept.push(level.copy()?)?;
    Ok(())
}

impl Book {
    /// A book without cells, for levels of the size of one. Err: memory was refused.
    pub(crate) fn new(alloc: Global, level: &BareLevel, objects: usize) -> Result<Book, AllocError>
        ensures frame { IfOk result (λ book. book.frame ≡ level.now.grid) }
        ensures objects { IfOk result (λ book. book.objects ≡ objects) }
        ensures cells { IfOk result (λ book. book.cells ≡ []) }
    {
        Ok(Book {
            frame: level.copy()?,
            objects,
            levels: Vec::new(alloc),
            places: Vec::new(alloc),
        })
    }

    /// A level of the size that all have.
    pub(crate) fn frame(&self) -> &BareLevel
        ensures frame { result.now.grid ≡ self.now.frame }
        ensures distinct { AreDistinctCells self.now.cells }
    {
        &self.frame
    }

    /// The number of a cell of a level, if it has one.
    fn find(&self, level: &BareLevel, index: usize) -> Option<usize>
        requires size { SameSize self.now.frame level.now.grid }
        requires within { index < length self.now.frame.cells }
        ensures { MatchOption result (IsUnknown self.now.cells (cell_of level.now.grid index))
            (λ number. slice_get self.now.cells number ≡ Some (cell_of level.now.grid index)) }
    {
        // (brings the proof the law of both levels)
        let _ = (self.frame.width(), level.width());
        for number in 0..self.places.len() {
            let place = self.places[number];
            if level.has_cell_of(index, &self.levels[place.level], place.index) {
                return Some(number);
            }
        }
        None
    }

    /// Gives a cell of a level the next number. Err: memory was refused, and no number was given.
    fn add(&mut self, level: &BareLevel, index: usize) -> Result<(), AllocError>
        requires size { SameSize self.old.frame level.now.grid }
        requires within { index < length self.old.frame.cells }
        requires new { IsUnknown self.old.cells (cell_of level.now.grid index) }
        ensures frame { self.new.frame ≡ self.old.frame }
        ensures objects { self.new.objects ≡ self.old.objects }
        ensures extends { Extends self.old.cells self.new.cells }
        ensures added { OnOk result
            (slice_get self.new.cells (length self.old.cells) ≡ Some (cell_of level.now.grid index)) }
    {
        // (brings the proof the law of both levels)
        let _ = (self.frame.width(), level.width());
        keep(&mut self.levels, level, index)?;
        self.places.push(Place {
            level: self.levels.len() - 1,
            index,
            word: cell_word(level, index, self.objects),
        })?;
        Ok(())
    }

    /// The number of a cell of a level. A cell that has none gets the next one. Err: memory was refused.
    pub(crate) fn number_of(&mut self, level: &BareLevel, index: usize) -> Result<u32, AllocError>
        requires size { SameSize self.old.frame level.now.grid }
        requires within { index < length self.old.frame.cells }
        ensures frame { self.new.frame ≡ self.old.frame }
        ensures objects { self.new.objects ≡ self.old.objects }
        ensures extends { Extends self.old.cells self.new.cells }
        ensures number { IfOk result (λ number. slice_get self.new.cells number ≡ Some (cell_of level.now.grid index)) }
    {
        let number = match self.find(level, index) {
            Some(number) => number,
            None => {
                let number = self.places.len();
                self.add(level, index)?;
                number
            }
        };
        match u32::try_from(number) {
            Ok(number) => Ok(number),
            Err(_) => Err(AllocError),
        }
    }

    /// Puts the cell of a number into a level.
    pub(crate) fn put(&self, level: &mut BareLevel, index: usize, number: u32)
        requires size { SameSize self.now.frame level.old.grid }
        requires within { index < length self.now.frame.cells }
        requires number { number < length self.now.cells }
        ensures { option_map (λ cell. with_cell level.old.grid (record { number = index; cell = cell }))
            (slice_get self.now.cells number) ≡ Some level.new.grid }
    {
        // (brings the proof the law of both levels)
        let _ = (self.frame.width(), level.width());
        let place = self.places[number as usize];
        level.take_cell_of(index, &self.levels[place.level], place.index);
    }

    /// The word of a number's cell.
    pub(crate) fn word(&self, number: u32) -> u64
        requires { number < length self.now.cells }
        ensures { option_map (cell_word self.now.objects) (slice_get self.now.cells number) ≡ Some result }
    {
        self.places[number as usize].word
    }
}
