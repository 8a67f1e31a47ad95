//! Rows of numbers of one length, packed.

ghost use Rattle.std.specs.Prelude.{◌≡◌, ◌<◌, ◌-◌, ◌↔◌, [], ◌∷◌, ◌++◌, length, take, IsTrue, IfSome, OnOk, OnErr, Some, slice_get};

use pz_packed::Packed;
use std::alloc::{AllocError, Global};
use std::marker::Model;

/// Rows of `long` numbers each, one behind another.
pub struct Rows {
    long: usize,
    count: usize,
    numbers: Packed,
}

/// Written out, so that each place where one goes out of scope is one call.
impl Drop for Rows {
    fn drop(self) {
        let Rows {
            long: _,
            count: _,
            numbers,
        } = self;
        drop(numbers);
    }
}

impl Model for Rows {
    ghost use Rattle.std.specs.Prelude.{◌≡◌, ◌*◌, length};
    ghost use Rattle.pz_store.specs.Rows.{RowsState, rows_in};

    ghost Value = { RowsState };

    ghost view = { λ r. record { long = r.long; rows = rows_in r.long r.count r.numbers } };

    ghost invariant = { λ r. length r.numbers ≡ r.count * r.long };
}

impl Rows {
    /// No rows.
    pub(crate) fn new(alloc: Global, long: usize) -> Rows
        ensures long { result.long ≡ long }
        ensures rows { result.rows ≡ [] }
    {
        Rows {
            long,
            count: 0,
            numbers: Packed::new(alloc),
        }
    }

    /// Whether the row at a place has these numbers.
    pub(crate) fn has_at(&self, place: usize, row: &[u32]) -> bool
        requires within { place < length self.now.rows }
        requires long { length row.now ≡ self.now.long }
        ensures { IsTrue result ↔ (slice_get self.now.rows place ≡ Some row.now) }
    {
        // (brings the proof how many numbers there may be)
        let _ = self.numbers.len();
        self.numbers.has_at(place * self.long, row)
    }

    /// A number of the row at a place.
    pub(crate) fn get(&self, place: usize, index: usize) -> u32
        requires within { place < length self.now.rows }
        requires there { index < self.now.long }
        ensures { IfSome (slice_get self.now.rows place) (λ row. slice_get row index ≡ Some result) }
    {
        // (brings the proof how many numbers there may be)
        let _ = self.numbers.len();
        self.numbers.get(place * self.long + index)
    }

    /// Copies the numbers of the row at a place.
    pub(crate) fn copy_to(&self, place: usize, row: &mut [u32])
        requires within { place < length self.now.rows }
        requires long { length row.old ≡ self.now.long }
        ensures { slice_get self.now.rows place ≡ Some row.new }
    {
        for index in 0..self.long {
            row[index] = self.get(place, index);
        }
    }

    /// Adds a row. Err: memory was refused.
    pub(crate) fn push(&mut self, row: &[u32]) -> Result<(), AllocError>
        requires long { length row.now ≡ self.old.long }
        ensures long { self.new.long ≡ self.old.long }
        ensures pushed { OnOk result (self.new.rows ≡ self.old.rows ++ row.now ∷ []) }
        ensures kept { OnErr result (self.new.rows ≡ self.old.rows) }
    {
        let Some(count) = self.count.checked_add(1) else {
            return Err(AllocError);
        };
        self.numbers.extend(row)?;
        self.count = count;
        Ok(())
    }

    /// Takes the last row away.
    pub(crate) fn pop(&mut self)
        requires some { 0 < length self.old.rows }
        ensures long { self.new.long ≡ self.old.long }
        ensures popped { self.new.rows ≡ take (length self.old.rows - 1) self.old.rows }
    {
        // (brings the proof how many numbers there may be)
        let _ = self.numbers.len();
        self.count -= 1;
        self.numbers.truncate(self.count * self.long);
    }
}
