//! Where something may head in a level. The whole level, each row and each column has a set of headings: a heading is a layer with a
//! direction, as one number.

ghost use Rattle.std.specs.Prelude.{◌≡◌, ◌≤◌, ◌<◌, ◌*◌, ◌/◌, ◌%◌, ◌||◌, ◌↔◌, IsTrue, ℕ, [], false, length, slice_index_or, IfOk, OnOk, OnErr, MatchOption};
ghost use Rattle.pz_sets.specs.Sets.{member};
ghost use Rattle.pz_planes.specs.Noted.{AreAmong};
ghost use Rattle.pz_planes.specs.Notes.{HaveNone, HaveNoneBetween, IsMoreIn, headings_of};

use crate::bits;
use crate::copying::{make_room, refill};
use crate::line::Axis;
use pz_sets::set::NumberSet;
use pz_sets::words;
use std::alloc::{AllocError, Global};
use std::marker::Model;

/// Sets of at least the headings in the whole level, in each row and in each column. Of the first 128 rows and columns those outside a word
/// of bits have empty sets, so a map of up to 128 lines is searched by that word.
pub struct Notes {
    whole: NumberSet,
    rows: Vec<NumberSet>,
    columns: Vec<NumberSet>,
    noted_rows: u128,
    noted_columns: u128,
}

/// Written out, as for planes.
impl Drop for Notes {
    fn drop(self) {
        let Notes {
            whole: _,
            rows,
            columns,
            noted_rows: _,
            noted_columns: _,
        } = self;
        drop(rows);
        drop(columns);
    }
}

impl Model for Notes {
    ghost use Rattle.pz_planes.specs.Notes.{HeadingSets};

    ghost Value = { HeadingSets };

    ghost view = { λ n. record { whole = n.whole; rows = n.rows.items; columns = n.columns.items } };

    ghost use Rattle.pz_planes.specs.Noted.{AreAmong};

    ghost invariant = { λ n. AreAmong n.noted_rows n.rows.items × AreAmong n.noted_columns n.columns.items };
}

impl Notes {
    /// Notes without headings, for a map of this size. Err: memory was refused.
    pub fn empty(alloc: Global, width: usize, height: usize) -> Result<Notes, AllocError>
        ensures rows { IfOk result (λ notes. length notes.rows ≡ height) }
        ensures columns { IfOk result (λ notes. length notes.columns ≡ width) }
        ensures none { IfOk result HaveNone }
    {
        let rows = vec![in alloc; NumberSet::empty(); height]?;
        let columns = vec![in alloc; NumberSet::empty(); width]?;
        Ok(Notes {
            whole: NumberSet::empty(),
            rows,
            columns,
            noted_rows: 0,
            noted_columns: 0,
        })
    }

    /// The headings noted for the whole level.
    pub fn whole(&self) -> &NumberSet
        ensures { result.now ≡ self.now.whole }
    {
        &self.whole
    }

    /// The headings noted for a line.
    pub fn line(&self, axis: Axis, number: u32) -> &NumberSet
        requires { number < length (headings_of self.now axis) }
        ensures { result.now ≡ slice_index_or (headings_of self.now axis) number [] }
    {
        match axis {
            Axis::Horizontal => &self.rows[number as usize],
            Axis::Vertical => &self.columns[number as usize],
        }
    }

    /// The first row, from number `from` on, for which a heading may be noted. None is noted for those before it.
    pub fn next_row(&self, from: usize) -> Option<usize>
        ensures { MatchOption result (HaveNoneBetween self.now.rows from (length self.now.rows))
            (λ row. (from ≤ row) × (row < length self.now.rows) × HaveNoneBetween self.now.rows from row) }
    {
        next_noted(&self.rows, self.noted_rows, from)
    }

    /// The same of columns.
    pub fn next_column(&self, from: usize) -> Option<usize>
        ensures { MatchOption result (HaveNoneBetween self.now.columns from (length self.now.columns))
            (λ column. (from ≤ column) × (column < length self.now.columns) ×
            HaveNoneBetween self.now.columns from column) }
    {
        next_noted(&self.columns, self.noted_columns, from)
    }

    /// Notes headings for the cell of this number: adds them to those of the level, of its row and of its column. Cells are numbered row by
    /// row.
    pub fn add(&mut self, index: usize, headings: &NumberSet)
        requires within { index < length self.old.columns * length self.old.rows }
        ensures whole { (number : ℕ) →
            member self.new.whole number ≡ (member self.old.whole number || member headings.now number) }
        ensures rows { IsMoreIn self.old.rows self.new.rows (index / length self.old.columns) headings.now }
        ensures columns { IsMoreIn self.old.columns self.new.columns (index % length self.old.columns) headings.now }
    {
        let width = self.columns.len();
        self.whole = self.whole.union(headings);
        widen(
            &mut self.rows,
            &mut self.noted_rows,
            index / width,
            headings,
        );
        widen(
            &mut self.columns,
            &mut self.noted_columns,
            index % width,
            headings,
        );
    }

    /// Forgets all headings.
    pub fn clear(&mut self)
        ensures rows { length self.new.rows ≡ length self.old.rows }
        ensures columns { length self.new.columns ≡ length self.old.columns }
        ensures none { HaveNone self.new }
    {
        self.whole = NumberSet::empty();
        clear_noted(&mut self.rows, self.noted_rows);
        clear_noted(&mut self.columns, self.noted_columns);
        self.noted_rows = 0;
        self.noted_columns = 0;
    }

    /// A copy of the notes. Err: memory was refused.
    pub fn copy(&self) -> Result<Notes, AllocError>
        ensures { IfOk result (λ notes. notes ≡ self.now) }
    {
        let alloc = *self.rows.allocator();
        let rows = Vec::from_slice(alloc, &self.rows)?;
        let columns = Vec::from_slice(alloc, &self.columns)?;
        Ok(Notes {
            whole: self.whole,
            rows,
            columns,
            noted_rows: self.noted_rows,
            noted_columns: self.noted_columns,
        })
    }

    /// Makes these notes equal to others. They reuse their memory if that is enough. Err: memory was refused, and the notes are unchanged.
    pub fn copy_from(&mut self, other: &Notes) -> Result<(), AllocError>
        ensures copied { OnOk result (self.new ≡ other.now) }
        ensures kept { OnErr result (self.new ≡ self.old) }
    {
        make_room(&mut self.rows, other.rows.len())?;
        make_room(&mut self.columns, other.columns.len())?;
        self.whole = other.whole;
        refill(&mut self.rows, &other.rows);
        refill(&mut self.columns, &other.columns);
        self.noted_rows = other.noted_rows;
        self.noted_columns = other.noted_columns;
        Ok(())
    }
}

/// Whether a set of headings is empty.
pub fn is_empty(headings: &NumberSet) -> bool
    ensures { IsTrue result ↔ ((number : ℕ) → member headings.now number ≡ false) }
{
    words::is_empty(headings.words())
}

/// Whether neither of two levels has a heading noted.
pub fn are_empty(notes: &Notes, others: &Notes) -> bool
    ensures { IsTrue result ↔
        (((number : ℕ) → member notes.now.whole number ≡ false) ×
        ((number : ℕ) → member others.now.whole number ≡ false)) }
{
    is_empty(notes.whole()) && is_empty(others.whole())
}

/// The first line, from number `from` on, for which a heading may be noted. None is noted for those before it.
fn next_noted(sets: &[NumberSet], noted: u128, from: usize) -> Option<usize>
    requires { AreAmong noted sets.now }
    ensures { MatchOption result (HaveNoneBetween sets.now from (length sets.now))
        (λ line. (from ≤ line) × (line < length sets.now) × HaveNoneBetween sets.now from line) }
{
    let end = sets.len();
    if end > bits::ROOM as usize || from >= end {
        return next_of_many(sets, from);
    }
    match bits::next(noted, from as u32, end as u32) {
        None => None,
        Some(line) => Some(line as usize),
    }
}

/// The same, set by set.
fn next_of_many(sets: &[NumberSet], from: usize) -> Option<usize>
    ensures { MatchOption result (HaveNoneBetween sets.now from (length sets.now))
        (λ line. (from ≤ line) × (line < length sets.now) × HaveNoneBetween sets.now from line) }
{
    for line in from..sets.len() {
        if !is_empty(&sets[line]) {
            return Some(line);
        }
    }
    None
}

/// Adds headings to the set of a line.
fn widen(sets: &mut Vec<NumberSet>, noted: &mut u128, line: usize, headings: &NumberSet)
    requires within { line < length sets.old.items }
    requires among { AreAmong noted.old sets.old.items }
    ensures more { IsMoreIn sets.old.items sets.new.items line headings.now }
    ensures among { AreAmong noted.new sets.new.items }
{
    sets[line] = sets[line].union(headings);
    if line < bits::ROOM as usize {
        *noted = bits::with(*noted, line);
    }
}

/// Empties each set. Those of the first 128 lines that aren't noted are empty.
fn clear_noted(sets: &mut [NumberSet], noted: u128)
    requires { AreAmong noted sets.old }
    ensures count { length sets.new ≡ length sets.old }
    ensures none { (line number : ℕ) → member (slice_index_or sets.new line []) number ≡ false }
{
    let end = sets.len();
    if end > bits::ROOM as usize {
        clear(sets);
        return;
    }
    let mut from = 0;
    'lines: while let Some(line) = bits::next(noted, from, end as u32) {
        sets[line as usize] = NumberSet::empty();
        from = line + 1;
    }
}

/// Empties each set.
pub(crate) fn clear(sets: &mut [NumberSet])
    ensures count { length sets.new ≡ length sets.old }
    ensures none { (line number : ℕ) → member (slice_index_or sets.new line []) number ≡ false }
{
    for line in 0..sets.len() {
        sets[line] = NumberSet::empty();
    }
}
