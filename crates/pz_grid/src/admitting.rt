//! The lines in which a row of a rule may start, as far as marks and headings show. The search skips the others.

ghost use Rattle.std.specs.Prelude.{◌≡◌, ◌<◌, IfSome, MatchOption, true, false, []};
ghost use Rattle.std.specs.List.{list_all};
ghost use Rattle.pz_game.specs.Pattern.{IsRowOf};
ghost use Rattle.pz_grid.specs.Admitted.{marks_of, marks_item, marks_cell, admits, admits_line, searches_level, searches_line, StartsNowhere};
ghost use Rattle.pz_grid.specs.Marks.{IsMarked};
ghost use Rattle.pz_grid.specs.Places.{line_count, places};
ghost use Rattle.pz_sheet.specs.Line.{IsWalk};
ghost use Rattle.pz_game.specs.declared.direction.Dir.{Dir};

use crate::Level;
use pz_bare::AnySheet;
use pz_game::direction::Dir;
use pz_game::masks::names;
use pz_game::pattern::{Item, Pattern, Row};
use pz_sets::set::NumberSet;
use pz_sets::words::has_subset;
use pz_sheet::Sheet;
use pz_sheet::line::{Axis, Walk, axis_of, walk_in};

/// Whether a set has an item's object, if the item names it as present.
fn marks_item(marks: &NumberSet, item: Item) -> bool
    ensures { result ≡ marks_item marks.now item }
{
    !names(item.word) || marks.contains(item.object)
}

/// Whether a set has every object that a cell of a rule names as present.
fn marks_cell(marks: &NumberSet, cell: &Pattern) -> bool
    ensures { result ≡ marks_cell marks.now cell.now }
{
    for item in cell.items() {
        if !marks_item(marks, *item) {
            return false;
        }
    }
    true
}

/// Whether a set has every object that a row's first cell names as present.
fn admits(marks: &NumberSet, row: &Row) -> bool
    ensures { result ≡ admits marks.now row.now.cells }
{
    marks_cell(marks, &row.cells()[0])
}

impl Level {
    /// The marks of a line: of a column for up and down, else of a row.
    fn marks_of(&self, dir: Dir, line: u32) -> &NumberSet
        requires { line < line_count self.now.grid dir }
        ensures { result.now ≡ marks_of self.now dir line }
    {
        match axis_of(dir) {
            Axis::Horizontal => &self.row_marks[line as usize],
            Axis::Vertical => &self.column_marks[line as usize],
        }
    }

    /// Whether a set has every object that any cell of the row names as present. (The level brings the proof the law of levels.)
    fn marks_all(&self, marks: &NumberSet, row: &Row) -> bool
        requires of_game { IsRowOf self.now.grid.layers row.now }
        ensures all { result ≡ list_all (marks_cell marks.now) row.now.cells }
        ensures marked { IsMarked self.now }
    {
        // (brings the proof the law of levels)
        let _ = self.width();
        has_subset(marks.words(), row.named().words())
    }

    /// Whether the level's marks have every object that the row's cells name as present. If not, the row has no place, in any direction.
    pub fn is_searched_for(&self, row: &Row) -> bool
        requires of_game { IsRowOf self.now.grid.layers row.now }
        ensures searched { result ≡ searches_level self.now row.now }
        ensures none { result ≡ false → (dir : Dir) → places self.now.grid row.now dir ≡ [] }
    {
        self.marks_all(&self.level_marks, row)
    }

    /// Whether the headings noted in the level allow a place of the row. If false, the row has no place, in any direction.
    pub fn may_hold(&self, row: &Row) -> bool
        requires of_game { IsRowOf self.now.grid.layers row.now }
        ensures none { result ≡ false → (dir : Dir) → places self.now.grid row.now dir ≡ [] }
    {
        self.bare().may_hold(row)
    }

    /// Whether a line is admitted for a row: its marks have every object that the row's first cell names as present.
    pub(crate) fn admits_line(&self, row: &Row, dir: Dir, line: u32) -> bool
        requires of_game { IsRowOf self.now.grid.layers row.now }
        requires line_in { line < line_count self.now.grid dir }
        ensures { result ≡ admits_line self.now row.now dir line }
    {
        admits(self.marks_of(dir, line), row)
    }

    /// Whether the line's marks have every object that any cell of the row names as present. If not, no place of the row starts there.
    pub(crate) fn searches_line(&self, row: &Row, dir: Dir, line: u32) -> bool
        requires of_game { IsRowOf self.now.grid.layers row.now }
        requires line_in { line < line_count self.now.grid dir }
        ensures searched { result ≡ searches_line self.now row.now dir line }
        ensures marked { IsMarked self.now }
    {
        self.marks_all(self.marks_of(dir, line), row)
    }

    /// The walk along a line, if the line's marks and headings allow a place of the row to start there. `None`: none does.
    pub(crate) fn walk_for(&self, row: &Row, dir: Dir, line: u32) -> Option<Walk>
        requires of_game { IsRowOf self.now.grid.layers row.now }
        requires line_in { line < line_count self.now.grid dir }
        ensures searched { IfSome result (λ _. searches_line self.now row.now dir line ≡ true) }
        ensures walk { MatchOption result (StartsNowhere self.now.grid row.now dir line) (IsWalk dir line) }
    {
        if !self.searches_line(row, dir, line) {
            return None;
        }
        match self.bare().sheet() {
            AnySheet::Small(sheet) => walk_by_headings(sheet, row, dir, line),
            AnySheet::Middle(sheet) => walk_by_headings(sheet, row, dir, line),
            AnySheet::Large(sheet) => walk_by_headings(sheet, row, dir, line),
        }
    }
}

/// The walk along a line, if the headings noted there allow a place of the row to start there. `None`: none does.
#[tactic(auto, using(crate::proofs::SomewhereLemmas::action_nowhere, crate::proofs::SomewhereLemmas::nowhere_along))]
fn walk_by_headings<const N: usize>(
    sheet: &Sheet<N>,
    row: &Row,
    dir: Dir,
    line: u32,
) -> Option<Walk>
    requires of_game { IsRowOf sheet.now.grid.layers row.now }
    requires line_in { line < line_count sheet.now.grid dir }
    ensures { MatchOption result (StartsNowhere sheet.now.grid row.now dir line) (IsWalk dir line) }
{
    // (brings the proof that a row has a cell)
    let _ = row.cells();
    match walk_in(dir, line) {
        Some(walk) if sheet.may_hold_in_line(walk.line, row) => Some(walk),
        _ => None,
    }
}
