//! Where something heads in a level.

ghost use Rattle.std.specs.Prelude.{◌≡◌, ◌<◌, List, All, true};
ghost use Rattle.pz_game.specs.declared.pattern.Item.{Item};
ghost use Rattle.pz_game.specs.Pattern.{AreOf, IsRowOf};
ghost use Rattle.pz_game.specs.Pattern.{AsksAmong};
ghost use Rattle.pz_sheet.specs.Line.{line_count};
ghost use Rattle.pz_sheet.specs.Searching.{HoldsSomewhere, HoldsInLine};

use crate::Sheet;
use crate::line::Line;
use pz_game::pattern::Row;
use pz_sets::words::{has_subset, is_disjoint};

impl<const N: usize> Sheet<N> {
    /// Whether the headings noted in the level allow each cell of a row to hold somewhere. If false, some cell holds nowhere.
    pub fn may_hold(&self, row: &Row) -> bool
        requires of_game { IsRowOf self.now.grid.layers row.now }
        ensures { All (HoldsSomewhere self.now.grid) row.now.cells → result ≡ true }
    {
        has_subset(self.notes.whole().words(), row.required().words())
    }

    /// Whether the headings noted in the level allow a heading of the set `asked`. If false, cells that ask for one of these don't all hold
    /// somewhere.
    pub fn may_head_in(&self, asked: &[u128]) -> bool
        ensures { (cells : List (List Item)) → All (AreOf self.now.grid.layers) cells → AsksAmong asked.now cells →
            All (HoldsSomewhere self.now.grid) cells → result ≡ true }
    {
        !is_disjoint(self.notes.whole().words(), asked)
    }

    /// Whether the headings noted in a line allow each cell of a rule's row to hold somewhere in it. If false, some cell holds nowhere in
    /// the line.
    pub fn may_hold_in_line(&self, line: Line, row: &Row) -> bool
        requires line_in { line.number < line_count self.now.grid line.axis }
        requires of_game { IsRowOf self.now.grid.layers row.now }
        ensures { All (HoldsInLine self.now.grid line) row.now.cells → result ≡ true }
    {
        has_subset(
            self.notes.line(line.axis, line.number).words(),
            row.required().words(),
        )
    }
}
