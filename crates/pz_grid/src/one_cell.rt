//! Rows of one cell, rewritten without the loops that rows of several need.

ghost use Rattle.std.specs.Prelude.{◌≡◌};
ghost use Rattle.pz_game.specs.Pattern.{AreOf};
ghost use Rattle.pz_sheet.specs.Grid.{SameSize};
ghost use Rattle.pz_grid.specs.Marks.{IsWidenedBy};
ghost use Rattle.pz_game.specs.Items.{names_object};
ghost use Rattle.pz_grid.specs.Places.{row_of_one};
ghost use Rattle.pz_grid.specs.Rewriting.{in_rewrite, rewritten_row};

use crate::Level;
use crate::placing::Place;
use pz_game::direction::Dir;
use pz_game::pattern::Pattern;

impl Level {
    /// Rewrites a row of one cell at its place. True: this or an earlier rewriting changed a cell. It doesn't test whether the row holds,
    /// and does nothing off the map.
    pub fn rewrite_cell(
        &mut self,
        dir: Dir,
        place: Place,
        left: &Pattern,
        right: &Pattern,
        changed: bool,
    ) -> bool
        requires left_of { AreOf self.old.grid.layers left.now }
        requires right_of { AreOf self.old.grid.layers right.now }
        ensures rewritten { in_rewrite self.new.grid result ≡
            rewritten_row dir (in_rewrite self.old.grid changed) (place, (row_of_one left.now, row_of_one right.now)) }
        ensures size { SameSize self.old.grid self.new.grid }
        ensures marks { IsWidenedBy self.old self.new (λ object. names_object object right.now) }
    {
        let at = self.position_of(dir, None, place, 0);
        self.rewrite_at(at, left, right, changed)
    }
}
