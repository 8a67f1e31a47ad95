//! A test of a level's headings for all rows that ask for one of several headings.

ghost use Rattle.std.specs.Prelude.{◌≡◌, [], false};
ghost use Rattle.pz_game.specs.declared.direction.Dir.{Dir};
ghost use Rattle.pz_game.specs.Pattern.{RuleRow, IsRowOf, AsksAmong};
ghost use Rattle.pz_grid.specs.Places.{places};

use crate::Level;
use pz_program::headings::Headings;

impl Level {
    /// Whether the level's headings allow one of those in `asked`. If false, no row that asks for one of these has a place, in any
    /// direction.
    pub fn may_head_in(&self, asked: &Headings) -> bool
        ensures { result ≡ false → (row : RuleRow) (dir : Dir) → IsRowOf self.now.grid.layers row →
            AsksAmong asked.now row.cells → places self.now.grid row dir ≡ [] }
    {
        self.bare().may_head_in(asked.words())
    }
}
