//! Levels of a game: loaded, read, compared, matched, rewritten, pushed and moved. Marks let the search skip lines where a row can't start.
#![tactic(auto)]

ghost use Rattle.std.specs.Prelude.{◌≡◌, ◌<◌, ℕ, Some, None};
ghost use Rattle.pz_sets.specs.Sets.{member};
ghost use Rattle.pz_sheet.specs.Grid.{IsLawful};
ghost use Rattle.pz_grid.specs.Marks.{IsMarked};
ghost use Rattle.pz_sheet.specs.Standing.{stands, heading_at};

use pz_bare::BareLevel;
use pz_game::direction::Dir;
use std::marker::Model;

mod admitting;
mod differing;
mod headed;
mod marks;
mod movement;
mod one_cell;
pub mod placing;
mod presence;
mod pushing;
pub mod rewriting;
mod sameness;

pub use movement::resolve;
pub use placing::{GridFault, MATCH_LIMIT, Place, admitted, places, places_counted, still_matches};
pub use pushing::push_players;
pub use pz_sets::set::NumberSet;
pub use rewriting::rewrite;
pub use sameness::same;

/// A level: what stands in its cells, and its marks. Each row, each column and the whole level has as marks a set of at least the objects
/// that stand there.
pub struct Level {
    bare: BareLevel,
    row_marks: Vec<NumberSet>,
    column_marks: Vec<NumberSet>,
    level_marks: NumberSet,
}

/// Written out, as for a sheet.
impl Drop for Level {
    fn drop(self) {
        let Level {
            bare,
            row_marks,
            column_marks,
            level_marks: _,
        } = self;
        drop(bare);
        drop(row_marks);
        drop(column_marks);
    }
}

impl Model for Level {
    ghost use Rattle.pz_sheet.specs.Grid.{LevelState};
    ghost use Rattle.pz_grid.specs.Marks.{IsMarked};

    ghost Value = { LevelState };

    ghost view = { λ a. record {
      grid = a.bare.grid;
      row_marks = a.row_marks.items;
      column_marks = a.column_marks.items;
      level_marks = a.level_marks;
    } };

    ghost invariant = { λ a. IsMarked (record {
      grid = a.bare.grid;
      row_marks = a.row_marks.items;
      column_marks = a.column_marks.items;
      level_marks = a.level_marks;
    }) };
}

impl Level {
    /// What stands in its cells.
    pub fn bare(&self) -> &BareLevel
        ensures { result.now.grid ≡ self.now.grid }
    {
        &self.bare
    }

    /// The number of columns.
    pub fn width(&self) -> u32
        ensures width { result ≡ self.now.grid.width }
        ensures lawful { IsLawful self.now.grid }
        ensures marked { IsMarked self.now }
    {
        self.bare.width()
    }

    /// The number of rows.
    pub fn height(&self) -> u32
        ensures height { result ≡ self.now.grid.height }
        ensures lawful { IsLawful self.now.grid }
        ensures marked { IsMarked self.now }
    {
        self.bare.height()
    }

    /// Whether the object of this number stands at the position. Objects are numbered from 0 in the game's order. The answer is false off
    /// the map and for a number without an object.
    pub fn has(&self, x: u32, y: u32, object: usize) -> bool
        ensures { result ≡ stands self.now.grid x y object }
    {
        match self.bare.piece(x, y, object) {
            Some(_) => true,
            None => false,
        }
    }

    /// The objects that stand at the position. Off the map there are none.
    pub fn objects_at(&self, x: u32, y: u32) -> NumberSet
        ensures { (object : ℕ) → member result object ≡ stands self.now.grid x y object }
    {
        self.bare.objects_at(x, y)
    }

    /// Where the object at the position heads. `None`: it is still, or isn't there.
    pub fn dir_of(&self, x: u32, y: u32, object: usize) -> Option<Dir>
        ensures { result ≡ heading_at self.now.grid x y object }
    {
        match self.bare.piece(x, y, object) {
            Some(piece) => piece.heading,
            None => None,
        }
    }
}
