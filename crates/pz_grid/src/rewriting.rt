//! The rewriting of cells by the instances of rules.

ghost use Rattle.std.specs.Prelude.{false, ◌≡◌, IfSome};
ghost use Rattle.pz_program.specs.Instance.{IsInstanceOf};
ghost use Rattle.pz_game.specs.Pattern.{AreOf, IsRowOf, AreRowsOf};
ghost use Rattle.pz_sheet.specs.Grid.{IsOnMap, IsLawful, IsOfGame, SameSize};
ghost use Rattle.pz_grid.specs.Marks.{IsMarked, IsMarkedAt, IsWidenedBy, row_places, places_object};
ghost use Rattle.pz_game.specs.Items.{names_object};
ghost use Rattle.pz_sheet.specs.Rewriting.{with_rewritten, changes};
ghost use Rattle.pz_grid.specs.Rewriting.{in_rewrite, rewritten_at, rewritten_row, after_rewriting};

use crate::Level;
use crate::placing::Place;
use pz_game::direction::Dir;
use pz_game::game::Game;
use pz_game::pattern::{Pattern, Row};
use pz_program::instance::Instance;

impl Level {
    /// Rewrites the cell at a position, and says whether the cell changed. What the right places must be marked there.
    fn rewrite_marked(&mut self, x: u32, y: u32, left: &Pattern, right: &Pattern) -> bool
        requires on_map { IsOnMap self.old.grid x y }
        requires left_of { AreOf self.old.grid.layers left.now }
        requires right_of { AreOf self.old.grid.layers right.now }
        requires marked { IsMarkedAt self.old x y (λ object. names_object object right.now) }
        ensures level { self.new.grid ≡ with_rewritten self.old.grid x y left.now right.now }
        ensures changed { result ≡ changes self.old.grid x y left.now right.now }
        ensures row_marks { self.new.row_marks ≡ self.old.row_marks }
        ensures column_marks { self.new.column_marks ≡ self.old.column_marks }
    {
        self.bare.rewrite(x, y, left, right)
    }

    /// Rewrites the cell at a position, and says whether the cell changed.
    fn rewrite_position(&mut self, x: u32, y: u32, left: &Pattern, right: &Pattern) -> bool
        requires on_map { IsOnMap self.old.grid x y }
        requires left_of { AreOf self.old.grid.layers left.now }
        requires right_of { AreOf self.old.grid.layers right.now }
        ensures level { self.new.grid ≡ with_rewritten self.old.grid x y left.now right.now }
        ensures changed { result ≡ changes self.old.grid x y left.now right.now }
        ensures marks { IsWidenedBy self.old self.new (λ object. names_object object right.now) }
    {
        // (brings the proof the law of levels)
        let _ = self.width();
        self.mark_placed(x, y, right);
        self.rewrite_marked(x, y, left, right)
    }

    /// Rewrites the cell at a position, or nothing where that is off the map. True: this or an earlier rewriting changed a cell.
    /// (Inlined, because rows of one cell and of several both come here.)
    #[inline(always)]
    pub(crate) fn rewrite_at(
        &mut self,
        at: Option<(u32, u32)>,
        left: &Pattern,
        right: &Pattern,
        changed: bool,
    ) -> bool
        requires on_map { IfSome at (λ position. IsOnMap self.old.grid position.0 position.1) }
        requires left_of { AreOf self.old.grid.layers left.now }
        requires right_of { AreOf self.old.grid.layers right.now }
        ensures rewritten { in_rewrite self.new.grid result ≡
            rewritten_at (in_rewrite self.old.grid changed) left.now right.now at }
        ensures size { SameSize self.old.grid self.new.grid }
        ensures marks { IsWidenedBy self.old self.new (λ object. names_object object right.now) }
    {
        match at {
            None => changed,
            Some((x, y)) => {
                let changes = self.rewrite_position(x, y, left, right);
                changed || changes
            }
        }
    }

    /// Rewrites a row at its place, cell by cell, each as the cells before have left it.
    fn rewrite_row(
        &mut self,
        dir: Dir,
        place: Place,
        left: &Row,
        right: &Row,
        changed_before: bool,
    ) -> bool
        requires left_of { IsRowOf self.old.grid.layers left.now }
        requires right_of { IsRowOf self.old.grid.layers right.now }
        ensures rewritten { in_rewrite self.new.grid result ≡
            rewritten_row dir (in_rewrite self.old.grid changed_before) (place, (left.now, right.now)) }
        ensures size { SameSize self.old.grid self.new.grid }
        ensures marks { IsWidenedBy self.old self.new (λ object. row_places object right.now) }
    {
        let gap_at = left.gap_at();
        let left = left.cells();
        let right = right.cells();
        let mut changed = changed_before;
        for index in 0..left.len().min(right.len()) {
            let at = self.position_of(dir, gap_at, place, index);
            changed = self.rewrite_at(at, &left[index], &right[index], changed);
        }
        changed
    }

    /// Rewrites the cells of an instance at the places of its rows, row by row and cell by cell. True: this or an earlier rewriting changed
    /// a cell. It doesn't test whether the rows hold, and skips cells off the map. Rules `match.rewriting`, `rules.no-right`.
    pub fn rewrite_all(
        &mut self,
        instance: &Instance,
        places: &[Place],
        changed_before: bool,
    ) -> bool
        requires left_of { AreRowsOf self.old.grid.layers instance.now.left }
        requires right_of { AreRowsOf self.old.grid.layers instance.now.right }
        ensures rewritten { in_rewrite self.new.grid result ≡
            after_rewriting instance.now places.now (in_rewrite self.old.grid changed_before) }
        ensures size { SameSize self.old.grid self.new.grid }
        ensures marks { IsWidenedBy self.old self.new (places_object instance.now.right) }
    {
        let left = instance.left.items();
        let right = instance.right.items();
        let mut changed = changed_before;
        for index in 0..places.len().min(left.len().min(right.len())) {
            changed = self.rewrite_row(
                instance.scan,
                places[index],
                &left[index],
                &right[index],
                changed,
            );
        }
        changed
    }
}

/// Rewrites the cells of an instance at the places of its rows. True: some rewriting changed a cell, even if a later one gave it back. It
/// doesn't test whether the rows hold, and skips cells off the map. Rows without a place and places without a row are left out.
pub fn rewrite(game: &Game, level: &mut Level, instance: &Instance, places: &[Place]) -> bool
    requires level_of { IsOfGame game.now level.old.grid }
    requires right_of { IsInstanceOf game.now.layers instance.now }
    ensures rewritten { in_rewrite level.new.grid result ≡
        after_rewriting instance.now places.now (in_rewrite level.old.grid false) }
    ensures size { SameSize level.old.grid level.new.grid }
    ensures marks { IsWidenedBy level.old level.new (places_object instance.now.right) }
    ensures lawful { IsLawful level.new.grid }
    ensures marked { IsMarked level.new }
{
    let changed = level.rewrite_all(instance, places, false);
    // (brings the proof the law of levels)
    let _ = level.width();
    changed
}
