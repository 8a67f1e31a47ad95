//! Instances of one cell: their one row has one cell and no gap.

ghost use Rattle.std.specs.Prelude.{◌≡◌, ◌∷◌, [], IfSome, false, fold};
ghost use Rattle.pz_game.specs.Pattern.{AreOf};
ghost use Rattle.pz_sheet.specs.Grid.{SameSize};
ghost use Rattle.pz_grid.specs.Places.{row_of_one};
ghost use Rattle.pz_grid.specs.Rewriting.{in_rewrite};
ghost use Rattle.pz_turn.specs.Applying.{one_rewritten, IsOfOneCell};

use pz_game::direction::Dir;
use pz_game::pattern::{Pattern, Row};
use pz_grid::Level;
use pz_grid::placing::Place;
use pz_program::instance::Instance;

/// The cell of a row of one cell.
fn only_cell(row: &Row) -> Option<&Pattern>
    ensures { IfSome result (λ cell. row.now ≡ row_of_one cell.now) }
{
    match (row.cells(), row.gap_at()) {
        ([cell], None) => Some(cell),
        _ => None,
    }
}

/// The cell of the only row, if it is a row of one cell.
fn cell_of_rows(rows: &[Row]) -> Option<&Pattern>
    ensures { IfSome result (λ cell. rows.now ≡ row_of_one cell.now ∷ []) }
{
    match rows {
        [row] => only_cell(row),
        _ => None,
    }
}

/// The left and the right cell of an instance of one cell.
pub(crate) fn cells_of(instance: &Instance) -> Option<(&Pattern, &Pattern)>
    ensures { IfSome result (λ cells. IsOfOneCell instance.now cells.0.now cells.1.now) }
{
    let left = cell_of_rows(instance.left.items())?;
    let right = cell_of_rows(instance.right.items())?;
    Some((left, right))
}

/// Rewrites a row of one cell at each of these places in order. It doesn't ask whether the row holds there.
pub(crate) fn rewrite_each(
    level: &mut Level,
    dir: Dir,
    left: &Pattern,
    right: &Pattern,
    places: &[Place],
) -> bool
    requires left_of { AreOf level.old.grid.layers left.now }
    requires right_of { AreOf level.old.grid.layers right.now }
    ensures rewritten { in_rewrite level.new.grid result ≡
        fold (one_rewritten dir left.now right.now) (in_rewrite level.old.grid false) places.now }
    ensures size { SameSize level.old.grid level.new.grid }
{
    let mut changed = false;
    for place in places {
        changed = level.rewrite_cell(dir, *place, left, right, changed);
    }
    changed
}
