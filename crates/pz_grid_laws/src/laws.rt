//! Laws of levels. Each is what a function ensures whose body does nothing.

ghost use Rattle.pz_grid.specs.Marks.{IsMarked};
ghost use Rattle.pz_grid_laws.specs.Laws.{Decides, MovesStill, Settles, Rests, StaysLawful, CellsAreWhatStands};

use pz_grid::Level;

/// The test of two levels decides whether they are equal.
pub fn sameness_decides()
    ensures { Decides }
{}

/// A pass that moves something leaves fewer pieces that head somewhere, so the movement ends.
pub fn passes_still()
    ensures { MovesStill }
{}

/// After the passes of the movement one more would move nothing. In the end nothing heads anywhere.
pub fn movement_settles()
    ensures settles { Settles }
    ensures rests { Rests }
{}

/// A lawful level stays lawful when a press gives the player a direction, and in the movement.
pub fn levels_stay_lawful()
    ensures { StaysLawful }
{}

/// Two cells of a game are equal if each object stands in both, with the same heading, or in neither.
pub fn cells_are_what_stands()
    ensures { CellsAreWhatStands }
{}

/// The marks of each line have every object in it, whatever calls made the level: loads, copies, presses, movements and rewritings, in any
/// order and number.
pub fn marks_hold(level: &Level)
    ensures { IsMarked level.now }
{
    // (brings the proof the law of levels)
    let _ = level.width();
}
