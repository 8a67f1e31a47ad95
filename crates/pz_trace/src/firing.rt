//! A firing: an instance that changes a cell.

use pz_base::listed::Listed;
use pz_game::direction::Dir;
use pz_grid::placing::Place;

/// When an instance of a block is applied, all counted from 0: in which round of a loop, in which of the loop's groups, in which pass of the
/// group, and which instance of the group it is. A group that is in no loop is group 0 of round 0.
#[derive(Clone, Copy, PartialEq, Eq, Debug)]
pub struct Moment {
    pub round: u64,
    pub group: usize,
    pub pass: u64,
    pub instance: usize,
}

/// A combination of places: one of each row.
pub type Places = Listed<Place>;

/// An instance that changed a cell: when, on which line of the source its rule stands (counted from 1), in which direction its rows were scanned, and
/// at which combinations of places a cell changed, in the order in which they were rewritten.
pub struct Firing {
    pub moment: Moment,
    pub line: u32,
    pub scan: Dir,
    pub places: Listed<Places>,
}

/// Written out, so that dropping one is a single call everywhere.
impl Drop for Firing {
    fn drop(self) {
        let Firing {
            moment: _,
            line: _,
            scan: _,
            places,
        } = self;
        drop(places);
    }
}
