//! Replacing one value by another.

ghost use Rattle.std.specs.Prelude.{◌≡◌, Some};

use pz_grid::Level;
use std::mem::replace;

/// Replaces a value. The old one is dropped by a call, because an assignment makes the prover follow every path through its parts.
pub(crate) fn put<T: Drop>(place: &mut T, value: T)
    ensures { place.new ≡ value }
{
    drop(replace(place, value));
}

/// Keeps a level as a spare one. If there is one already, it is dropped.
pub(crate) fn put_aside(place: &mut Option<Level>, level: Level)
    ensures { place.new ≡ Some level }
{
    *place = Some(level);
}

/// Replaces a level, and puts the old one aside.
pub(crate) fn put_before(place: &mut Level, level: Level, aside: &mut Option<Level>)
    ensures place { place.new ≡ level }
    ensures aside { aside.new ≡ Some place.old }
{
    let before = replace(place, level);
    *aside = Some(before);
}
