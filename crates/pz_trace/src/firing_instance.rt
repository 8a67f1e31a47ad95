//! An instance, applied with the places told at which it changes a cell.

ghost use Rattle.std.specs.Prelude.{◌≡◌, ◌≤◌, ◌<◌, ◌+◌, ◌++◌, ◌∷◌, [], false, IfOk, OnOk, length, drop, map, fold};
ghost use Rattle.pz_program.specs.Instance.{IsInstanceOf};
ghost use Rattle.pz_sheet.specs.Grid.{SameSize};
ghost use Rattle.pz_grid.specs.Rewriting.{in_rewrite};
ghost use Rattle.pz_turn.specs.Combinations.{combinations};
ghost use Rattle.pz_turn.specs.Applying.{applied_at};
ghost use Rattle.pz_turn.specs.Outcome.{Gives};
ghost use Rattle.pz_trace.specs.Firings.{firing_of, fired_at};

use crate::firing::Places;
use pz_base::listed::Listed;
use pz_grid::Level;
use pz_grid::placing::{Place, still_matches};
use pz_program::instance::Instance;
use pz_turn::StepFault;
use pz_turn::applying::{COMBINATION_LIMIT, combination_count, take_places};
use std::alloc::{AllocError, Global};

/// Tests again whether all rows of an instance hold at these places, and rewrites them if so. Whether a cell changed.
fn rewrites_at(level: &mut Level, instance: &Instance, places: &[Place]) -> bool
    requires of_game { IsInstanceOf level.old.grid.layers instance.now }
    ensures applied { in_rewrite level.new.grid result ≡
        applied_at instance.now (in_rewrite level.old.grid false) places.now }
    ensures size { SameSize level.old.grid level.new.grid }
{
    still_matches(level, instance, places) && level.rewrite_all(instance, places, false)
}

/// Applies an instance at these places, and tells them if a cell changed. Rule `stages.fires`.
fn fire_at(
    alloc: Global,
    level: &mut Level,
    instance: &Instance,
    places: &[Place],
    told: &mut Vec<Places>,
) -> Result<(), AllocError>
    requires of_game { IsInstanceOf level.old.grid.layers instance.now }
    ensures told { OnOk result
        (record { level = level.new.grid; places = told.new.items } ≡
        fired_at instance.now (record { level = level.old.grid; places = told.old.items }) places.now) }
    ensures size { SameSize level.old.grid level.new.grid }
{
    if rewrites_at(level, instance, places) {
        let places = Vec::from_slice(alloc, places)?;
        told.push(Listed::new(places))?;
    }
    Ok(())
}

/// Applies an instance at each combination of places of these rows, together with the places chosen for the rows after them.
fn fire_all(
    alloc: Global,
    level: &mut Level,
    instance: &Instance,
    lists: &[Listed<Place>],
    chosen: &mut [Place],
    told: &mut Vec<Places>,
) -> Result<(), AllocError>
    requires room { length lists.now ≤ length chosen.old }
    requires of_game { IsInstanceOf level.old.grid.layers instance.now }
    ensures told { OnOk result
        (record { level = level.new.grid; places = told.new.items } ≡
        fold (fired_at instance.now) (record { level = level.old.grid; places = told.old.items })
        (map (λ places. places ++ drop (length lists.now) chosen.old) (combinations lists.now))) }
    ensures size { SameSize level.old.grid level.new.grid }
    ensures chosen { OnOk result (drop (length lists.now) chosen.new ≡ drop (length lists.now) chosen.old) }
    ensures room { length chosen.new ≡ length chosen.old }
{
    let Some((last, others)) = lists.split_last() else {
        return fire_at(alloc, level, instance, chosen, told);
    };
    'places: for place in last.items() {
        chosen[others.len()] = *place;
        fire_all(alloc, level, instance, others, chosen, told)?;
    }
    Ok(())
}

/// Applies an instance at the combinations of these lists.
fn fire_lists(
    alloc: Global,
    level: &mut Level,
    instance: &Instance,
    lists: &[Listed<Place>],
) -> Result<Vec<Places>, AllocError>
    requires of_game { IsInstanceOf level.old.grid.layers instance.now }
    ensures told { IfOk result
        (λ told. record { level = level.new.grid; places = told.items } ≡
        fold (fired_at instance.now) (record { level = level.old.grid; places = [] }) (combinations lists.now)) }
    ensures size { SameSize level.old.grid level.new.grid }
{
    let mut chosen = vec![in alloc; Place { x: 0, y: 0, gap: 0 }; lists.len()]?;
    let mut told = Vec::new(alloc);
    fire_all(alloc, level, instance, lists, &mut chosen, &mut told)?;
    Ok(told)
}

/// Applies an instance to a level. The answer is the combinations of places at which a cell changed, in order. `MatchLimit`: a row has too
/// many places, or there are too many combinations; then nothing is rewritten.
pub(crate) fn fire(
    alloc: Global,
    level: &mut Level,
    instance: &Instance,
) -> Result<Vec<Places>, StepFault>
    requires of_game { IsInstanceOf level.old.grid.layers instance.now }
    ensures fired { Gives (firing_of instance.now level.old.grid)
        (λ places. record { level = level.new.grid; places = places.items }) result }
    ensures size { SameSize level.old.grid level.new.grid }
{
    let found = take_places(alloc, level, instance)?;
    let Some(lists) = found else {
        return Ok(Vec::new(alloc));
    };
    if combination_count(&lists) > COMBINATION_LIMIT {
        return Err(StepFault::MatchLimit);
    }
    let told = fire_lists(alloc, level, instance, &lists)?;
    Ok(told)
}
