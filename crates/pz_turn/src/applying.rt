//! An instance of a rule, applied at each combination of places of its rows.

ghost use Rattle.std.specs.Prelude.{◌≡◌, ◌≤◌, ◌<◌, ◌+◌, ◌*◌, ◌++◌, ◌∷◌, IfOk, Ok, Err, MatchOption, true, false, [], length, drop, map, fold, min};
ghost use Rattle.pz_game.specs.declared.direction.Dir.{Dir};
ghost use Rattle.pz_program.specs.Instance.{IsInstanceOf};
ghost use Rattle.pz_game.specs.Pattern.{IsRowOf, AreRowsOf};
ghost use Rattle.pz_sheet.specs.Grid.{SameSize};
ghost use Rattle.pz_grid.specs.Places.{places, places_or_limit};
ghost use Rattle.pz_grid.specs.Rewriting.{in_rewrite};
ghost use Rattle.pz_turn.specs.Calm.{IsCalm};
ghost use Rattle.pz_turn.specs.Combinations.{combinations};
ghost use Rattle.pz_turn.specs.Applying.{found_or_stop, places_of_rows, applied_at, application_of, given_commands, HasNoEffect};
ghost use Rattle.pz_turn.specs.Outcome.{Gives, GivesOutcome, UnlessMemory, nothing_run};

use crate::one_cell::{cells_of, rewrite_each};
use crate::outcome::{Given, StepFault};
use crate::resting::Runnable;
use bitflags::Flags;
use pz_base::listed::Listed;
use pz_game::direction::Dir;
use pz_game::pattern::Row;
use pz_grid::Level;
use pz_grid::placing::{GridFault, Place, places, still_matches};
use pz_program::commands::Commands;
use pz_program::instance::Instance;
use std::alloc::{AllocError, Global};
use std::slice;

/// The most combinations that an instance may have. Rule `limits.combinations`.
pub const COMBINATION_LIMIT: u64 = 1_048_576;

/// In a level of at most this many cells no row has more than `MATCH_LIMIT` places. There is at most one for each cell and gap, and a gap
/// spans fewer than `MOST_SIDE` cells.
const FEW_CELLS: u32 = 4_096;

/// The fault of a search is the fault of the step.
impl From<GridFault> for StepFault {
    ghost use Rattle.std.specs.Prelude.{◌≡◌};
    ghost use Rattle.pz_turn.specs.Applying.{stop_of};

    ghost from_gives = { λ fault stop. stop ≡ stop_of fault };

    fn from(fault: GridFault) -> StepFault {
        match fault {
            GridFault::Memory => StepFault::Memory,
            GridFault::MatchLimit => StepFault::MatchLimit,
        }
    }
}

/// The places of a row, unless there are too many. Rule `match.limit`.
fn search(alloc: Global, level: &Level, row: &Row, dir: Dir) -> Result<Listed<Place>, StepFault>
    requires of_game { IsRowOf level.now.grid.layers row.now }
    ensures { Gives (found_or_stop (places_or_limit level.now.grid row.now dir)) (λ found. found) result }
{
    let found = places(alloc, level, row, dir)?;
    Ok(Listed::new(found))
}

/// Whether a level has so few cells that no row can have too many places there, not even one with a gap.
fn is_small(level: &Level) -> bool
    ensures { result ≡ true → level.now.grid.width * level.now.grid.height ≤ FEW_CELLS }
{
    level.width() * level.height() <= FEW_CELLS
}

/// Whether an instance has no effect, even if it fits: it neither rewrites, gives a command nor meets a limit. An example is a rule that
/// only plays a sound. In a small level the row isn't read: there may be thousands of such instances, each with its row elsewhere in
/// memory. Rule `rules.no-right`.
fn has_no_effect(level: &Level, instance: &Instance) -> bool
    ensures { result ≡ true → HasNoEffect level.now.grid instance.now }
{
    if !instance.right.items().is_empty() || !instance.commands.is_empty() {
        return false;
    }
    match instance.left.items() {
        [row] => is_small(level) || row.gap_at().is_none(),
        _ => false,
    }
}

/// Whether the marks and headings of a level allow a place of a row. If false, the row has none, in any direction.
fn may_have_place(level: &Level, row: &Row) -> bool
    requires of_game { IsRowOf level.now.grid.layers row.now }
    ensures { result ≡ false → (dir : Dir) → places level.now.grid row.now dir ≡ [] }
{
    level.is_searched_for(row) && level.may_hold(row)
}

/// Whether an instance is known, without a search, to leave a level as it is. Either it has no effect, or marks and headings show that some
/// row has no place and no row before it has a gap. A row with a gap before it must be searched, because it might have too many places.
fn is_left_out(level: &Level, instance: &Instance) -> bool
    requires of_game { AreRowsOf level.now.grid.layers instance.now.left }
    ensures { result ≡ true → application_of instance.now level.now.grid ≡ Ok (nothing_run level.now.grid) }
{
    // (brings the proof the law of levels)
    let _ = level.width();
    if has_no_effect(level, instance) {
        return true;
    }
    for row in instance.left.items() {
        if !may_have_place(level, row) {
            return true;
        }
        if row.gap_at().is_some() {
            return false;
        }
    }
    false
}

/// The places of each row. `None`: some row has none, and no row before it has too many. Mostly it is the first row; then no memory was
/// asked for.
pub fn take_places(
    alloc: Global,
    level: &Level,
    instance: &Instance,
) -> Result<Option<Vec<Listed<Place>>>, StepFault>
    requires of_game { AreRowsOf level.now.grid.layers instance.now.left }
    ensures { UnlessMemory result
        (λ found. MatchOption found (application_of instance.now level.now.grid ≡ Ok (nothing_run level.now.grid))
        (λ lists. places_of_rows level.now.grid instance.now.scan instance.now.left ≡ Ok lists.items))
        (λ fault. places_of_rows level.now.grid instance.now.scan instance.now.left ≡ Err fault) }
{
    let mut lists = Vec::new(alloc);
    for row in instance.left.items() {
        let found = search(alloc, level, row, instance.scan)?;
        if found.items().is_empty() {
            return Ok(None);
        }
        lists.push(found)?;
    }
    Ok(Some(lists))
}

/// How many combinations there are, counted up to one above the limit.
pub fn combination_count(lists: &[Listed<Place>]) -> u64
    ensures { result ≡ min (length (combinations lists.now)) (COMBINATION_LIMIT + 1) }
{
    let mut count: u64 = 1;
    for list in lists {
        count = count
            .saturating_mul(list.items().len() as u64)
            .min(COMBINATION_LIMIT + 1);
    }
    count
}

/// Tests again whether all rows of an instance hold at these places, and rewrites them if so. Rule `match.tested-again`.
fn apply_at(level: &mut Level, instance: &Instance, places: &[Place], changed: bool) -> bool
    requires of_game { IsInstanceOf level.old.grid.layers instance.now }
    ensures applied { in_rewrite level.new.grid result ≡
        applied_at instance.now (in_rewrite level.old.grid changed) places.now }
    ensures size { SameSize level.old.grid level.new.grid }
{
    if still_matches(level, instance, places) {
        level.rewrite_all(instance, places, changed)
    } else {
        changed
    }
}

/// Applies an instance at each combination of places of these rows, together with the places chosen for the rows after them.
/// Rule `match.combinations`.
fn apply_all(
    level: &mut Level,
    instance: &Instance,
    lists: &[Listed<Place>],
    chosen: &mut [Place],
    changed_before: bool,
) -> bool
    requires room { length lists.now ≤ length chosen.old }
    requires of_game { IsInstanceOf level.old.grid.layers instance.now }
    ensures applied { in_rewrite level.new.grid result ≡
        fold (applied_at instance.now) (in_rewrite level.old.grid changed_before)
        (map (λ places. places ++ drop (length lists.now) chosen.old) (combinations lists.now)) }
    ensures size { SameSize level.old.grid level.new.grid }
    ensures chosen { drop (length lists.now) chosen.new ≡ drop (length lists.now) chosen.old }
    ensures room { length chosen.new ≡ length chosen.old }
{
    let Some((last, others)) = lists.split_last() else {
        return apply_at(level, instance, chosen, changed_before);
    };
    let mut changed = changed_before;
    'places: for place in last.items() {
        chosen[others.len()] = *place;
        changed = apply_all(level, instance, others, chosen, changed);
    }
    changed
}

/// Room for a place of each row.
fn room_for(alloc: Global, rows: usize) -> Result<Vec<Place>, AllocError>
    ensures { IfOk result (λ places. length places.items ≡ rows) }
{
    vec![in alloc; Place { x: 0, y: 0, gap: 0 }; rows]
}

/// The commands of an instance, if it has a combination. Rule `match.commands`.
fn given_commands(lists: &[Listed<Place>], commands: Commands) -> Commands
    ensures { result ≡ given_commands (combinations lists.now) commands }
{
    if combination_count(lists) == 0 {
        Commands::empty()
    } else {
        commands
    }
}

/// Applies an instance of any number of rows.
fn apply_rows(alloc: Global, level: &mut Level, instance: &Instance) -> Result<Given, StepFault>
    requires of_game { IsInstanceOf level.old.grid.layers instance.now }
    ensures outcome { GivesOutcome (application_of instance.now level.old.grid) level.new.grid result }
    ensures calm { IfOk result (λ given. given.calm ≡ false) }
    ensures size { SameSize level.old.grid level.new.grid }
{
    let found = take_places(alloc, level, instance)?;
    let Some(lists) = found else {
        return Ok(Given::nothing());
    };
    if combination_count(&lists) > COMBINATION_LIMIT {
        return Err(StepFault::MatchLimit);
    }
    let mut chosen = room_for(alloc, lists.len())?;
    let changed = apply_all(level, instance, &lists, &mut chosen, false);
    let commands = given_commands(&lists, instance.commands);
    Ok(Given {
        commands,
        changed,
        calm: false,
    })
}

/// Applies an instance of one row at each of these places in order.
fn apply_each(level: &mut Level, instance: &Instance, places: &[Place]) -> bool
    requires of_game { IsInstanceOf level.old.grid.layers instance.now }
    ensures applied { in_rewrite level.new.grid result ≡
        fold (applied_at instance.now) (in_rewrite level.old.grid false) (map (λ place. place ∷ []) places.now) }
    ensures size { SameSize level.old.grid level.new.grid }
{
    let mut changed = false;
    for place in places {
        changed = apply_at(level, instance, slice::from_ref(place), changed);
    }
    changed
}

/// Applies an instance of one row, as nearly all are. Each place is a combination, and both limits are equal. If it is of one cell, it
/// changes only the cells of its places. So none is asked again before its rewriting. Run again, it would change nothing, since a cell that
/// was rewritten stays as it is if it is rewritten again.
fn apply_row(
    alloc: Global,
    level: &mut Level,
    instance: &Instance,
    row: &Row,
) -> Result<Given, StepFault>
    requires of_game { IsInstanceOf level.old.grid.layers instance.now }
    requires only { instance.now.left ≡ row.now ∷ [] }
    ensures outcome { GivesOutcome (application_of instance.now level.old.grid) level.new.grid result }
    ensures calm { IfOk result
        (λ given. given.calm ≡ true → IsCalm application_of given.commands level.new.grid instance.now) }
    ensures size { SameSize level.old.grid level.new.grid }
{
    let found = search(alloc, level, row, instance.scan)?;
    if found.items().is_empty() {
        return Ok(Given::nothing());
    }
    let commands = instance.commands;
    let Some((left, right)) = cells_of(instance) else {
        let changed = apply_each(level, instance, found.items());
        return Ok(Given {
            commands,
            changed,
            calm: false,
        });
    };
    let changed = rewrite_each(level, instance.scan, left, right, found.items());
    // (brings the proof the law of levels)
    let _ = level.width();
    Ok(Given {
        commands,
        changed,
        calm: true,
    })
}

/// Applies an instance to a level. `MatchLimit`: a row before the first one without a place has too many places, or there are more than
/// `COMBINATION_LIMIT` combinations.
fn apply(alloc: Global, level: &mut Level, instance: &Instance) -> Result<Given, StepFault>
    requires of_game { IsInstanceOf level.old.grid.layers instance.now }
    ensures outcome { GivesOutcome (application_of instance.now level.old.grid) level.new.grid result }
    ensures calm { IfOk result
        (λ given. given.calm ≡ true → IsCalm application_of given.commands level.new.grid instance.now) }
    ensures size { SameSize level.old.grid level.new.grid }
{
    if is_left_out(level, instance) {
        return Ok(Given::nothing());
    }
    match instance.left.items() {
        [row] => apply_row(alloc, level, instance, row),
        _ => apply_rows(alloc, level, instance),
    }
}

impl Runnable for Instance {
    type Whole = ();

    ghost is_of = { λ layers whole instance. IsInstanceOf layers instance };

    ghost runs = { λ whole instance. application_of instance };

    fn run(&self, _whole: &(), alloc: Global, level: &mut Level) -> Result<Given, StepFault> {
        apply(alloc, level, self)
    }
}
