//! Groups of instances, run to rest: passes repeat up to the first that changes nothing.

ghost use Rattle.std.specs.Prelude.{◌≡◌, Result, Ok, IfOk, All, take, cond, true, false};
ghost use Rattle.pz_program.specs.Instance.{IsGroupOf};
ghost use Rattle.pz_sheet.specs.Grid.{Grid, IsLawful, IsOfGame, SameSize};
ghost use Rattle.pz_turn.specs.Calm.{AreCalmFrom, IsCalm};
ghost use Rattle.pz_turn.specs.Applying.{application_of};
ghost use Rattle.pz_turn.specs.Outcome.{Outcome, GivesOutcome, GivesBoth, UnlessMemory};
ghost use Rattle.pz_turn.specs.Rest.{pass_of, rest_of};
ghost use Rattle.pz_turn.specs.declared.outcome.StepFault.{StepFault};

use crate::group::rest_group;
use crate::outcome::{Given, StepFault};
use pz_game::game::Game;
use pz_grid::Level;
use pz_program::commands::Commands;
use pz_program::group::Group;
use std::alloc::Global;

/// The most passes of a group or a loop. If the last of them still changes something, the stop is `loop-limit`. Rule `limits.passes`.
pub const PASSES: u64 = 200;

/// What runs on a level: an instance, a segment, a group of a loop, a block.
pub(crate) trait Runnable {
    ghost use Rattle.std.specs.Prelude.{◌≡◌, ℕ, List, IfOk, false, true};
    ghost use Rattle.pz_sheet.specs.Grid.{Grid};
    ghost use Rattle.pz_turn.specs.Calm.{IsCalm};
    ghost use Rattle.pz_turn.specs.Rest.{Runs};

    /// What it is a part of: a segment has its instances in its group, and all else is whole by itself.
    type Whole;

    ghost is_of: { List ℕ → Self.Whole → Self → Type 0 };

    ghost runs: { Self.Whole → Self → Runs Grid };

    fn run(&self, whole: &Self::Whole, alloc: Global, level: &mut Level) -> Result<Given, StepFault>
        requires of_game { is_of level.old.grid.layers whole.now self.now }
        ensures outcome { GivesOutcome (runs whole.now self.now level.old.grid) level.new.grid result }
        ensures kept { IfOk result (λ given. given.changed ≡ false → level.new.grid ≡ level.old.grid) }
        ensures calm { IfOk result
            (λ given. given.calm ≡ true → IsCalm (runs whole.now) given.commands level.new.grid self.now) }
        ensures size { SameSize level.old.grid level.new.grid };
}

/// Makes one pass: runs each item once, in order. If it is known to be calm, it has one item: with more, a later one might wake an earlier.
pub(crate) fn pass<T: Runnable>(
    alloc: Global,
    level: &mut Level,
    whole: &T::Whole,
    items: &[T],
) -> Result<Given, StepFault>
    requires of_game { All (T.is_of level.old.grid.layers whole.now) items.now }
    ensures outcome { GivesOutcome (pass_of (T.runs whole.now) items.now level.old.grid) level.new.grid result }
    ensures calm { IfOk result
        (λ given. given.calm ≡ true → IsCalm (pass_of (T.runs whole.now)) given.commands level.new.grid items.now) }
    ensures size { SameSize level.old.grid level.new.grid }
{
    let mut so_far = Given::nothing();
    let mut calm = false;
    for item in items {
        let given = item.run(whole, alloc, level)?;
        so_far = so_far.and(given);
        calm = given.calm;
    }
    Ok(Given {
        commands: so_far.commands,
        changed: so_far.changed,
        calm: calm && items.len() == 1,
    })
}

/// What a pass gave, and from which item on all are calm: run again on the level after the pass, they change nothing and give no new
/// command.
#[derive(Clone, Copy)]
struct Passed {
    given: Given,
    calm_from: usize,
}

/// Makes a pass that ends early if nothing has changed and only calm items are left. On this level those would change nothing.
fn pass_after<T: Runnable>(
    alloc: Global,
    level: &mut Level,
    whole: &T::Whole,
    items: &[T],
    calm_from: usize,
) -> Result<Passed, StepFault>
    requires of_game { All (T.is_of level.old.grid.layers whole.now) items.now }
    ensures outcome { UnlessMemory result
        (λ passed. pass_of (T.runs whole.now)
        (cond passed.given.changed items.now (take calm_from items.now)) level.old.grid ≡
        Ok (record { level = level.new.grid; commands = passed.given.commands; changed = passed.given.changed }))
        (λ fault. pass_of (T.runs whole.now) items.now level.old.grid ≡ Err fault) }
    ensures kept { IfOk result (λ passed. passed.given.changed ≡ false → level.new.grid ≡ level.old.grid) }
    ensures calm { IfOk result
        (λ passed. passed.given.changed ≡ true →
        AreCalmFrom (T.runs whole.now) passed.given.commands level.new.grid items.now passed.calm_from) }
    ensures size { SameSize level.old.grid level.new.grid }
{
    let mut so_far = Given::nothing();
    let mut first_calm = 0;
    for (index, item) in items.iter().enumerate() {
        if index == calm_from && !so_far.changed {
            break;
        }
        let given = item.run(whole, alloc, level)?;
        so_far = so_far.and(given);
        if given.changed {
            first_calm = if given.calm { index } else { index + 1 };
        }
    }
    Ok(Passed {
        given: so_far,
        calm_from: first_calm,
    })
}

/// Repeats passes up to the first that changes nothing. Items after the last one that changed something needn't run again until something
/// changes, nor does that one if it is calm behind its change. Rule `match.loop-limit`.
pub(crate) fn to_rest<T: Runnable>(
    alloc: Global,
    level: &mut Level,
    whole: &T::Whole,
    items: &[T],
) -> Result<Given, StepFault>
    requires of_game { All (T.is_of level.old.grid.layers whole.now) items.now }
    ensures outcome { GivesOutcome
        (rest_of PASSES (pass_of (T.runs whole.now) items.now) level.old.grid) level.new.grid result }
    ensures kept { IfOk result (λ given. given.changed ≡ false → level.new.grid ≡ level.old.grid) }
    ensures calm { IfOk result (λ given. given.calm ≡ false) }
    ensures size { SameSize level.old.grid level.new.grid }
{
    let mut so_far = Given::nothing();
    let mut calm_from = items.len();
    'passes: for _ in 0..PASSES {
        let passed = pass_after(alloc, level, whole, items, calm_from)?;
        so_far = so_far.and(passed.given);
        if !passed.given.changed {
            return Ok(so_far);
        }
        calm_from = passed.calm_from;
    }
    Err(StepFault::LoopLimit)
}

/// What a run gave as a pair, as callers outside see it.
pub(crate) fn as_pair(
    given: Result<Given, StepFault>,
    level: &Level,
) -> Result<(Commands, bool), StepFault>
    ensures both { (outcome : Result (Outcome Grid) StepFault) → GivesOutcome outcome level.now.grid given →
        GivesBoth outcome level.now.grid result }
    ensures lawful { IsLawful level.now.grid }
{
    // (brings the proof the law of levels)
    let _ = level.width();
    match given {
        Ok(given) => Ok((given.commands, given.changed)),
        Err(fault) => Err(fault),
    }
}

/// Runs a group to rest: passes over its instances repeat up to the first that changes nothing. The result has the commands given in any
/// pass, and whether a pass changed something. `LoopLimit`: the 200th pass still changed something. `MatchLimit`: a row has too many
/// places, or an instance too many combinations. After a fault the level is lawful, but its contents are unspecified.
/// Rules `match.rest`, `match.loop-limit`.
pub fn rest(
    alloc: Global,
    game: &Game,
    group: &Group,
    level: &mut Level,
) -> Result<(Commands, bool), StepFault>
    requires level_of { IsOfGame game.now level.old.grid }
    requires group_of { IsGroupOf game.now.layers group.now }
    ensures outcome { GivesBoth (rest_of PASSES (pass_of application_of group.now) level.old.grid) level.new.grid result }
    ensures size { SameSize level.old.grid level.new.grid }
    ensures lawful { IsLawful level.new.grid }
{
    let given = rest_group(alloc, level, group);
    as_pair(given, level)
}
