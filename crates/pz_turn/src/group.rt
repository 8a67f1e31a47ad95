//! Groups of instances, run to rest segment by segment.

ghost use Rattle.std.specs.Prelude.{◌≡◌, Ok, IfOk, true, false};
ghost use Rattle.pz_program.specs.Instance.{IsGroupOf};
ghost use Rattle.pz_program.specs.Segments.{IsSegmentOf, instances_in};
ghost use Rattle.pz_sheet.specs.Grid.{SameSize};
ghost use Rattle.pz_turn.specs.Applying.{application_of};
ghost use Rattle.pz_turn.specs.Outcome.{GivesOutcome, nothing_run};
ghost use Rattle.pz_turn.specs.Rest.{pass_of, rest_of, group_runs};
ghost use Rattle.pz_turn.specs.declared.resting.TheConstants.{PASSES};

use crate::outcome::{Given, StepFault};
use crate::resting::{Runnable, pass, to_rest};
use pz_grid::Level;
use pz_program::group::{Group, Segment};
use std::alloc::Global;

/// Whether a look at the level's headings already shows that no instance of a segment does anything there: nothing heads in any of the
/// directions that they ask for.
fn is_left_out(level: &Level, group: &Group, segment: &Segment) -> bool
    requires of_game { IsGroupOf level.now.grid.layers group.now }
    requires of_group { IsSegmentOf group.now segment.now }
    ensures { result ≡ true →
        pass_of application_of (instances_in group.now segment.now) level.now.grid ≡ Ok (nothing_run level.now.grid) }
{
    // (brings the proof the law of levels)
    let _ = level.width();
    segment.needs_headings && !level.may_head_in(&segment.asked)
}

/// Runs a segment of a group: its instances in order, unless all of them are left out together.
impl Runnable for Segment {
    type Whole = Group;

    ghost is_of = { λ layers group segment. IsGroupOf layers group × IsSegmentOf group segment };

    ghost runs = { λ group segment. pass_of application_of (instances_in group segment) };

    fn run(&self, group: &Group, alloc: Global, level: &mut Level) -> Result<Given, StepFault> {
        if is_left_out(level, group, self) {
            return Ok(Given::nothing());
        }
        pass(alloc, level, &(), group.instances_in(self))
    }
}

/// Runs a group to rest.
pub(crate) fn rest_group(
    alloc: Global,
    level: &mut Level,
    group: &Group,
) -> Result<Given, StepFault>
    requires of_game { IsGroupOf level.old.grid.layers group.now }
    ensures outcome { GivesOutcome (rest_of PASSES (pass_of application_of group.now) level.old.grid) level.new.grid result }
    ensures kept { IfOk result (λ given. given.changed ≡ false → level.new.grid ≡ level.old.grid) }
    ensures calm { IfOk result (λ given. given.calm ≡ false) }
    ensures size { SameSize level.old.grid level.new.grid }
{
    to_rest(alloc, level, group, group.segments())
}

/// A group of a loop runs to rest.
impl Runnable for Group {
    type Whole = ();

    ghost is_of = { λ layers whole group. IsGroupOf layers group };

    ghost runs = { λ whole group. group_runs PASSES application_of group };

    fn run(&self, _whole: &(), alloc: Global, level: &mut Level) -> Result<Given, StepFault> {
        rest_group(alloc, level, self)
    }
}
