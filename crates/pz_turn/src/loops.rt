//! Loops of groups, run to rest.

ghost use Rattle.pz_program.specs.Instance.{AreGroupsOf};
ghost use Rattle.pz_sheet.specs.Grid.{IsLawful, IsOfGame, SameSize};
ghost use Rattle.pz_turn.specs.Applying.{application_of};
ghost use Rattle.pz_turn.specs.Outcome.{GivesBoth};
ghost use Rattle.pz_turn.specs.Rest.{pass_of, rest_of, group_runs};

use crate::outcome::StepFault;
use crate::resting::{PASSES, as_pair, to_rest};
use pz_game::game::Game;
use pz_grid::Level;
use pz_program::commands::Commands;
use pz_program::instance::Groups;
use std::alloc::Global;

/// Runs a loop of groups to rest: passes repeat up to the first that changes nothing. A pass runs each group to rest, in order. The result
/// and the faults are those of `rest`. Rule `match.loops`.
pub fn rest_loop(
    alloc: Global,
    game: &Game,
    groups: &Groups,
    level: &mut Level,
) -> Result<(Commands, bool), StepFault>
    requires level_of { IsOfGame game.now level.old.grid }
    requires groups_of { AreGroupsOf game.now.layers groups.now }
    ensures outcome { GivesBoth
        (rest_of PASSES (pass_of (group_runs PASSES application_of) groups.now) level.old.grid) level.new.grid result }
    ensures size { SameSize level.old.grid level.new.grid }
    ensures lawful { IsLawful level.new.grid }
{
    let given = to_rest(alloc, level, &(), groups.items());
    as_pair(given, level)
}
