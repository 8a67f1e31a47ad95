//! A block in play, firing by firing.

ghost use Rattle.std.specs.Prelude.{◌≡◌, ◌<◌, ◌≤◌, ◌+◌, Bool, Some, None, IfOk, IfErr, is_some, length, slice_get, true};
ghost use Rattle.pz_program.specs.Instance.{IsInstanceOf};
ghost use Rattle.pz_sheet.specs.Grid.{Grid, SameSize};
ghost use Rattle.pz_turn.specs.Outcome.{UnlessMemory};
ghost use Rattle.pz_turn.specs.declared.outcome.StepFault.TheVariants.{LoopLimit};
ghost use Rattle.pz_trace.specs.Firings.{Sequence, stop_sequence, told_instance};
ghost use Rattle.pz_trace.specs.FiringPlay.{IsAllowed, IsPlayed, Yields, YieldsOrNot, behind_group_at, behind_instance_at, behind_pass_at, behind_round_at, ends_left, goes_round, sequence_from, left_in, setting_of};

use crate::firing::{Firing, Moment};
use crate::firing_instance::fire;
use crate::source_lines::line_of;
use pz_base::listed::Listed;
use pz_game::rule_line::RuleLine;
use pz_grid::Level;
use pz_program::group::Group;
use pz_program::instance::Instance;
use pz_turn::StepFault;
use pz_turn::resting::PASSES;
use std::alloc::Global;

/// When the next instance is applied. `pass_changed`: the instances before it changed something in this pass. `round_changed`: the groups
/// before this one changed something in this round.
#[derive(Clone, Copy)]
pub struct Spot {
    pub moment: Moment,
    pub pass_changed: bool,
    pub round_changed: bool,
}

/// Behind an instance of the pass: before the one of the next number.
fn behind_instance(spot: Spot, next: usize, fires: bool) -> Spot
    requires { next ≡ spot.moment.instance + 1 }
    ensures { result ≡ behind_instance_at spot fires }
{
    Spot {
        moment: Moment {
            instance: next,
            ..spot.moment
        },
        pass_changed: spot.pass_changed || fires,
        round_changed: spot.round_changed,
    }
}

/// A block in play: its groups, the level so far, and when the next instance is applied. A group that is in no loop is the only one.
pub struct BlockPlay<'a> {
    pub alloc: Global,
    pub rules: &'a [RuleLine],
    pub groups: &'a [Group],
    pub is_loop: bool,
    pub level: Level,
    pub spot: Spot,
}

/// Written out, so that dropping one is a single call everywhere.
impl Drop for BlockPlay<'_> {
    fn drop(self) {
        let BlockPlay {
            alloc: _,
            rules: _,
            groups: _,
            is_loop: _,
            level: _level,
            spot: _,
        } = self;
    }
}

impl<'a> BlockPlay<'a> {
    /// Applies an instance, which is the next one.
    fn apply(&mut self, instance: &Instance) -> Result<Option<Firing>, StepFault>
        requires of_game { IsInstanceOf self.old.level.grid.layers instance.now }
        ensures firing { UnlessMemory result
            (λ firing. YieldsOrNot
            (λ later. told_instance self.old.rules.now self.old.spot.moment instance.now
            later self.old.level.grid) firing self.new.level.grid)
            (λ fault. (later : Bool → Grid → Sequence) →
            told_instance self.old.rules.now self.old.spot.moment instance.now later self.old.level.grid ≡
            stop_sequence fault) }
        ensures setting { setting_of self.new ≡ setting_of self.old }
        ensures spot { self.new.spot ≡ self.old.spot }
        ensures size { SameSize self.old.level.grid self.new.level.grid }
    {
        let places = fire(self.alloc, &mut self.level, instance)?;
        if places.is_empty() {
            return Ok(None);
        }
        Ok(Some(Firing {
            moment: self.spot.moment,
            line: line_of(self.rules, instance),
            scan: instance.scan,
            places: Listed::new(places),
        }))
    }

    /// The next firing of the pass, or `None` at its end.
    fn next_in_pass(&mut self, group: &Group) -> Result<Option<Firing>, StepFault>
        requires played { IsPlayed self.old }
        requires group { slice_get self.old.groups.now self.old.spot.moment.group ≡ Some group.now }
        ensures firing { UnlessMemory result
            (λ firing. is_some firing ≡ true →
            Yields (left_in self.old) firing self.new.level.grid (left_in self.new))
            (λ fault. left_in self.old ≡ stop_sequence fault) }
        ensures none { IfOk result (λ firing. firing ≡ None → left_in self.new ≡ left_in self.old) }
        ensures group { IfOk result
            (λ firing. firing ≡ None → self.new.spot.moment.group ≡ self.old.spot.moment.group) }
        ensures fewer { IfOk result
            (λ firing. firing ≡ None → (length group.now ≤ self.new.spot.moment.instance) ×
            (ends_left (setting_of self.new) self.new.spot ≡ ends_left (setting_of self.old) self.old.spot)) }
        ensures setting { setting_of self.new ≡ setting_of self.old }
        ensures played { IsPlayed self.new }
        ensures size { SameSize self.old.level.grid self.new.level.grid }
    {
        let instances = group.instances();
        'instances: while self.spot.moment.instance < instances.len() {
            let at = self.spot.moment.instance;
            let firing = self.apply(&instances[at])?;
            self.spot = behind_instance(self.spot, at + 1, firing.is_some());
            if firing.is_some() {
                return Ok(firing);
            }
        }
        Ok(None)
    }

    /// Where the next pass of the group begins. `LoopLimit`: this was the last that is allowed.
    fn next_pass(&self) -> Result<Spot, StepFault>
        requires allowed { IsAllowed self.now.spot }
        ensures next { IfOk result (λ spot. (spot ≡ behind_pass_at self.now.spot) × IsAllowed spot) }
        ensures fault { IfErr result (λ fault. (fault ≡ LoopLimit) × (self.now.spot.moment.pass + 1 ≡ PASSES)) }
    {
        let moment = self.spot.moment;
        if moment.pass + 1 == PASSES {
            return Err(StepFault::LoopLimit);
        }
        Ok(Spot {
            moment: Moment {
                pass: moment.pass + 1,
                instance: 0,
                ..moment
            },
            pass_changed: false,
            round_changed: self.spot.round_changed,
        })
    }

    /// Where the next round of the loop begins. `LoopLimit`: this was the last that is allowed.
    fn next_round(&self) -> Result<Spot, StepFault>
        requires allowed { IsAllowed self.now.spot }
        ensures next { IfOk result (λ spot. (spot ≡ behind_round_at self.now.spot) × IsAllowed spot) }
        ensures fault { IfErr result (λ fault. (fault ≡ LoopLimit) × (self.now.spot.moment.round + 1 ≡ PASSES)) }
    {
        let round = self.spot.moment.round;
        if round + 1 == PASSES {
            return Err(StepFault::LoopLimit);
        }
        Ok(Spot {
            moment: Moment {
                round: round + 1,
                group: 0,
                pass: 0,
                instance: 0,
            },
            pass_changed: false,
            round_changed: false,
        })
    }

    /// Where the group behind this one begins, or the end of the round.
    fn next_group(&self) -> Spot
        requires group { self.now.spot.moment.group < length self.now.groups.now }
        ensures { result ≡ behind_group_at self.now.spot }
    {
        // (brings the proof that no slice is longer than a number)
        let _count = self.groups.len();
        let moment = self.spot.moment;
        Spot {
            moment: Moment {
                group: moment.group + 1,
                pass: 0,
                instance: 0,
                ..moment
            },
            pass_changed: false,
            round_changed: self.spot.round_changed || moment.pass > 0,
        }
    }

    /// Whether a loop goes round again behind this group, which is at rest.
    fn goes_round(&self) -> bool
        requires group { self.now.spot.moment.group < length self.now.groups.now }
        ensures { result ≡ goes_round (setting_of self.now) self.now.spot }
    {
        let is_last = self.spot.moment.group + 1 == self.groups.len();
        self.is_loop && (self.spot.round_changed || self.spot.moment.pass > 0) && is_last
    }

    /// Where it goes on behind a pass. `LoopLimit`: the last pass or round that is allowed still changed something.
    fn behind_pass(&self, group: &Group) -> Result<Spot, StepFault>
        requires group { slice_get self.now.groups.now self.now.spot.moment.group ≡ Some group.now }
        requires end { length group.now ≤ self.now.spot.moment.instance }
        requires allowed { IsAllowed self.now.spot }
        ensures left { IfOk result (λ spot. sequence_from (setting_of self.now) spot self.now.level.grid ≡ left_in self.now) }
        ensures fewer { IfOk result
            (λ spot. ends_left (setting_of self.now) spot < ends_left (setting_of self.now) self.now.spot) }
        ensures allowed { IfOk result IsAllowed }
        ensures fault { IfErr result (λ fault. left_in self.now ≡ stop_sequence fault) }
    {
        if self.spot.pass_changed {
            self.next_pass()
        } else if self.goes_round() {
            self.next_round()
        } else {
            Ok(self.next_group())
        }
    }

    /// The next firing, or `None` after the last. Err: why there is none. Rule `stages.firings`.
    pub fn advance(&mut self) -> Result<Option<Firing>, StepFault>
        requires played { IsPlayed self.old }
        ensures firing { UnlessMemory result
            (λ firing. Yields (left_in self.old) firing self.new.level.grid (left_in self.new))
            (λ fault. left_in self.old ≡ stop_sequence fault) }
        ensures played { IsPlayed self.new }
        ensures size { SameSize self.old.level.grid self.new.level.grid }
    {
        let groups = self.groups;
        'passes: while let Some(group) = groups.get(self.spot.moment.group) {
            let firing = self.next_in_pass(group)?;
            if firing.is_some() {
                return Ok(firing);
            }
            self.spot = self.behind_pass(group)?;
        }
        Ok(None)
    }
}
