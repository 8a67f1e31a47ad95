//! The instances of a rule, or its first fault.
#![tactic(auto, unfolding(crate::specs::Expansion::unless_clash, crate::specs::Expansion::expansion_within, crate::specs::Expansion::expansion_of_rule))]

ghost use Rattle.std.specs.Prelude.{◌≡◌, ◌≤◌, ◌+◌, true, IfOk};
ghost use Rattle.std.specs.Option.{SomeIff};
ghost use Rattle.pz_rules.specs.Counting.{pair_count};
ghost use Rattle.pz_rules.specs.Expansion.{unless_clash, expansion_within, expansion_of_rule};
ghost use Rattle.pz_plan.specs.Shape.{AreShaped};
ghost use Rattle.pz_grammar.specs.Written.{is_whole};

use crate::counting::count_within;
use crate::patterns::Patterns;
use crate::plan_instances::instances_of;
use pz_base::listed::Listed;
use pz_game::denotation::Denotation;
use pz_grammar::rule::Rule;
use pz_instances::clash::have_clash;
use pz_plan::fault::RuleFault;
use pz_plan::plan::Plan;
use pz_plan::planning::plan_of;
use pz_program::instance::Instance;
use std::alloc::AllocError;

/// How many pairs of a direction and a list of picks all rules of a game may have together. Rule `limits.pairs`.
pub const PAIRS: u64 = 65_536;

/// Promises the limit as a number, so that changing the constant alone breaks a proof.
pub fn pairs_are_limited()
    ensures { PAIRS ≡ 65_536 }
{}

/// The instances of a rule, and how many pairs all rules up to it have.
#[derive(Drop)]
pub struct Expansion {
    pub instances: Listed<Instance>,
    pub pairs: u64,
}

/// How many pairs there are with those of a plan, if that is allowed.
fn total_within(table: &[Denotation], pairs: u64, plan: &Plan) -> Option<u64>
    ensures { SomeIff result (pairs + pair_count table.now plan.now ≤ PAIRS) (pairs + pair_count table.now plan.now) }
{
    let count = count_within(table, plan, PAIRS)?;
    let total = pairs.checked_add(count)?;
    if total > PAIRS { None } else { Some(total) }
}

/// The kept instances, if the right of none has a clash.
fn unless_clash(total: u64, instances: Vec<Instance>) -> Result<Expansion, RuleFault>
    ensures { result ≡ unless_clash total instances.items }
{
    if have_clash(&instances) {
        return Err(RuleFault::RightClash);
    }
    Ok(Expansion {
        instances: Listed::new(instances),
        pairs: total,
    })
}

/// The instances of a plan, if all rules up to it have no more pairs than are allowed.
fn expansion_within(
    patterns: &mut Patterns,
    table: &[Denotation],
    layers: &[usize],
    below: usize,
    pairs: u64,
    plan: &Plan,
) -> Result<Result<Expansion, RuleFault>, AllocError>
    requires left { AreShaped plan.now.left }
    requires right { AreShaped plan.now.right }
    ensures { IfOk result (λ more. more ≡
        expansion_within table.now layers.now below (pairs + pair_count table.now plan.now) plan.now) }
{
    let Some(total) = total_within(table, pairs, plan) else {
        return Ok(Err(RuleFault::TooManyRules));
    };
    let instances = instances_of(patterns, table, layers, below, plan)?;
    Ok(unless_clash(total, instances))
}

/// The instances of a rule, late or not, or its first fault. So many lines of RULES stand below it, and the rules above it have so many
/// pairs. Err: memory was refused.
pub fn expanded(
    patterns: &mut Patterns,
    table: &[Denotation],
    layers: &[usize],
    below: usize,
    pairs: u64,
    is_late: bool,
    rule: &Rule,
) -> Result<Result<Expansion, RuleFault>, AllocError>
    requires whole { is_whole rule.now ≡ true }
    ensures { IfOk result (λ more. more ≡ expansion_of_rule table.now layers.now below pairs is_late rule.now) }
{
    let plan = or_fault!(plan_of(patterns.alloc(), table, is_late, rule)?);
    expansion_within(patterns, table, layers, below, pairs, &plan)
}
