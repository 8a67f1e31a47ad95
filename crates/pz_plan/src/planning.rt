//! The plan of a rule, or its first fault.
#![tactic(auto, unfolding(crate::specs::Planning::plan_of_spelled, crate::specs::Planning::with_right, crate::specs::Planning::plan_of))]

ghost use Rattle.std.specs.Prelude.{◌≡◌, true, IfOk};
ghost use Rattle.pz_plan.specs.Planning.{plan_of_spelled, plan_of};
ghost use Rattle.pz_plan.specs.Shape.{AreShaped};
ghost use Rattle.pz_grammar.specs.Written.{is_whole};

use crate::checks::fault_of;
use crate::commands::commands_given;
use crate::deciding::decided_rows;
use crate::fault::RuleFault;
use crate::numbering::number_rows;
use crate::plan::{Mention, Plan, PlanRow};
use crate::prefix::directions_of;
use crate::spelling::{Side, rows_spelled_out};
use pz_base::listed::Listed;
use pz_game::denotation::Denotation;
use pz_grammar::rule::Rule;
use std::alloc::{AllocError, Global};

/// The plan of a rule whose names are spelled out.
fn planned(
    alloc: Global,
    rule: &Rule,
    left: &[PlanRow<Mention>],
    right: &[PlanRow<Mention>],
) -> Result<Result<Plan, RuleFault>, AllocError>
    ensures { IfOk result (λ plan. plan ≡ plan_of_spelled rule.now left.now right.now) }
{
    let mut choices = Vec::new(alloc);
    let terms = number_rows(alloc, left, &mut choices)?;
    match decided_rows(alloc, &choices, right)? {
        Some(decided) => Ok(Ok(Plan {
            directions: directions_of(alloc, rule)?,
            choices: Listed::new(choices),
            left: terms,
            right: decided,
            commands: commands_given(rule.commands.items()),
        })),
        None => Ok(Err(RuleFault::AmbiguousRight)),
    }
}

/// The plan of a rule, late or not, or its first fault.
fn read_plan(
    alloc: Global,
    table: &[Denotation],
    is_late: bool,
    rule: &Rule,
) -> Result<Result<Plan, RuleFault>, AllocError>
    ensures { IfOk result (λ plan. plan ≡ plan_of table.now is_late rule.now) }
{
    if let Some(fault) = fault_of(table, is_late, rule) {
        return Ok(Err(fault));
    }
    let left = rows_spelled_out(alloc, Side::Left, table, rule.left.items())?;
    let right = rows_spelled_out(alloc, Side::Right, table, rule.right.items())?;
    planned(alloc, rule, left.items(), right.items())
}

/// The plan of a rule, late or not, or its first fault. Its rows have the shape of rows. Err: memory was refused.
#[tactic(auto, using(crate::proofs::Shaping::shaped))]
pub fn plan_of(
    alloc: Global,
    table: &[Denotation],
    is_late: bool,
    rule: &Rule,
) -> Result<Result<Plan, RuleFault>, AllocError>
    requires whole { is_whole rule.now ≡ true }
    ensures plan { IfOk result (λ plan. plan ≡ plan_of table.now is_late rule.now) }
    ensures shaped { IfOk result (λ plan. IfOk plan (λ plan. AreShaped plan.left × AreShaped plan.right)) }
{
    read_plan(alloc, table, is_late, rule)
}
