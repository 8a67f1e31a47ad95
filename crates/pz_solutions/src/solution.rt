//! What a search tells of a session.

ghost use Rattle.std.specs.Prelude.{IfOk, Some};
ghost use Rattle.pz_session.specs.Case.{state_of};
ghost use Rattle.pz_steps.specs.Steps.{stands_behind};
ghost use Rattle.pz_solutions.specs.Solution.{IsSolutionAt, IsSolutionOf};

use pz_case::item::Refusal;
use pz_case::plan::Plan;
use pz_session::board::Board;
use pz_solve::{Answer, Bounds, SolveFault, solve};
use pz_steps::standing;
use std::alloc::{AllocError, Global};

/// What a search tells of a session: the answer for the level in which it stands, or why it stands in none.
#[derive(Drop)]
pub enum Solution {
    /// The answer for its level.
    Of(Answer),
    /// Its last level was won.
    Over,
    /// It has stopped.
    Stopped,
    /// It is refused.
    Refused,
}

/// Solves the level in which a session stands between two inputs. Err: memory was refused.
pub fn solution_at(alloc: Global, board: &Board<'_>, bounds: Bounds) -> Result<Solution, AllocError>
    ensures { IfOk result (IsSolutionAt bounds (Some board.now)) }
{
    if board.is_over() {
        return Ok(Solution::Over);
    }
    match solve(alloc, board.game(), board.program(), board.level(), bounds) {
        Ok(answer) => Ok(Solution::Of(answer)),
        Err(SolveFault::Memory) => Err(AllocError),
    }
}

/// Solves the level in which a session stands behind its inputs. Err: memory was refused.
fn solution_behind(alloc: Global, plan: &Plan, bounds: Bounds) -> Result<Solution, AllocError>
    ensures { IfOk result (IsSolutionAt bounds (stands_behind plan.now.inputs (state_of plan.now))) }
{
    match standing(alloc, plan)? {
        Some(board) => solution_at(alloc, &board, bounds),
        None => Ok(Solution::Stopped),
    }
}

/// Solves the level in which the session of a case stands behind its inputs. Err: memory was refused.
pub fn solution_of(
    alloc: Global,
    plan: &Result<Plan, Refusal>,
    bounds: Bounds,
) -> Result<Solution, AllocError>
    ensures { IfOk result (IsSolutionOf bounds plan.now) }
{
    match plan {
        Ok(plan) => solution_behind(alloc, plan, bounds),
        Err(_) => Ok(Solution::Refused),
    }
}
