//! The items of a case, one by one.

ghost use Rattle.std.specs.Prelude.{◌≡◌, ◌+◌, ◌++◌, ◌<◌, ◌^◌, [], true, false, length, MatchResult, IsErr, IfOk};
ghost use Rattle.pz_session.specs.Case.{items_of, played_items};
ghost use Rattle.pz_session.specs.Player.{items_left};

use crate::board::Board;
use crate::player::Player;
use crate::stage::Stage;
use crate::tape::Tape;
use pz_case::case::Case;
use pz_case::item::{Item, Verdict};
use pz_case::plan::Plan;
use std::alloc::{AllocError, Global};
use std::marker::Model;

/// The run of a case. Contracts see the items that are still to come, and whether memory was refused.
pub struct Run<'a> {
    stage: Stage<'a>,
}

/// Written out, as for a board.
impl Drop for Run<'_> {
    fn drop(self) {
        let Run { stage: _stage } = self;
    }
}

impl<'a> Model for Run<'a> {
    ghost use Rattle.pz_session.specs.Run.{Remaining, remaining_in, CanBeNumbered};

    ghost Value = { Remaining };

    ghost view = { λ r. remaining_in r.stage };

    ghost invariant = { λ r. CanBeNumbered r.stage };
}

/// A session at its start.
fn play(alloc: Global, plan: &Plan) -> Result<Player<'_>, AllocError>
    ensures items { IfOk result (λ player. items_left player ≡ played_items plan.now) }
    ensures room { IfOk result (λ player. player.number + length (items_left player) < 2 ^ 63) }
{
    let board = Board::load(
        alloc,
        plan.game(),
        plan.program(),
        plan.order(),
        plan.recorded(),
        plan.first(),
    );
    match board {
        Ok(board) => Player::start(board, Tape::new(plan.inputs().items())),
        Err(fault) => Err(fault),
    }
}

/// Ends the run, because memory was refused. It stays a function of its own: a call clears all the stack that it might use, and this one
/// uses room for a stage.
#[inline(never)]
fn fail(stage: &mut Stage<'_>)
    ensures { stage.new ≡ Stage.Failed }
{
    *stage = Stage::Failed;
}

impl<'a> Run<'a> {
    ghost use Rattle.pz_case.specs.Playing.{Yields};

    /// The run of a case, before its first item.
    #[tactic(auto, unfolding(crate::specs::Case::items_of_plan))]
    pub fn new(alloc: Global, case: &'a Case) -> Result<Run<'a>, AllocError>
        ensures items { IfOk result (λ run. run.items ≡ items_of case.now) }
        ensures healthy { IfOk result (λ run. run.has_failed ≡ false) }
    {
        match &case.plan {
            Err(refusal) => Ok(Run {
                stage: Stage::Refused(Some(*refusal)),
            }),
            Ok(plan) => match play(alloc, plan) {
                Ok(player) => Ok(Run {
                    stage: Stage::Playing(player),
                }),
                Err(fault) => Err(fault),
            },
        }
    }

    /// The next item, or `None` after the close. Err: memory was refused; then every later call fails too.
    pub fn next(&mut self) -> Result<Option<Item>, AllocError>
        ensures item { MatchResult result
            (λ answer. (self.old.has_failed ≡ false) × (self.new.has_failed ≡ false) × Yields self.old.items answer
            self.new.items)
            (λ _. self.new.has_failed ≡ true) }
        ensures failed { self.old.has_failed ≡ true → IsErr result }
    {
        match &mut self.stage {
            Stage::Playing(player) => match player.next() {
                Ok(item) => Ok(item),
                Err(fault) => {
                    fail(&mut self.stage);
                    Err(fault)
                }
            },
            Stage::Refused(refusal) => match refusal.take() {
                Some(refusal) => Ok(Some(Item::Close(Verdict::Refused(refusal)))),
                None => Ok(None),
            },
            Stage::Failed => Err(AllocError),
        }
    }
}

/// Adds the next item to those taken before. False: there is none.
fn take_next(run: &mut Run<'_>, items: &mut Vec<Item>) -> Result<bool, AllocError>
    ensures kept { IfOk result (λ _. items.new.items ++ run.new.items ≡ items.old.items ++ run.old.items) }
    ensures fewer { IfOk result (λ found. found ≡ true → length run.new.items < length run.old.items) }
    ensures end { IfOk result (λ found. found ≡ false → run.new.items ≡ []) }
{
    match run.next()? {
        Some(item) => {
            items.push(item)?;
            Ok(true)
        }
        None => Ok(false),
    }
}

/// All items that are still to come.
fn left_in(alloc: Global, run: &mut Run<'_>) -> Result<Vec<Item>, AllocError>
    ensures { IfOk result (λ items. items.items ≡ run.old.items) }
{
    let mut items = Vec::new(alloc);
    'items: while take_next(run, &mut items)? {}
    Ok(items)
}

/// All items of a case. A played session has its frames and then its close, a refused one only its close. Err: memory was refused.
pub fn frames(alloc: Global, case: &Case) -> Result<Vec<Item>, AllocError>
    ensures { IfOk result (λ items. items.items ≡ items_of case.now) }
{
    match Run::new(alloc, case) {
        Ok(mut run) => left_in(alloc, &mut run),
        Err(fault) => Err(fault),
    }
}
