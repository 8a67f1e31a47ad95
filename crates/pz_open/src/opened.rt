//! A session that is kept open: it is given inputs, and goes back to any earlier one.

ghost use Rattle.std.specs.Prelude.{◌≡◌, ◌≢◌, ◌+◌, ◌++◌, ◌∷◌, ◌<◌, ◌≤◌, [], All, IfOk, IfErr, IfSome, OnOk, OnErr, Err, List, filter, length, nat_le, take};
ghost use Rattle.std.specs.Arc.{arc_value};
ghost use Rattle.pz_record.specs.declared.input.Input.{Input};
ghost use Rattle.pz_record.specs.declared.input.TheConstants.{MOST_INPUTS};
ghost use Rattle.pz_case.specs.Plan.{PlanState};
ghost use Rattle.pz_open.specs.Opened.{behind, with_inputs};
ghost use Rattle.pz_open.specs.Kept.{IsKeptOf, IsNewest, IsStanding, TellsNewest};
ghost use Rattle.pz_open.specs.declared.opened.GiveFault.TheVariants.{TooMany};
ghost use Rattle.pz_open.specs.declared.opened.BackFault.TheVariants.{TooFew};

use crate::label::Label;
use crate::place::{Moved, Place, begin, go_on, go_through};
use pz_case::plan::Plan;
use pz_record::input::{Input, MOST_INPUTS};
use std::alloc::{AllocError, Global};
use std::marker::Model;
use std::sync::Arc;

/// How many inputs lie between two places that are kept, where they lie closest.
const STRIDE: usize = 64;

/// Why inputs aren't given.
#[derive(Clone, Copy, PartialEq, Eq, Debug)]
pub enum GiveFault {
    /// With them the session would have more inputs than one may have.
    TooMany,
    /// Memory was refused.
    Memory,
}

impl From<AllocError> for GiveFault {
    ghost use Rattle.std.specs.Prelude.{◌≡◌};
    ghost use Rattle.pz_open.specs.declared.opened.GiveFault.TheVariants.{Memory};

    ghost from_gives = { λ _ fault. fault ≡ Memory };

    fn from(_: AllocError) -> GiveFault {
        GiveFault::Memory
    }
}

/// Why a session doesn't go back.
#[derive(Clone, Copy, PartialEq, Eq, Debug)]
pub enum BackFault {
    /// It has fewer inputs.
    TooFew,
    /// Memory was refused.
    Memory,
}

impl From<AllocError> for BackFault {
    ghost use Rattle.std.specs.Prelude.{◌≡◌};
    ghost use Rattle.pz_open.specs.declared.opened.BackFault.TheVariants.{Memory};

    ghost from_gives = { λ _ fault. fault ≡ Memory };

    fn from(_: AllocError) -> BackFault {
        BackFault::Memory
    }
}

/// Where the session stood behind its first inputs.
#[derive(Drop)]
pub struct Kept {
    pub count: usize,
    pub place: Place,
}

/// Where inputs lead, and the lines of the items that come with the last of them.
#[derive(Drop)]
pub struct Newest {
    pub place: Place,
    pub lines: Vec<u8>,
}

/// A session that is kept open. Contracts see its plan, whose inputs are those that it was given so far. `place` is where it stands, if
/// that is known: once memory was refused it is found again. `kept` are places on the way.
#[derive(Drop)]
pub struct OpenSession {
    label: Label,
    plan: Arc<Plan>,
    inputs: Vec<Input>,
    place: Option<Place>,
    kept: Vec<Kept>,
}

impl Model for OpenSession {
    ghost use Rattle.std.specs.Arc.{arc_value};
    ghost use Rattle.pz_open.specs.Opened.{OpenState, with_inputs};
    ghost use Rattle.pz_open.specs.Kept.{IsOpen};

    ghost Value = { OpenState };

    ghost view = { λ s. record { label = s.label; plan = with_inputs (arc_value s.plan) s.inputs.items } };

    ghost invariant = { λ s. IsOpen (arc_value s.plan) s.inputs.items s.place s.kept.items };
}

/// Whether the place behind so many inputs is kept where a session stands behind `count`. The farther back, the fewer places are kept: it is
/// the number of inputs before them that tells, by its lowest bit.
fn is_worth_keeping(at: usize, count: usize) -> bool {
    let lowest = at & at.wrapping_neg();
    lowest >= STRIDE && lowest >= count.saturating_sub(at) / 4
}

/// The next number of inputs behind which a place is worth keeping on the way to `count`, or `count`.
fn next_worth_keeping(from: usize, count: usize) -> usize
    requires { from < count }
    ensures further { from < result }
    ensures within { result ≤ count }
{
    let mut at = from + 1;
    'inputs: while at < count && !is_worth_keeping(at, count) {
        at += 1;
    }
    at
}

/// Keeps the place behind so many inputs on the way to `count`, if it is worth keeping. Where memory is refused it isn't kept.
fn keep(kept: &mut Vec<Kept>, place: &Place, at: usize, count: usize)
    ensures { (plan : PlanState) → (inputs : List Input) →
        IsKeptOf plan inputs (record { count = at; place = place.now }) → All (IsKeptOf plan inputs) kept.old.items →
        All (IsKeptOf plan inputs) kept.new.items }
{
    if !is_worth_keeping(at, count) || kept.reserve(1).is_err() {
        return;
    }
    if let Ok(place) = place.copy() {
        let _ = kept.push(Kept { count: at, place });
    }
}

/// Forgets the places that are not worth keeping behind so many inputs.
fn thin(kept: &mut Vec<Kept>, count: usize)
    ensures { (plan : PlanState) → (inputs : List Input) → All (IsKeptOf plan inputs) kept.old.items →
        All (IsKeptOf plan inputs) kept.new.items }
{
    kept.retain(|kept| is_worth_keeping(kept.count, count));
}

/// Forgets the places that are kept behind more than so many inputs.
fn forget_behind(kept: &mut Vec<Kept>, count: usize)
    ensures { kept.new.items ≡ filter (λ k. nat_le k.count count) kept.old.items }
{
    kept.retain(|kept| kept.count <= count);
}

/// The last place that is kept behind no more than so many inputs, or the start.
fn last_kept(plan: &Plan, kept: &Vec<Kept>, count: usize) -> Result<Kept, AllocError>
    ensures before { IfOk result (λ last. last.count ≤ count) }
    ensures kept { IfOk result
        (λ last. (inputs : List Input) → All (IsKeptOf plan.now inputs) kept.now.items →
        IsKeptOf plan.now inputs last) }
{
    let mut left = kept.len();
    'kept: while left > 0 {
        left -= 1;
        let last = &kept[left];
        if last.count <= count {
            return Ok(Kept {
                count: last.count,
                place: last.place.copy()?,
            });
        }
    }
    let Moved { place, items: _ } = begin(*kept.allocator(), plan)?;
    Ok(Kept { count: 0, place })
}

/// The place behind the first `count` inputs, played from a place behind no more of them. Places on the way are kept.
fn play_on(
    plan: &Plan,
    from: Kept,
    kept: &mut Vec<Kept>,
    inputs: &[Input],
    count: usize,
) -> Result<Place, AllocError>
    requires before { from.count ≤ count }
    requires within { count ≤ length inputs.now }
    requires few { length inputs.now ≤ MOST_INPUTS }
    requires from { IsKeptOf plan.now inputs.now from }
    requires kept { All (IsKeptOf plan.now inputs.now) kept.old.items }
    ensures standing { IfOk result (IsStanding plan.now (take count inputs.now)) }
    ensures kept { All (IsKeptOf plan.now inputs.now) kept.new.items }
{
    let alloc = *kept.allocator();
    let Kept {
        count: begun,
        place,
    } = from;
    let mut place = place;
    let mut taken = begun;
    'stages: while taken < count {
        let next = next_worth_keeping(taken, count);
        let further = go_through(alloc, plan, place, &inputs[taken..next])?;
        place = further;
        taken = next;
        keep(kept, &place, taken, count);
    }
    Ok(place)
}

/// Where inputs lead, from a place that is known, if that is before the last of them, or one that is kept.
fn move_to(
    plan: &Plan,
    known: Option<Kept>,
    kept: &mut Vec<Kept>,
    inputs: &[Input],
) -> Result<Moved, AllocError>
    requires few { length inputs.now ≤ MOST_INPUTS }
    requires known { IfSome known (IsKeptOf plan.now inputs.now) }
    requires kept { All (IsKeptOf plan.now inputs.now) kept.old.items }
    ensures standing { IfOk result (λ moved. IsStanding plan.now inputs.now moved.place) }
    ensures items { IfOk result (λ moved. IsNewest plan.now inputs.now moved.items.items) }
    ensures kept { All (IsKeptOf plan.now inputs.now) kept.new.items }
{
    let alloc = *kept.allocator();
    if inputs.len() == 0 {
        return begin(alloc, plan);
    }
    let last = inputs.len() - 1;
    let from = match known {
        Some(known) => {
            if known.count <= last {
                known
            } else {
                last_kept(plan, kept, last)?
            }
        }
        None => last_kept(plan, kept, last)?,
    };
    let place = play_on(plan, from, kept, inputs, last)?;
    go_on(alloc, plan, place, last as u64 + 1, inputs[last])
}

/// Where inputs lead, as `move_to` finds it, with the lines of what comes with the last of them.
fn told_newest(
    label: &Label,
    plan: &Plan,
    known: Option<Kept>,
    kept: &mut Vec<Kept>,
    inputs: &[Input],
) -> Result<Newest, AllocError>
    requires few { length inputs.now ≤ MOST_INPUTS }
    requires known { IfSome known (IsKeptOf plan.now inputs.now) }
    requires kept { All (IsKeptOf plan.now inputs.now) kept.old.items }
    ensures standing { IfOk result (λ newest. IsStanding plan.now inputs.now newest.place) }
    ensures lines { IfOk result (λ newest. TellsNewest (record
        { label = label.now; plan = with_inputs plan.now inputs.now }) newest.lines.items) }
    ensures kept { All (IsKeptOf plan.now inputs.now) kept.new.items }
{
    let alloc = *kept.allocator();
    let Moved { place, items } = move_to(plan, known, kept, inputs)?;
    let lines = label.lines(alloc, place.frames(), &items)?;
    Ok(Newest { place, lines })
}

impl OpenSession {
    /// Opens a session of a plan, without inputs, and answers the lines of its items. Err: memory was refused.
    pub fn open(
        alloc: Global,
        label: Label,
        plan: Plan,
    ) -> Result<(OpenSession, Vec<u8>), AllocError>
        ensures opened { IfOk result (λ opened. opened.0 ≡ record { label = label; plan = with_inputs plan [] }) }
        ensures lines { IfOk result (λ opened. TellsNewest opened.0 opened.1.items) }
    {
        let mut kept = Vec::new(alloc);
        let Newest { place, lines } = told_newest(&label, &plan, None, &mut kept, &[])?;
        let session = OpenSession {
            label,
            plan: Arc::new(alloc, plan)?,
            inputs: Vec::new(alloc),
            place: Some(place),
            kept,
        };
        Ok((session, lines))
    }

    /// How many inputs it was given.
    pub fn len(&self) -> usize
        ensures { result ≡ length self.now.plan.inputs }
    {
        self.inputs.len()
    }

    /// A session that was given the same. Err: memory was refused.
    pub fn copy(&self) -> Result<OpenSession, AllocError>
        ensures { IfOk result (λ copy. copy ≡ self.now) }
    {
        let alloc = *self.inputs.allocator();
        let mut inputs = Vec::new(alloc);
        inputs.extend_from_slice(&self.inputs)?;
        let place = match &self.place {
            Some(place) => Some(place.copy()?),
            None => None,
        };
        Ok(OpenSession {
            label: self.label.copy(alloc)?,
            plan: Arc::try_clone(&self.plan)?,
            inputs,
            place,
            kept: Vec::new(alloc),
        })
    }

    /// Keeps the place where it stands, if it is worth keeping, and forgets those that no longer are.
    fn keep(&mut self)
        ensures { self.new ≡ self.old }
    {
        let count = self.inputs.len();
        thin(&mut self.kept, count);
        if let Some(place) = &self.place {
            keep(&mut self.kept, place, count, count);
        }
    }

    /// Gives it inputs, one after another, and answers the lines of the items that come with the last of all that it then has. Err: it would
    /// have more inputs than a session may have, or memory was refused; then it stays as it was.
    pub fn give(&mut self, inputs: &[Input]) -> Result<Vec<u8>, GiveFault>
        ensures given { OnOk result (self.new ≡ behind self.old (self.old.plan.inputs ++ inputs.now)) }
        ensures lines { IfOk result (λ lines. TellsNewest self.new lines.items) }
        ensures same { OnErr result (self.new ≡ self.old) }
        ensures full { IfErr result
            (λ fault. fault ≡ TooMany → MOST_INPUTS < length self.old.plan.inputs + length inputs.now) }
        ensures room { length self.old.plan.inputs + length inputs.now ≤ MOST_INPUTS → result ≢ Err TooMany }
    {
        let before = self.inputs.len();
        if MOST_INPUTS - before < inputs.len() {
            return Err(GiveFault::TooMany);
        }
        self.inputs.extend_from_slice(inputs)?;
        let known = match self.place.take() {
            Some(place) => Some(Kept {
                count: before,
                place,
            }),
            None => None,
        };
        match told_newest(&self.label, &self.plan, known, &mut self.kept, &self.inputs) {
            Ok(Newest { place, lines }) => {
                self.place = Some(place);
                self.keep();
                Ok(lines)
            }
            Err(AllocError) => {
                self.inputs.truncate(before);
                forget_behind(&mut self.kept, before);
                Err(GiveFault::Memory)
            }
        }
    }

    /// Goes back to its first `count` inputs, and answers the lines of the items that come with the last of these. Err: it has fewer inputs, or
    /// memory was refused; then it stays as it was.
    pub fn back(&mut self, count: usize) -> Result<Vec<u8>, BackFault>
        ensures went { OnOk result (self.new ≡ behind self.old (take count self.old.plan.inputs)) }
        ensures lines { IfOk result (λ lines. TellsNewest self.new lines.items) }
        ensures same { OnErr result (self.new ≡ self.old) }
        ensures few { result ≡ Err TooFew → length self.old.plan.inputs < count }
        ensures room { length self.old.plan.inputs < count → result ≡ Err TooFew }
    {
        if count > self.inputs.len() {
            return Err(BackFault::TooFew);
        }
        forget_behind(&mut self.kept, count);
        let Newest { place, lines } = told_newest(
            &self.label,
            &self.plan,
            None,
            &mut self.kept,
            &self.inputs[..count],
        )?;
        self.inputs.truncate(count);
        self.place = Some(place);
        self.keep();
        Ok(lines)
    }
}
