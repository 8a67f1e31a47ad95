//! Names that reach themselves.

ghost use Rattle.std.specs.Prelude.{◌≡◌, ◌≢◌, ◌<◌, ◌+◌, ◌^◌, ℕ, length, [], None, OnOk, IfOk, IfSome, true, false};
ghost use Rattle.pz_base.specs.Fault.{first_fault};
ghost use Rattle.pz_base.specs.declared.fault.Code.TheVariants as code;
ghost use Rattle.pz_names.specs.Legend.{line_at};
ghost use Rattle.pz_names.specs.Meaning.{parts_at, StaysInside};
ghost use Rattle.pz_names.specs.Denotation.{AreMarked, known_at, value_at};
ghost use Rattle.pz_names.specs.Cycles.{found_after, is_on_cycle, LeadsTo, reaches_itself};

use crate::denotation::{add_mentions, entry, is_mentioned, no_marks};
use crate::legend::Definition;
use crate::meaning::Meaning;
use pz_base::fault::{Code, SourceFault};
use pz_game::denotation::Denotation;
use std::alloc::{AllocError, Global};

/// The parts of a name, or none if there is no such name.
fn parts_at(meanings: &[Meaning], number: usize) -> &[usize]
    ensures { result.now ≡ parts_at meanings.now number }
{
    match meanings.get(number) {
        Some(meaning) => meaning.parts(),
        None => &[],
    }
}

/// Looks at the name found at this place, if there is one, and adds its parts to the names found. Repeats are dropped.
fn look(
    found: &mut Vec<usize>,
    marks: &mut [bool],
    meanings: &[Meaning],
    place: usize,
) -> Result<(), AllocError>
    requires { AreMarked marks.old found.old.items }
    ensures found { OnOk result (found.new.items ≡ found_after meanings.now place found.old.items) }
    ensures marked { OnOk result (AreMarked marks.new found.new.items) }
{
    let Some(next) = found.get(place).copied() else {
        return Ok(());
    };
    add_mentions(found, marks, parts_at(meanings, next))
}

/// Whether the lines lead from a name back to itself. It finds all names that the name leads to, each once. No line may name something
/// unknown.
pub fn is_on_cycle(alloc: Global, meanings: &[Meaning], number: usize) -> Result<bool, AllocError>
    requires { StaysInside meanings.now }
    ensures { IfOk result (λ r. r ≡ is_on_cycle meanings.now number) }
{
    let mut marks = no_marks(alloc, meanings.len())?;
    let marks = marks.as_mut_slice();
    let mut found = Vec::new(alloc);
    add_mentions(&mut found, marks, parts_at(meanings, number))?;
    for place in 0..meanings.len() {
        look(&mut found, marks, meanings, place)?;
    }
    Ok(is_mentioned(found.as_slice(), marks, number))
}

/// Whether a name reaches itself. `known` has what each name denotes, and a name that denotes something doesn't reach itself.
fn lies_on_cycle(
    alloc: Global,
    meanings: &[Meaning],
    known: &[Option<Denotation>],
    number: usize,
) -> Result<bool, AllocError>
    requires inside { StaysInside meanings.now }
    requires known { (k : ℕ) → known_at known.now k ≡ value_at (length meanings.now) meanings.now k }
    ensures { IfOk result (λ r. r ≡ is_on_cycle meanings.now number) }
{
    if entry(known, number).is_some() {
        return Ok(false);
    }
    is_on_cycle(alloc, meanings, number)
}

/// `BadLegend` at the first line whose name reaches itself. `first` is the number of the first line's name. Rule `checks.circles`.
pub fn circle(
    alloc: Global,
    first: usize,
    meanings: &[Meaning],
    known: &[Option<Denotation>],
    definitions: &[Definition],
) -> Result<Option<SourceFault>, AllocError>
    requires inside { StaysInside meanings.now }
    requires within { first + length definitions.now < 2 ^ 64 }
    requires known { (k : ℕ) → known_at known.now k ≡ value_at (length meanings.now) meanings.now k }
    ensures first { IfOk result (λ r. r ≡ first_fault line_at (reaches_itself first meanings.now) [] definitions.now) }
    ensures code { IfOk result (λ r. IfSome r (λ fault. fault.code ≡ code.BadLegend)) }
{
    for (place, definition) in definitions.iter().enumerate() {
        if lies_on_cycle(alloc, meanings, known, first + place)? {
            return Ok(Some(SourceFault {
                code: Code::BadLegend,
                line: definition.number,
            }));
        }
    }
    Ok(None)
}

/// If no line names something unknown and no name reaches itself, every name denotes something.
pub fn every_name_denotes(meanings: &[Meaning])
    requires inside { StaysInside meanings.now }
    requires acyclic { (k : ℕ) → is_on_cycle meanings.now k ≡ false }
    ensures { (k : ℕ) → k < length meanings.now → value_at (length meanings.now) meanings.now k ≢ None }
{}

/// A name reaches itself, in at most as many steps as there are names, exactly if some chain of definitions leads back to it.
pub fn circles_are_chains(meanings: &[Meaning], number: usize)
    ensures leads { is_on_cycle meanings.now number ≡ true → LeadsTo meanings.now number number }
    ensures found { LeadsTo meanings.now number number → is_on_cycle meanings.now number ≡ true }
{}

/// A name that reaches itself has no value, so only names without one need to be looked at.
pub fn circles_have_no_value(meanings: &[Meaning], number: usize)
    ensures { is_on_cycle meanings.now number ≡ true → value_at (length meanings.now) meanings.now number ≡ None }
{}
