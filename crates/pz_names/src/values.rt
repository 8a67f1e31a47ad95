//! What each name of a source denotes.

ghost use Rattle.std.specs.Prelude.{◌≡◌, length, IfOk, Ok};
ghost use Rattle.std.specs.List.{filter_map};
ghost use Rattle.pz_base.specs.Fault.{unless, and_then};
ghost use Rattle.pz_names.specs.Objects.{object_names};
ghost use Rattle.pz_names.specs.Legend.{definitions_of};
ghost use Rattle.pz_names.specs.Denotation.{values_of};
ghost use Rattle.pz_names.specs.Values.{names_of_source, meanings_of_source, fault_of_definitions, fault_of_legend};

use crate::cycles::circle;
use crate::denotation::denotations;
use crate::kinds::mixture;
use crate::legend::{Definition, definitions, unknown_part};
use crate::meaning::meanings;
use crate::name_line::NameLine;
use pz_base::fault::SourceFault;
use pz_base::name_set::NameSet;
use pz_game::denotation::Denotation;
use pz_text::line::Line;
use std::alloc::{AllocError, Global};

fn known_values(
    alloc: Global,
    known: Vec<Option<Denotation>>,
) -> Result<Vec<Denotation>, AllocError>
    ensures { IfOk result (λ values. values.items ≡ filter_map (λ entry. entry) known.items) }
{
    let mut values: Vec<Denotation> = known.into_iter().filter_map(|entry| entry).collect(alloc)?;
    // all games are kept until the last session is played
    values.shrink_to_fit();
    Ok(values)
}

/// What each name denotes, or the first fault of the definitions: `Unknown`, then `BadLegend` (a name that reaches itself), then `Mixed`.
/// `first` is the number of the first definition's name.
fn denoted(
    alloc: Global,
    first: usize,
    objects: &[NameLine],
    names: &NameSet,
    definitions: &[Definition],
) -> Result<Result<Vec<Denotation>, SourceFault>, AllocError>
    requires first { first ≡ length (object_names objects.now) }
    requires named { names.now ≡ names_of_source objects.now definitions.now }
    ensures denoted { IfOk result
        (λ read. and_then (λ values. Ok values.items) read ≡
        unless (fault_of_definitions objects.now definitions.now)
        (Ok (values_of (meanings_of_source objects.now definitions.now)))) }
    ensures all { IfOk result (λ read. IfOk read (λ values. length values.items ≡ length names.now)) }
{
    if let Some(fault) = unknown_part(names, definitions) {
        return Ok(Err(fault));
    }
    // (brings the proof that the names are few)
    let _count = names.len();
    let meanings = meanings(alloc, objects, names, definitions)?;
    let meanings = meanings.as_slice();
    let known = denotations(alloc, meanings)?;
    if let Some(fault) = circle(alloc, first, meanings, known.as_slice(), definitions)? {
        return Ok(Err(fault));
    }
    let values = known_values(alloc, known)?;
    if let Some(fault) = mixture(names, values.as_slice(), definitions) {
        return Ok(Err(fault));
    }
    Ok(Ok(values))
}

/// What each name of a source denotes, or the first fault of its legend. Line by line it is `BadLegend` (the form), `Duplicate` or
/// `TooLarge`. Then it is `Unknown`, then `BadLegend` (a name that reaches itself), then `Mixed`. `names` has the names of OBJECTS, and
/// gets those of LEGEND after them. Err: memory was refused.
pub fn read_legend(
    alloc: Global,
    objects: &[NameLine],
    names: &mut NameSet,
    lines: &[Line],
) -> Result<Result<Vec<Denotation>, SourceFault>, AllocError>
    requires { names.old ≡ object_names objects.now }
    ensures denoted { IfOk result
        (λ read. and_then (λ values. Ok values.items) read ≡
        unless (fault_of_legend objects.now lines.now)
        (Ok (values_of (meanings_of_source objects.now (definitions_of lines.now))))) }
    ensures named { IfOk result
        (λ read. IfOk read (λ _. names.new ≡ names_of_source objects.now (definitions_of lines.now))) }
    ensures all { IfOk result (λ read. IfOk read (λ values. length values.items ≡ length names.new)) }
{
    let first = names.len();
    let definitions = or_fault!(definitions(alloc, names, lines)?);
    denoted(alloc, first, objects, names, definitions.as_slice())
}
