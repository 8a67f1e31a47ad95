//! What the lines of OBJECTS and LEGEND say about their names, by the numbers of the names.

ghost use Rattle.std.specs.Prelude.{◌≡◌, ◌++◌, ◌∷◌, [], IfOk, OnOk, map, length};
ghost use Rattle.pz_names.specs.declared.meaning.Meaning.TheVariants.{Itself};
ghost use Rattle.pz_names.specs.Meaning.{number_or_end, parts_of, meaning_by, object_meanings, meanings_of};

use crate::legend::{Definition, Said};
use crate::name_line::NameLine;
use pz_base::listed::Listed;
use pz_base::name::Name;
use pz_base::name_set::NameSet;
use std::alloc::{AllocError, Global};

/// What a line says about its name. `Itself`: it is the object of the first number, whose first name has the second number. Else it stands
/// for other names, by their numbers: one name, all of some, or any of some.
pub enum Meaning {
    Itself(usize, usize),
    Same(usize),
    AllOf(Listed<usize>),
    AnyOf(Listed<usize>),
}

impl Drop for Meaning {
    fn drop(self) {
        match self {
            Meaning::Itself(_, _) | Meaning::Same(_) => {}
            Meaning::AllOf(parts) => drop(parts),
            Meaning::AnyOf(parts) => drop(parts),
        }
    }
}

impl Meaning {
    /// The names on the right of the line.
    pub fn parts(&self) -> &[usize]
        ensures { result.now ≡ parts_of self.now }
    {
        match self {
            Meaning::Itself(_, _) => &[],
            Meaning::Same(other) => std::slice::from_ref(other),
            Meaning::AllOf(parts) | Meaning::AnyOf(parts) => parts.items(),
        }
    }
}

/// The number of a name, or how many names there are if it is none of them.
pub fn number_or_end(names: &NameSet, name: &Name) -> usize
    ensures { result ≡ number_or_end names.now name.now }
{
    names.number_of(name.as_str()).unwrap_or(names.len())
}

fn numbers(alloc: Global, names: &NameSet, parts: &[Name]) -> Result<Listed<usize>, AllocError>
    ensures { IfOk result (λ numbers. numbers ≡ map (number_or_end names.now) parts.now) }
{
    let items = parts
        .iter()
        .map(|part| number_or_end(names, part))
        .collect(alloc)?;
    Ok(Listed::new(items))
}

impl Said {
    /// The same, by the numbers of the names.
    fn meaning(&self, alloc: Global, names: &NameSet) -> Result<Meaning, AllocError>
        ensures { IfOk result (λ meaning. meaning ≡ meaning_by names.now self.now) }
    {
        match self {
            Said::Same(name) => Ok(Meaning::Same(number_or_end(names, name))),
            Said::AllOf(parts) => Ok(Meaning::AllOf(numbers(alloc, names, parts.items())?)),
            Said::AnyOf(parts) => Ok(Meaning::AnyOf(numbers(alloc, names, parts.items())?)),
        }
    }
}

fn add_object(
    meanings: &mut Vec<Meaning>,
    place: usize,
    first: usize,
    names: &[Name],
) -> Result<(), AllocError>
    ensures { OnOk result (meanings.new.items ≡ meanings.old.items ++ map (λ name. Itself place first) names.now) }
{
    for _name in names {
        meanings.push(Meaning::Itself(place, first))?;
    }
    Ok(())
}

/// Adds what the lines of OBJECTS say about their names.
fn add_objects(meanings: &mut Vec<Meaning>, objects: &[NameLine]) -> Result<(), AllocError>
    ensures { OnOk result (meanings.new.items ≡
        meanings.old.items ++ object_meanings 0 (length meanings.old.items) objects.now) }
{
    for (place, line) in objects.iter().enumerate() {
        let first = meanings.len();
        add_object(meanings, place, first, line.names.items())?;
    }
    Ok(())
}

/// Adds what a line of LEGEND says about its name.
fn add_definition(
    alloc: Global,
    meanings: &mut Vec<Meaning>,
    names: &NameSet,
    definition: &Definition,
) -> Result<(), AllocError>
    ensures { OnOk result (meanings.new.items ≡ meanings.old.items ++ meaning_by names.now definition.now.said ∷ []) }
{
    let meaning = definition.said.meaning(alloc, names)?;
    meanings.push(meaning)?;
    Ok(())
}

fn add_definitions(
    alloc: Global,
    meanings: &mut Vec<Meaning>,
    names: &NameSet,
    definitions: &[Definition],
) -> Result<(), AllocError>
    ensures { OnOk result (meanings.new.items ≡
        meanings.old.items ++ map (λ d. meaning_by names.now d.said) definitions.now) }
{
    for definition in definitions {
        add_definition(alloc, meanings, names, definition)?;
    }
    Ok(())
}

/// What the lines of OBJECTS and LEGEND say about their names, in the order of the names' numbers.
pub fn meanings(
    alloc: Global,
    objects: &[NameLine],
    names: &NameSet,
    definitions: &[Definition],
) -> Result<Vec<Meaning>, AllocError>
    ensures { IfOk result (λ meanings. meanings.items ≡ meanings_of objects.now names.now definitions.now) }
{
    let mut meanings = Vec::new(alloc);
    add_objects(&mut meanings, objects)?;
    add_definitions(alloc, &mut meanings, names, definitions)?;
    Ok(meanings)
}
