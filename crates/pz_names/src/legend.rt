//! The lines of LEGEND.

ghost use Rattle.std.specs.Prelude.{◌≡◌, ◌==◌, ◌++◌, [], ◌∷◌, IfOk, IfSome, None, Some, Ok, option_map, map, position, not, if◌then◌else◌};
ghost use Rattle.std.specs.List.{list_any};
ghost use Rattle.pz_base.specs.Fault.{first_fault, unless, and_then};
ghost use Rattle.pz_base.specs.NameSet.{is_name_of};
ghost use Rattle.pz_base.specs.declared.fault.Code.TheVariants as code;
ghost use Rattle.pz_names.specs.Objects.{is_blank};
ghost use Rattle.pz_names.specs.Legend.{sides, joint_names, said_by, defined_by, definition_of, definitions_of, line_number, line_at, misnames, misnames_by, speaks_of_unknown, names_in};

use crate::objects::{MOST_NAMES, is_blank};
use pz_base::fault::{Code, SourceFault};
use pz_base::listed::Listed;
use pz_base::name::Name;
use pz_base::name_set::NameSet;
use pz_text::line::Line;
use pz_text::words::names_of;
use std::alloc::{AllocError, Global};

/// The right side of a line of LEGEND: a name alone, names joined by `and`, or names joined by `or`.
pub enum Said {
    Same(Name),
    AllOf(Listed<Name>),
    AnyOf(Listed<Name>),
}

impl Drop for Said {
    fn drop(self) {
        match self {
            Said::Same(name) => drop(name),
            Said::AllOf(parts) => drop(parts),
            Said::AnyOf(parts) => drop(parts),
        }
    }
}

/// A line of LEGEND: its number, the name that it defines, and its right side.
pub struct Definition {
    pub number: u32,
    pub name: Name,
    pub said: Said,
}

impl Drop for Definition {
    fn drop(self) {
        let Definition {
            number: _,
            name,
            said,
        } = self;
        drop(name);
        drop(said);
    }
}

fn equals_sign(characters: &[char]) -> Option<usize>
    ensures { result ≡ position (λ c. c == 61) characters.now }
{
    characters.iter().position(|c| *c == '=')
}

/// The two sides of a line, cut at its first `=` that isn't its first character.
pub fn sides<'a>(text: &'a [char]) -> Option<(&'a [char], &'a [char])>
    ensures { option_map (λ both. (both.0.now, both.1.now)) result ≡ sides text.entry.now }
{
    let Some((_, others)) = text.split_first() else {
        return None;
    };
    match equals_sign(others) {
        Some(at) if at < others.len() => Some((&text[..at + 1], &others[at + 1..])),
        _ => None,
    }
}

/// The first, third, fifth name and so on, if there is one and the joint stands between each two of them. Rule `legend.joints`.
fn joined(alloc: Global, names: &[Name], joint: &str) -> Result<Option<Listed<Name>>, AllocError>
    ensures { IfOk result (λ parts. parts ≡ joint_names joint.now [] names.now) }
{
    let mut parts = Vec::new(alloc);
    let mut rest = names;
    while let Some((name, others)) = rest.split_first() {
        parts.push(name.copy(alloc)?)?;
        let Some((other, more)) = others.split_first() else {
            return Ok(Some(Listed::new(parts)));
        };
        if !other.is(joint) {
            return Ok(None);
        }
        rest = more;
    }
    Ok(None)
}

/// What the right side of a definition says. None: it has no form of one. Rule `legend.kinds`.
fn said_by(alloc: Global, right: &[Name]) -> Result<Option<Said>, AllocError>
    ensures { IfOk result (λ said. said ≡ said_by right.now) }
{
    let Some((first, others)) = right.split_first() else {
        return Ok(None);
    };
    let Some((joint, _)) = others.split_first() else {
        return Ok(Some(Said::Same(first.copy(alloc)?)));
    };
    if joint.is("and") {
        Ok(joined(alloc, right, "and")?.map(Said::AllOf))
    } else {
        Ok(joined(alloc, right, "or")?.map(Said::AnyOf))
    }
}

/// The definition that the names on the two sides of a line make, if they have the form of one.
fn defined_by(
    alloc: Global,
    number: u32,
    left: &[Name],
    right: &[Name],
) -> Result<Option<Definition>, AllocError>
    ensures { IfOk result (λ definition. definition ≡ defined_by number left.now right.now) }
{
    let [name] = left else {
        return Ok(None);
    };
    let Some(said) = said_by(alloc, right)? else {
        return Ok(None);
    };
    let name = name.copy(alloc)?;
    Ok(Some(Definition { number, name, said }))
}

/// The definition on a line, if the line has the form of one.
pub fn read_definition(alloc: Global, line: &Line) -> Result<Option<Definition>, AllocError>
    ensures { IfOk result (λ definition. definition ≡ definition_of line.now) }
{
    let Some((left, right)) = sides(line.text.items()) else {
        return Ok(None);
    };
    let left = names_of(alloc, left)?;
    let right = names_of(alloc, right)?;
    defined_by(alloc, line.number, left.items(), right.items())
}

/// Adds the name of a definition, or gives its fault: `Duplicate` or `TooLarge`.
fn note_name(
    alloc: Global,
    names: &mut NameSet,
    definition: &Definition,
) -> Result<Option<Code>, AllocError>
    ensures found { IfOk result (λ fault. fault ≡ misnames_by names.old (Some definition.now)) }
    ensures noted { IfOk result (λ fault. fault ≡ None → names.new ≡ names.old ++ definition.now.name ∷ []) }
{
    let name = definition.name.as_str();
    if names.contains(name) {
        return Ok(Some(Code::Duplicate));
    }
    if names.len() >= MOST_NAMES {
        return Ok(Some(Code::TooLarge));
    }
    names.add(alloc, name)?;
    Ok(None)
}

/// Reads a line that may be blank, and adds its definition and its name; or gives the line's fault. Rule `checks.legend`.
fn define(
    alloc: Global,
    names: &mut NameSet,
    definitions: &mut Vec<Definition>,
    line: &Line,
) -> Result<Option<Code>, AllocError>
    ensures found { IfOk result
        (λ fault. fault ≡ (if is_blank line.now then None else misnames_by names.old (definition_of line.now))) }
    ensures definitions { IfOk result
        (λ fault. fault ≡ None → definitions.new.items ≡ definitions.old.items ++ definitions_of (line.now ∷ [])) }
    ensures noted { IfOk result
        (λ fault. fault ≡ None → names.new ≡ names.old ++ map (λ d. d.name) (definitions_of (line.now ∷ []))) }
{
    if is_blank(line) {
        return Ok(None);
    }
    let Some(definition) = read_definition(alloc, line)? else {
        return Ok(Some(Code::BadLegend));
    };
    if let Some(code) = note_name(alloc, names, &definition)? {
        return Ok(Some(code));
    }
    definitions.push(definition)?;
    Ok(None)
}

/// Reads the definitions of LEGEND, and adds their names. Or the fault of the first line that is no definition (`BadLegend`), defines a
/// name that is there already (`Duplicate`), or one name too many (`TooLarge`). Err: memory was refused. Rule `legend.lines`.
pub fn definitions(
    alloc: Global,
    names: &mut NameSet,
    lines: &[Line],
) -> Result<Result<Vec<Definition>, SourceFault>, AllocError>
    ensures read { IfOk result
        (λ read. and_then (λ found. Ok found.items) read ≡
        unless (first_fault line_number (misnames names.old) [] lines.now) (Ok (definitions_of lines.now))) }
    ensures noted { IfOk result
        (λ read. IfOk read (λ found. names.new ≡ names.old ++ map (λ d. d.name) found.items)) }
{
    let mut definitions = Vec::new(alloc);
    for line in lines {
        if let Some(code) = define(alloc, names, &mut definitions, line)? {
            return Ok(Err(SourceFault {
                code,
                line: line.number,
            }));
        }
    }
    Ok(Ok(definitions))
}

impl Said {
    /// The names on the right of the line.
    fn parts(&self) -> &[Name]
        ensures { result.now ≡ names_in self.now }
    {
        match self {
            Said::Same(name) => std::slice::from_ref(name),
            Said::AllOf(parts) | Said::AnyOf(parts) => parts.items(),
        }
    }

    /// Whether a name on the right is unknown.
    fn speaks_beyond(&self, names: &NameSet) -> bool
        ensures { result ≡ list_any (λ part. not (is_name_of names.now part)) (names_in self.now) }
    {
        has_unknown(names, self.parts())
    }
}

/// Whether one of the names is unknown.
pub fn has_unknown(names: &NameSet, parts: &[Name]) -> bool
    ensures { result ≡ list_any (λ part. not (is_name_of names.now part)) parts.now }
{
    parts.iter().any(|part| !names.contains(part.as_str()))
}

/// `Unknown` at the first line with an unknown name on its right.
pub fn unknown_part(names: &NameSet, definitions: &[Definition]) -> Option<SourceFault>
    ensures first { result ≡ first_fault line_at (speaks_of_unknown names.now) [] definitions.now }
    ensures code { IfSome result (λ fault. fault.code ≡ code.Unknown) }
{
    for definition in definitions {
        if definition.said.speaks_beyond(names) {
            return Some(SourceFault {
                code: Code::Unknown,
                line: definition.number,
            });
        }
    }
    None
}
