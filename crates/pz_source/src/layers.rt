//! The lines of COLLISIONLAYERS.

ghost use Rattle.std.specs.Prelude.{◌≡◌, ◌==◌, ℕ, List, ◌<◌, ◌++◌, ◌∷◌, [], IfOk, OnOk, IfSome, length, Ok, Some, map, if◌then◌else◌};
ghost use Rattle.std.specs.List.{list_any, filter_map};
ghost use Rattle.pz_base.specs.Fault.{first_fault, unless, and_then};
ghost use Rattle.pz_base.specs.declared.fault.Code.TheVariants as code;
ghost use Rattle.pz_source.specs.Layers.{layer_words, layer_names, layer_lines, name_line_at, layer_fault, misplaces, members_of, holds, entry_at, layer_of, lies_nowhere, fault_of_layers, layers_of};

use crate::rules::push_word;
use pz_base::fault::{Code, SourceFault};
use pz_base::listed::Listed;
use pz_base::name::Name;
use pz_base::name_set::NameSet;
use pz_game::denotation::{Denotation, Kind};
use pz_game::limits::MOST_LAYERS;
use pz_names::kinds::has_kind;
use pz_names::legend::has_unknown;
use pz_names::meaning::number_or_end;
use pz_names::name_line::NameLine;
use pz_text::line::Line;
use std::alloc::{AllocError, Global};

/// The words of a line of COLLISIONLAYERS, separated by commas or white space.
fn layer_words<'a>(alloc: Global, line: &'a [char]) -> Result<Vec<&'a [char]>, AllocError>
    ensures { IfOk result (λ parts. map (λ part. part.now) parts.items ≡ layer_words line.entry.now) }
{
    line.split(|c| c.is_whitespace() || *c == ',')
        .filter(|part| !part.is_empty())
        .collect(alloc)
}

fn layer_names(alloc: Global, line: &[char]) -> Result<Vec<Name>, AllocError>
    ensures { IfOk result (λ r. r.items ≡ layer_names line.now) }
{
    let words = layer_words(alloc, line)?;
    let mut items = Vec::new(alloc);
    for word in &words {
        push_word(alloc, &mut items, word)?;
    }
    Ok(items)
}

/// Adds the layer of a line, if the line has a name.
fn add_layer(alloc: Global, layers: &mut Vec<NameLine>, line: &Line) -> Result<(), AllocError>
    ensures { OnOk result (layers.new.items ≡ layers.old.items ++ layer_lines (line.now ∷ [])) }
{
    let names = layer_names(alloc, line.text.items())?;
    if names.is_empty() {
        return Ok(());
    }
    layers.push(NameLine {
        number: line.number,
        names: Listed::new(names),
    })?;
    Ok(())
}

/// The layers: the lines of COLLISIONLAYERS with a name.
pub fn layer_lines(alloc: Global, lines: &[Line]) -> Result<Vec<NameLine>, AllocError>
    ensures { IfOk result (λ r. r.items ≡ layer_lines lines.now) }
{
    let mut layers = Vec::new(alloc);
    for line in lines {
        add_layer(alloc, &mut layers, line)?;
    }
    Ok(layers)
}

/// What is wrong with a layer, if anything: `Unknown`, `Mixed` (an aggregate) or `TooLarge`. `above` is the number of layers above it.
fn misplaced(names: &NameSet, values: &[Denotation], above: usize, layer: &[Name]) -> Option<Code>
    ensures { result ≡ layer_fault names.now values.now above layer.now }
{
    if has_unknown(names, layer) {
        Some(Code::Unknown)
    } else if has_kind(names, values, Kind::Aggregate, layer) {
        Some(Code::Mixed)
    } else if above >= MOST_LAYERS {
        Some(Code::TooLarge)
    } else {
        None
    }
}

/// The first fault of a layer: it names something unknown or an aggregate, or it is one too many.
pub fn misplacement(
    names: &NameSet,
    values: &[Denotation],
    layers: &[NameLine],
) -> Option<SourceFault>
    ensures { result ≡ first_fault name_line_at (misplaces names.now values.now) [] layers.now }
{
    for (place, layer) in layers.iter().enumerate() {
        if let Some(code) = misplaced(names, values, place, layer.names.items()) {
            return Some(SourceFault {
                code,
                line: layer.number,
            });
        }
    }
    None
}

/// The members of a name, by their numbers.
fn members_of<'a>(names: &NameSet, values: &'a [Denotation], name: &Name) -> &'a [usize]
    ensures { result.now ≡ members_of names.now values.entry.now name.now }
{
    match values.get(number_or_end(names, name)) {
        Some(denotation) => denotation.members.items(),
        None => &[],
    }
}

fn put_object(table: &mut [Option<usize>], object: usize, layer: usize)
    ensures { (k : ℕ) → k < length table.old →
        entry_at table.new k ≡ (if object == k then Some layer else entry_at table.old k) }
{
    if object < table.len() {
        table[object] = Some(layer);
    }
}

fn put_objects(table: &mut [Option<usize>], objects: &[usize], layer: usize)
    ensures { (k : ℕ) → k < length table.old →
        entry_at table.new k ≡ (if list_any
        (λ object. object == k) objects.now then Some layer else entry_at table.old k) }
{
    for object in objects {
        put_object(table, *object, layer);
    }
}

/// Puts the objects of a layer's names on this layer, even if they were on another.
fn put_layer(
    table: &mut [Option<usize>],
    names: &NameSet,
    values: &[Denotation],
    parts: &[Name],
    layer: usize,
)
    ensures { (k : ℕ) → k < length table.old →
        entry_at table.new k ≡ (if list_any
        (λ name. list_any (λ object. object == k)
        (members_of names.now values.now name)) parts.now then Some layer else entry_at table.old k) }
{
    for name in parts {
        put_objects(table, members_of(names, values, name), layer);
    }
}

/// The layer of each object: the last one that names it.
fn layer_table(
    alloc: Global,
    count: usize,
    names: &NameSet,
    values: &[Denotation],
    layers: &[NameLine],
) -> Result<Vec<Option<usize>>, AllocError>
    ensures count { IfOk result (λ table. length table.items ≡ count) }
    ensures each { IfOk result
        (λ table. (k : ℕ) → k < count → entry_at table.items k ≡ layer_of (holds names.now values.now) layers.now k) }
{
    let mut table = vec![in alloc; None; count]?;
    let entries = table.as_mut_slice();
    for (number, layer) in layers.iter().enumerate() {
        put_layer(entries, names, values, layer.names.items(), number);
    }
    Ok(table)
}

fn entry_at(table: &[Option<usize>], object: usize) -> Option<usize>
    ensures { result ≡ entry_at table.now object }
{
    table.get(object).copied().unwrap_or(None)
}

/// `NoLayer` at the first name line whose object is in no layer. Rule `checks.layers`.
fn missing_layer(table: &[Option<usize>], objects: &[NameLine]) -> Option<SourceFault>
    ensures first { result ≡ first_fault name_line_at (lies_nowhere (entry_at table.now)) [] objects.now }
    ensures code { IfSome result (λ fault. fault.code ≡ code.NoLayer) }
{
    for (place, line) in objects.iter().enumerate() {
        if entry_at(table, place).is_none() {
            return Some(SourceFault {
                code: Code::NoLayer,
                line: line.number,
            });
        }
    }
    None
}

fn known_layers(alloc: Global, table: Vec<Option<usize>>) -> Result<Vec<usize>, AllocError>
    ensures { IfOk result (λ layers. layers.items ≡ filter_map (λ entry. entry) table.items) }
{
    table.into_iter().filter_map(|entry| entry).collect(alloc)
}

/// The layer of each object, and the number of layers; or the first fault of COLLISIONLAYERS. Line by line it is `Unknown`, `Mixed` (an
/// aggregate) or `TooLarge`; then it is `NoLayer` at the name line of an object. Err: memory was refused. Rule `layers.lines`.
pub fn read_layers(
    alloc: Global,
    objects: &[NameLine],
    names: &NameSet,
    values: &[Denotation],
    lines: &[Line],
) -> Result<Result<(Vec<usize>, usize), SourceFault>, AllocError>
    ensures { IfOk result
        (λ read. and_then {B = List ℕ × ℕ} (λ placed. Ok (placed.0.items, placed.1)) read ≡
        unless (fault_of_layers objects.now names.now values.now lines.now)
        (Ok (layers_of objects.now names.now values.now lines.now, length (layer_lines lines.now)))) }
{
    let layers = layer_lines(alloc, lines)?;
    let layers = layers.as_slice();
    if let Some(fault) = misplacement(names, values, layers) {
        return Ok(Err(fault));
    }
    let table = layer_table(alloc, objects.len(), names, values, layers)?;
    if let Some(fault) = missing_layer(table.as_slice(), objects) {
        return Ok(Err(fault));
    }
    let placed = known_layers(alloc, table)?;
    Ok(Ok((placed, layers.len())))
}
