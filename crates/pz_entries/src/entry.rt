//! An entry of a file of sessions.
#![tactic(auto, unfolding(crate::specs::Entry::written_of, crate::specs::Entry::entry_of))]

ghost use Rattle.std.specs.Prelude.{◌≡◌, IfOk, option_map, option_and_then};
ghost use Rattle.serde_json.specs.Find.{at, as_str};
ghost use Rattle.serde_json.specs.View.{view as data_of};
ghost use Rattle.pz_entries.specs.Entry.{index_of, written_of, entry_of};

use crate::fault::FileFault;
use crate::input::read_inputs;
use crate::reading::read_level_text;
use pz_base::text::Text;
use pz_record::input::Inputs;
use pz_record::recorded::Recorded;
use serde_json::Value;
use std::alloc::{AllocError, Global};

/// A recorded session: its name, the text of its source, its inputs, the level at its end, and the index of the entry of LEVELS
/// at which it starts, messages counted.
#[derive(Drop)]
pub struct Entry {
    pub name: Text,
    pub source: Text,
    pub inputs: Inputs,
    pub recorded: Recorded,
    pub index: u64,
}

/// A recorded session whose level is still a text.
#[derive(Drop)]
pub(crate) struct Written {
    name: Text,
    source: Text,
    inputs: Inputs,
    level: Text,
    index: u64,
}

/// An element of a list, if it is a text.
fn text_at(alloc: Global, value: &Value, index: usize) -> Result<Option<Text>, AllocError>
    ensures { IfOk result (λ text. text ≡ option_and_then as_str (at index (data_of value.now))) }
{
    match value.get(index).and_then(Value::as_str) {
        Some(text) => Ok(Some(Text::of_str(alloc, text)?)),
        None => Ok(None),
    }
}

/// The index of the entry of LEVELS. If it is absent or null, it is 0. Rules `file.index`, `file.numbers`.
fn read_index(value: Option<&Value>) -> Option<u64>
    ensures { result ≡ index_of (option_map (λ v. data_of v.now) value.entry) }
{
    match value {
        None | Some(Value::Null) => Some(0),
        Some(value) => value.as_u64(),
    }
}

/// What an entry says, its level as text; None: it is no entry. Rule `file.entries`.
fn read_written(alloc: Global, value: &Value) -> Result<Option<Written>, AllocError>
    ensures { IfOk result (λ written. written ≡ written_of (data_of value.now)) }
{
    let Some(name) = text_at(alloc, value, 0)? else {
        return Ok(None);
    };
    let Some(body) = value.get(1usize) else {
        return Ok(None);
    };
    let Some(source) = text_at(alloc, body, 0)? else {
        return Ok(None);
    };
    let Some(listed) = body.get(1usize) else {
        return Ok(None);
    };
    let Some(inputs) = read_inputs(alloc, listed)? else {
        return Ok(None);
    };
    let Some(level) = text_at(alloc, body, 2)? else {
        return Ok(None);
    };
    let Some(index) = read_index(body.get(3usize)) else {
        return Ok(None);
    };
    Ok(Some(Written {
        name,
        source,
        inputs,
        level,
        index,
    }))
}

/// The entry of a number, or its fault. The text of its level is read last.
pub(crate) fn read_entry(
    alloc: Global,
    number: u64,
    value: &Value,
) -> Result<Result<Entry, FileFault>, AllocError>
    ensures { IfOk result (λ entry. entry ≡ entry_of number (data_of value.now)) }
{
    let Some(written) = read_written(alloc, value)? else {
        return Ok(Err(FileFault::BadEntry(number)));
    };
    let Written {
        name,
        source,
        inputs,
        level,
        index,
    } = written;
    let Some(recorded) = read_level_text(alloc, level.as_str())? else {
        return Ok(Err(FileFault::BadLevel(number)));
    };
    Ok(Ok(Entry {
        name,
        source,
        inputs,
        recorded,
        index,
    }))
}
