//! A file of sessions.

ghost use Rattle.std.specs.Prelude.{◌≡◌, ◌≢◌, ◌≤◌, length, map, IfOk, IfErr, Ok, Err};
ghost use Rattle.std.specs.Result.{result_map_both};
ghost use Rattle.serde_json.specs.View.{view as data_of};
ghost use Rattle.pz_entries.specs.declared.fault.FileFault.TheVariants.{Memory};
ghost use Rattle.pz_entries.specs.File.{entries_from, entries_of};

use crate::entry::{Entry, read_entry};
use crate::fault::FileFault;
use pz_record::limits::MOST_ENTRIES;
use serde_json::Value;
use std::alloc::{AllocError, Global};

/// The most bytes that a file has. Rule `file.list`.
pub const MOST_BYTES: usize = 16_777_216;

/// Promises the limit as a number, so that changing the constant alone breaks a proof.
pub fn bytes_are_limited()
    ensures { MOST_BYTES ≡ 16_777_216 }
{}

/// The entries of the values, or the first fault. Rule `file.refusals`.
fn read_entries(alloc: Global, list: &[Value]) -> Result<Result<Vec<Entry>, FileFault>, AllocError>
    ensures read { IfOk result (λ entries.
        result_map_both (λ entries. entries.items) (λ fault. fault) entries ≡ entries_from 0 (map data_of list.now)) }
    ensures count { IfOk result (λ entries. IfOk entries (λ entries. length entries.items ≡ length list.now)) }
{
    let mut entries = Vec::new(alloc);
    for (number, value) in list.iter().enumerate() {
        let entry = or_fault!(read_entry(alloc, number as u64, value)?);
        entries.push(entry)?;
    }
    Ok(Ok(entries))
}

/// The entries of a file, or its first fault: the file is too long, is no JSON list, or has too many entries; then, entry by
/// entry, the entry is bad, or its level text is. `Memory` may come in place of any but the first. Rule `file.list`.
pub fn read_sessions(alloc: Global, text: &str) -> Result<Vec<Entry>, FileFault>
    ensures read { IfOk result (λ entries. entries_of text.now ≡ Ok entries.items) }
    ensures refused { IfErr result (λ fault. fault ≢ Memory → entries_of text.now ≡ Err fault) }
    ensures long { IfErr result (λ fault. fault ≡ Memory → length text.now ≤ MOST_BYTES) }
    ensures few { IfOk result (λ entries. length entries.items ≤ MOST_ENTRIES) }
{
    if text.len() > MOST_BYTES {
        return Err(FileFault::TooMany);
    }
    let value = match Value::from_str(alloc, text) {
        Ok(value) => value,
        Err(error) if error.is_memory() => return Err(FileFault::Memory),
        Err(_) => return Err(FileFault::NotJson),
    };
    let Some(list) = value.as_array() else {
        return Err(FileFault::NotJson);
    };
    if list.len() > MOST_ENTRIES {
        return Err(FileFault::TooMany);
    }
    read_entries(alloc, list)?
}
