//! The sessions of a file: what it holds, and whether what they showed passed.

ghost use Rattle.std.specs.Prelude.{◌≡◌, ◌≢◌, ◌≤◌, Ok, Err, IfOk, IfErr, length};
ghost use Rattle.pz_entries.specs.declared.fault.FileFault.TheVariants as fault;
ghost use Rattle.pz_engine.specs.Sessions.{all_passed, has_passed, is_pass, sessions_in};

use pz_case::item::{Item, Verdict};
use pz_case::recording::{Record, Recording};
use pz_entries::entry::Entry;
use pz_entries::fault::FileFault;
use pz_entries::file::{MOST_BYTES, read_sessions};
use pz_record::limits::MOST_ENTRIES;
use std::alloc::Global;

/// The entries that the bytes of a file hold, or its first fault.
pub fn decode(alloc: Global, bytes: &[u8]) -> Result<Vec<Entry>, FileFault>
    ensures read { IfOk result (λ entries. sessions_in bytes.now ≡ Ok entries.items) }
    ensures few { IfOk result (λ entries. length entries.items ≤ MOST_ENTRIES) }
    ensures refused { IfErr result (λ cause. cause ≢ fault.Memory → sessions_in bytes.now ≡ Err cause) }
{
    if bytes.len() > MOST_BYTES {
        return Err(FileFault::TooMany);
    }
    let Ok(text) = str::from_utf8(bytes) else {
        return Err(FileFault::NotJson);
    };
    read_sessions(alloc, text)
}

/// Whether an item says that its session passed.
pub(crate) fn is_pass(item: &Item) -> bool
    ensures { result ≡ is_pass item.now }
{
    matches!(item, Item::Close(Verdict::Passed))
}

/// Whether a session passed.
pub fn has_passed(shown: &Record) -> bool
    ensures { result ≡ has_passed shown.now }
{
    shown.items.items().iter().any(|item| is_pass(item))
}

/// Whether every session passed.
pub fn all_passed(shown: &Recording) -> bool
    ensures { result ≡ all_passed shown.now }
{
    shown.records().iter().all(|shown| has_passed(shown))
}
