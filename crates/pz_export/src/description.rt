//! What the engine has read, for a host: of a source, of a file of sessions, and of a level text.

ghost use Rattle.std.specs.Prelude.{◌≡◌, ◌≢◌, Err, IfErr, IfOk, length};
ghost use Rattle.std.specs.Str.{IsUtf8};
ghost use Rattle.pz_describe.specs.Description.{description_of, outline_of};
ghost use Rattle.pz_describe.specs.Recordings.{level_description_of};
ghost use Rattle.pz_engine.specs.Sessions.{sessions_in};
ghost use Rattle.pz_entries.specs.declared.fault.FileFault.TheVariants as fault;
ghost use Rattle.pz_export.specs.Description.{IsDescribed, IsDescribedFile, IsDescription, IsFileDescription, IsUndescribed};
ghost use Rattle.pz_export.specs.Lines.{IsRefused};

use crate::lines::tell;
use crate::outcome::{Outcome, REFUSED};
use pz_describe::{describe, describe_level, describe_recordings, outline};
use pz_engine::engine::Played;
use pz_engine::sessions::decode;
use pz_entries::fault::FileFault;
use std::alloc::Global;
use std::str::from_utf8;

/// A description as an answer.
fn answer(lines: Vec<u8>) -> Played
    ensures { IsDescription lines.items result }
{
    Played {
        lines,
        passed: true,
    }
}

/// The description of a source; `NotJson` of bytes that are no text.
fn described(alloc: Global, source: &[u8]) -> Result<Played, FileFault>
    ensures described { IfOk result (IsDescription (description_of source.now)) }
    ensures refused { IfErr result (λ cause. cause ≢ fault.Memory → (cause ≡ fault.NotJson) × ¬ (IsUtf8 source.now)) }
{
    let Ok(text) = from_utf8(source) else {
        return Err(FileFault::NotJson);
    };
    Ok(answer(describe(alloc, text)?))
}

/// The outline of a source; `NotJson` of bytes that are no text.
fn outlined(alloc: Global, source: &[u8]) -> Result<Played, FileFault>
    ensures described { IfOk result (IsDescription (outline_of source.now)) }
    ensures refused { IfErr result (λ cause. cause ≢ fault.Memory → (cause ≡ fault.NotJson) × ¬ (IsUtf8 source.now)) }
{
    let Ok(text) = from_utf8(source) else {
        return Err(FileFault::NotJson);
    };
    Ok(answer(outline(alloc, text)?))
}

/// The description of a level text; `NotJson` of bytes that are no text.
fn described_level(alloc: Global, level: &[u8]) -> Result<Played, FileFault>
    ensures described { IfOk result (IsDescription (level_description_of level.now)) }
    ensures refused { IfErr result (λ cause. cause ≢ fault.Memory → (cause ≡ fault.NotJson) × ¬ (IsUtf8 level.now)) }
{
    let Ok(text) = from_utf8(level) else {
        return Err(FileFault::NotJson);
    };
    Ok(answer(describe_level(alloc, text)?))
}

/// The description of the sessions of a file, or the file's first fault.
fn described_file(alloc: Global, file: &[u8]) -> Result<Played, FileFault>
    ensures described { IfOk result (IsFileDescription file.now) }
    ensures refused { IfErr result (λ cause. cause ≢ fault.Memory → sessions_in file.now ≡ Err cause) }
{
    let entries = decode(alloc, file)?;
    Ok(answer(describe_recordings(alloc, &entries)?))
}

/// What the engine has read of a source, as JSON text: its first fault or null, each section, and the program of its rules or null. The answer
/// is the number of bytes of the text. If the room has so many, it begins with them. A source that is refused is described too; not described
/// are bytes that aren't UTF-8.
#[unsafe(no_mangle)]
pub extern "C" fn saxtegun_description(
    alloc: Global,
    source: &[u8],
    room: &mut [u8],
    outcome: &mut Outcome,
) -> usize
    ensures size { length room.new ≡ length room.old }
    ensures answered { outcome.new.status ≢ REFUSED →
        IsDescribed (description_of source.now) room.old room.new outcome.new result }
    ensures refused { outcome.new.status ≡ REFUSED → IsUndescribed source.now room.old room.new outcome.new result }
{
    tell(described(alloc, source), room, outcome)
}

/// The outline of a source: its description without the program of its rules, and without a fault that is found as rules are expanded. The answer is
/// the number of bytes of the text. If the room has so many, it begins with them. Not told are bytes that aren't UTF-8.
#[unsafe(no_mangle)]
pub extern "C" fn saxtegun_outline(
    alloc: Global,
    source: &[u8],
    room: &mut [u8],
    outcome: &mut Outcome,
) -> usize
    ensures size { length room.new ≡ length room.old }
    ensures answered { outcome.new.status ≢ REFUSED →
        IsDescribed (outline_of source.now) room.old room.new outcome.new result }
    ensures refused { outcome.new.status ≡ REFUSED → IsUndescribed source.now room.old room.new outcome.new result }
{
    tell(outlined(alloc, source), room, outcome)
}

/// What the engine has read of a level text, as JSON text: the number of each cell's set of names, and the sets; null of what is no level text. The
/// answer is the number of bytes of the text. If the room has so many, it begins with them. Not described are bytes that aren't UTF-8.
#[unsafe(no_mangle)]
pub extern "C" fn saxtegun_level_description(
    alloc: Global,
    level: &[u8],
    room: &mut [u8],
    outcome: &mut Outcome,
) -> usize
    ensures size { length room.new ≡ length room.old }
    ensures answered { outcome.new.status ≢ REFUSED →
        IsDescribed (level_description_of level.now) room.old room.new outcome.new result }
    ensures refused { outcome.new.status ≡ REFUSED → IsUndescribed level.now room.old room.new outcome.new result }
{
    tell(described_level(alloc, level), room, outcome)
}

/// What the engine has read of a file of sessions, as JSON text: each session's name, start, inputs, source and last level, and each source once. The
/// answer is the number of bytes of the text. If the room has so many, it begins with them.
#[unsafe(no_mangle)]
pub extern "C" fn saxtegun_file_description(
    alloc: Global,
    file: &[u8],
    room: &mut [u8],
    outcome: &mut Outcome,
) -> usize
    ensures size { length room.new ≡ length room.old }
    ensures answered { outcome.new.status ≢ REFUSED → IsDescribedFile file.now room.old room.new outcome.new result }
    ensures refused { outcome.new.status ≡ REFUSED → IsRefused file.now room.old room.new outcome.new result }
{
    tell(described_file(alloc, file), room, outcome)
}
