//! The sessions of a file.

ghost use Rattle.std.specs.Prelude.{◌≡◌, ◌++◌, IfOk, OnOk, flat_map, fold, map};
ghost use Rattle.pz_describe.specs.Recordings.{file_members, file_tokens, input_tokens, played_members, press_number, recorded_members, recordings_description_of, session_tokens, sessions_array};
ghost use Rattle.pz_json_text.specs.CellTexts.{with_cell};

use crate::cells::put_level;
use crate::distinct::Distinct;
use crate::page::Page;
use pz_entries::entry::Entry;
use pz_game::direction::Dir;
use pz_record::input::Input;
use std::alloc::{AllocError, Global};

/// The number that a file has for a press.
fn press_number(direction: Dir) -> u64
    ensures { result ≡ press_number direction }
{
    match direction {
        Dir::Up => 0,
        Dir::Left => 1,
        Dir::Down => 2,
        Dir::Right => 3,
        Dir::Action => 4,
    }
}

fn put_input(page: &mut Page, input: Input) -> Result<(), AllocError>
    ensures { OnOk result (page.new ≡ page.old ++ input_tokens input) }
{
    match input {
        Input::Press(direction) => page.number(press_number(direction)),
        Input::Undo => page.string("undo"),
        Input::Restart => page.string("restart"),
        Input::Tick => page.string("tick"),
    }
}

fn put_inputs(page: &mut Page, inputs: &[Input]) -> Result<(), AllocError>
    ensures { OnOk result (page.new ≡ page.old ++ flat_map input_tokens inputs.now) }
{
    for input in inputs {
        put_input(page, *input)?;
    }
    Ok(())
}

/// Puts what is played of a session.
fn put_played(page: &mut Page, entry: &Entry) -> Result<(), AllocError>
    ensures { OnOk result (page.new ≡ page.old ++ played_members entry.now) }
{
    page.key("index")?;
    page.number(entry.index)?;
    page.key("inputs")?;
    page.begin_array()?;
    put_inputs(page, entry.inputs.items())?;
    page.end_array()
}

/// Puts where a session ended, its name, and its source, which stands among these.
fn put_recorded(
    alloc: Global,
    page: &mut Page,
    sources: &Distinct,
    entry: &Entry,
) -> Result<(), AllocError>
    ensures { OnOk result (page.new ≡ page.old ++ recorded_members sources.now entry.now) }
{
    page.key("level")?;
    put_level(alloc, page, &entry.recorded)?;
    page.key("name")?;
    page.string(entry.name.as_str())?;
    page.key("source")?;
    page.number(sources.place_of(entry.source.as_str()) as u64)
}

/// Puts a session, whose source stands among these.
#[tactic(auto, unfolding(crate::specs::Recordings::session_tokens))]
fn put_session(
    alloc: Global,
    page: &mut Page,
    sources: &Distinct,
    entry: &Entry,
) -> Result<(), AllocError>
    ensures { OnOk result (page.new ≡ page.old ++ session_tokens sources.now entry.now) }
{
    page.begin_object()?;
    put_played(page, entry)?;
    put_recorded(alloc, page, sources, entry)?;
    page.end_object()
}

/// Puts sessions, whose sources stand among these.
#[tactic(auto, unfolding(crate::specs::Recordings::sessions_array))]
fn put_sessions(
    alloc: Global,
    page: &mut Page,
    sources: &Distinct,
    entries: &[Entry],
) -> Result<(), AllocError>
    ensures { OnOk result (page.new ≡ page.old ++ sessions_array sources.now entries.now) }
{
    page.begin_array()?;
    for entry in entries {
        put_session(alloc, page, sources, entry)?;
    }
    page.end_array()
}

/// Adds the source of each entry, if it is new.
fn add_sources(alloc: Global, sources: &mut Distinct, entries: &[Entry]) -> Result<(), AllocError>
    ensures { OnOk result (sources.new ≡ fold with_cell sources.old (map (λ entry. entry.source) entries.now)) }
{
    for entry in entries {
        sources.add(alloc, entry.source.as_str())?;
    }
    Ok(())
}

/// Puts the sessions of a file, and their sources.
fn put_members(
    alloc: Global,
    page: &mut Page,
    sources: &Distinct,
    entries: &[Entry],
) -> Result<(), AllocError>
    ensures { OnOk result (page.new ≡ page.old ++ file_members sources.now entries.now) }
{
    page.key("sessions")?;
    put_sessions(alloc, page, sources, entries)?;
    page.key("sources")?;
    sources.put(page)
}

/// Puts what is told of a file, whose sources are these.
fn put_file(
    alloc: Global,
    page: &mut Page,
    sources: &Distinct,
    entries: &[Entry],
) -> Result<(), AllocError>
    ensures { OnOk result (page.new ≡ page.old ++ file_tokens sources.now entries.now) }
{
    page.begin_object()?;
    put_members(alloc, page, sources, entries)?;
    page.end_object()
}

/// What the engine has read of the sessions of a file, as JSON without spaces: for each the index at which it starts, its inputs, the cells of its
/// last level, its name and the place of its source; and the sources, each once. Err: memory was refused.
pub fn describe_recordings(alloc: Global, entries: &[Entry]) -> Result<Vec<u8>, AllocError>
    ensures { IfOk result (λ told. told.items ≡ recordings_description_of entries.now) }
{
    let mut sources = Distinct::new(alloc);
    add_sources(alloc, &mut sources, entries)?;
    let mut page = Page::new(alloc);
    put_file(alloc, &mut page, &sources, entries)?;
    Ok(page.into_text())
}
