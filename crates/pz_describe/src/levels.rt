//! The entries of LEVELS.

ghost use Rattle.std.specs.Prelude.{◌++◌, ◌∷◌, ◌≡◌, OnOk, codes, drop, flat_map, map};
ghost use Rattle.pz_text.specs.Characters.{trimmed_text};
ghost use Rattle.json.specs.Token.{key};
ghost use Rattle.pz_describe.specs.Sections.{entry_tokens, levels_array};

use crate::objects::put_rows;
use crate::page::Page;
use pz_source::levels::{entries, is_message};
use pz_text::characters::trimmed;
use pz_text::line::Line;
use std::alloc::{AllocError, Global};

/// What stands behind the word of a message.
fn message_text(line: &[char]) -> &[char]
    ensures { result.now ≡ trimmed_text (drop 7 line.now) }
{
    trimmed(&line[line.len().min(7)..])
}

/// Puts an entry, whose lines these are.
fn put_entry(alloc: Global, page: &mut Page, lines: &[Line]) -> Result<(), AllocError>
    ensures { OnOk result (page.new ≡ page.old ++ entry_tokens lines.now) }
{
    let Some((first, _)) = lines.split_first() else {
        return Ok(());
    };
    page.begin_object()?;
    page.line(first.number)?;
    if is_message(first) {
        page.key("message")?;
        page.text(alloc, message_text(first.text.items()))?;
    } else {
        page.key("rows")?;
        put_rows(alloc, page, lines)?;
    }
    page.end_object()
}

fn put_entries(alloc: Global, page: &mut Page, entries: &[&[Line]]) -> Result<(), AllocError>
    ensures { OnOk result (page.new ≡ page.old ++ flat_map entry_tokens (map (λ entry. entry.now) entries.now)) }
{
    for entry in entries {
        put_entry(alloc, page, entry)?;
    }
    Ok(())
}

/// Puts the entries.
pub(crate) fn put_levels(alloc: Global, page: &mut Page, lines: &[Line]) -> Result<(), AllocError>
    ensures { OnOk result (page.new ≡ page.old ++ key (codes "levels") ∷ levels_array lines.now) }
{
    let entries = entries(alloc, lines)?;
    page.key("levels")?;
    page.begin_array()?;
    put_entries(alloc, page, &entries)?;
    page.end_array()
}
