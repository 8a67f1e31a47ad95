//! The names of a text, which spaces separate.

ghost use Rattle.std.specs.Prelude.{◌≡◌, map, IfOk, OnOk};
ghost use Rattle.pz_base.specs.Name.{lower_case};
ghost use Rattle.pz_record.specs.CellNames.{with_name};
ghost use Rattle.pz_entries.specs.Names.{with_word, name_set};

use crate::cutting::cut_first;
use pz_record::cell_names::CellNames;
use std::alloc::{AllocError, Global};
use std::collections::BTreeSet;

/// The name with its ASCII letters in lower case.
fn folded_name(alloc: Global, name: &[u8]) -> Result<Vec<u8>, AllocError>
    ensures { IfOk result (λ lower. lower.items ≡ lower_case name.now) }
{
    name.iter()
        .map(|byte| byte.to_ascii_lowercase())
        .collect(alloc)
}

fn insert(names: &mut BTreeSet<Vec<u8>>, name: Vec<u8>) -> Result<(), AllocError>
    ensures { OnOk result (map (λ held. held.items) names.new.keys ≡
        with_name (map (λ held. held.items) names.old.keys) name.items) }
{
    names.insert(name)?;
    Ok(())
}

#[tactic(auto, unfolding(crate::specs::Names::with_word))]
fn add_word(alloc: Global, names: &mut BTreeSet<Vec<u8>>, word: &[u8]) -> Result<(), AllocError>
    ensures { OnOk result (map (λ held. held.items) names.new.keys ≡
        with_word (map (λ held. held.items) names.old.keys) word.now) }
{
    if word.is_empty() {
        return Ok(());
    }
    let name = folded_name(alloc, word)?;
    insert(names, name)
}

/// The names of a text, which spaces separate.
pub(crate) fn read_names(alloc: Global, text: &[u8]) -> Result<CellNames, AllocError>
    ensures { IfOk result (λ names. names ≡ name_set text.now) }
{
    let mut names = BTreeSet::new(alloc);
    let mut rest = text;
    'words: while let Some((word, later)) = cut_first(rest, b' ') {
        add_word(alloc, &mut names, word)?;
        rest = later;
    }
    add_word(alloc, &mut names, rest)?;
    CellNames::of_set(alloc, names)
}
