//! The text of a set of objects: their names.

ghost use Rattle.std.specs.Prelude.{◌≡◌, map, IfOk, OnOk, string_bytes};
ghost use Rattle.pz_sets.specs.Sets.{member};
ghost use Rattle.pz_record.specs.CellNames.{with_name, set_of};
ghost use Rattle.pz_level_text.specs.Labels.{set_text};
ghost use Rattle.pz_level_text.specs.LevelNames.{chosen_from};
ghost use Rattle.pz_json_text.specs.CellTexts.{text_of_names};

use pz_base::name::Name;
use pz_sets::set::NumberSet;
use std::alloc::{AllocError, Global};
use std::collections::BTreeSet;

fn insert<'a>(names: &mut BTreeSet<&'a str>, name: &'a str) -> Result<(), AllocError>
    ensures { OnOk result (map (λ n. n.now) names.new.keys ≡
        with_name (map (λ n. n.now) names.old.keys) name.entry.now) }
{
    names.insert(name)?;
    Ok(())
}

/// The names of the objects of a set, in the order of their bytes.
fn names_of<'a>(
    alloc: Global,
    names: &'a [Name],
    objects: &NumberSet,
) -> Result<BTreeSet<&'a str>, AllocError>
    ensures { IfOk result (λ chosen. map (λ name. name.now) chosen.keys ≡
        set_of (chosen_from (member objects.now) 0 names.now)) }
{
    let mut chosen = BTreeSet::new(alloc);
    for (object, name) in names.iter().enumerate() {
        if objects.contains(object) {
            insert(&mut chosen, name.as_str())?;
        }
    }
    Ok(chosen)
}

/// The names, separated by spaces.
fn join(alloc: Global, names: BTreeSet<&str>) -> Result<String, AllocError>
    ensures { IfOk result (λ text. string_bytes text ≡ text_of_names (map (λ n. n.now) names.entry.keys)) }
{
    let names: Vec<&str> = names.into_iter().collect(alloc)?;
    names.join(alloc, " ")
}

/// The names of the objects of a set, in the order of their bytes and separated by spaces. Err: memory was refused.
pub(crate) fn set_text(
    alloc: Global,
    names: &[Name],
    objects: &NumberSet,
) -> Result<String, AllocError>
    ensures { IfOk result (λ text. string_bytes text ≡ set_text names.now objects.now) }
{
    let chosen = names_of(alloc, names, objects)?;
    join(alloc, chosen)
}
