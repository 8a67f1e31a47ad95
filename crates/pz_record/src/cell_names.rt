//! The names of a cell's objects.

ghost use Rattle.std.specs.Prelude.{◌≡◌, map, IfOk};
ghost use Rattle.std.specs.List.{list_any};
ghost use Rattle.std.specs.Str.{bytes_eq};
ghost use Rattle.pz_record.specs.CellNames.{has_name};

use std::alloc::{AllocError, Global};
use std::collections::BTreeSet;
use std::marker::Model;

/// The names of a cell, each once. Contracts see them as a list in the order of their bytes. They are kept as a list because a cell has few
/// names, and a set of one name takes the room of eleven.
#[derive(Drop)]
pub struct CellNames {
    names: Vec<Vec<u8>>,
}

impl Model for CellNames {
    ghost use Rattle.std.specs.Prelude.{List, ℕ, map};

    ghost Value = { List (List ℕ) };

    ghost view = { λ c. map (λ name. name.items) c.names.items };
}

/// Whether a name is among these.
fn has(names: &[Vec<u8>], name: &[u8]) -> bool
    ensures { result ≡ list_any (λ held. bytes_eq name.now held.items) names.now }
{
    names.iter().any(|held| name == held.as_slice())
}

impl CellNames {
    /// The names of a set, in no more room than they need. Err: memory was refused.
    pub fn of_set(alloc: Global, set: BTreeSet<Vec<u8>>) -> Result<CellNames, AllocError>
        ensures { IfOk result (λ names. names ≡ map (λ name. name.items) set.keys) }
    {
        let mut names: Vec<Vec<u8>> = set.into_iter().collect(alloc)?;
        names.shrink_to_fit();
        Ok(CellNames { names })
    }

    /// The names themselves, in the order of their bytes.
    pub fn names(&self) -> &[Vec<u8>]
        ensures { map (λ name. name.items) result.now ≡ self.now }
    {
        &self.names
    }

    /// Whether a name is among them.
    pub fn contains(&self, name: &[u8]) -> bool
        ensures { result ≡ has_name self.now name.now }
    {
        has(&self.names, name)
    }
}
