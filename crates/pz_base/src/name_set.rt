//! Sets of names, in the order of first mention.

ghost use Rattle.std.specs.Prelude.{◌≡◌, ◌↔◌, ◌<◌, ◌^◌, ◌++◌, ◌∷◌, [], length, IsTrue, OnOk, OnErr, false};
ghost use Rattle.pz_base.specs.NameSet.{is_name_of, number_in};

use indexmap::IndexSet;
use std::alloc::{AllocError, Global};
use std::marker::Model;

/// Names in the order of first mention, none twice.
#[derive(Drop)]
pub struct NameSet {
    texts: IndexSet<String>,
}

impl Model for NameSet {
    ghost use Rattle.std.specs.Prelude.{List, ℕ, map, string_bytes};

    ghost Value = { List (List ℕ) };

    ghost view = { λ n. map string_bytes n.texts.keys };
}

impl NameSet {
    /// No names.
    pub fn new(alloc: Global) -> NameSet
        ensures { result ≡ [] }
    {
        NameSet {
            texts: IndexSet::new(alloc),
        }
    }

    /// How many names it has.
    pub fn len(&self) -> usize
        ensures count { result ≡ length self.now }
        ensures small { result < 2 ^ 63 }
    {
        self.texts.len()
    }

    /// The number of a name: its place in the order of first mention.
    pub fn number_of(&self, name: &str) -> Option<usize>
        ensures { result ≡ number_in self.now name.now }
    {
        self.texts.get_index_of(name)
    }

    /// Whether it has a name.
    pub fn contains(&self, name: &str) -> bool
        ensures { result ≡ is_name_of self.now name.now }
    {
        self.texts.contains(name)
    }

    /// Whether another set has the same names in the same order.
    pub fn same(&self, other: &NameSet) -> bool
        ensures { IsTrue result ↔ (self.now ≡ other.now) }
    {
        let texts = self.texts.as_slice();
        let others = other.texts.as_slice();
        if texts.len() != others.len() {
            return false;
        }
        for number in 0..texts.len() {
            if texts[number].as_str() != others[number].as_str() {
                return false;
            }
        }
        true
    }

    /// Adds a new name after the others. Err: memory was refused, and the set is unchanged.
    pub fn add(&mut self, alloc: Global, name: &str) -> Result<(), AllocError>
        requires { is_name_of self.old name.now ≡ false }
        ensures added { OnOk result (self.new ≡ self.old ++ name.now ∷ []) }
        ensures kept { OnErr result (self.new ≡ self.old) }
    {
        let text = String::from_str(alloc, name)?;
        self.texts.insert(text)?;
        Ok(())
    }
}
