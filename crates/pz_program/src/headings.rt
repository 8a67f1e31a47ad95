//! Sets of headings.

ghost use Rattle.std.specs.Prelude.{◌≡◌, ℕ, ◌<◌, ◌||◌, false, nat_eq};
ghost use Rattle.pz_sets.specs.Sets.{member};
ghost use Rattle.pz_sets.specs.declared.set.TheConstants.{CAPACITY};

use pz_sets::set::NumberSet;
use std::marker::Model;

/// Headings: directions of layers, as a set. A segment of a group asks for some, and a level has those in which something heads.
#[derive(Clone, Copy)]
pub struct Headings {
    set: NumberSet,
}

impl Model for Headings {
    ghost use Rattle.std.specs.Prelude.{List, ℕ};

    ghost Value = { List ℕ };

    ghost view = { λ h. h.set };

    ghost inverse = { λ set. record { set = set } };
}

impl Headings {
    /// No heading at all.
    pub(crate) fn none() -> Headings
        ensures { (number : ℕ) → member result number ≡ false }
    {
        Headings {
            set: NumberSet::empty(),
        }
    }

    /// Adds the heading of a number.
    pub(crate) fn insert(&mut self, number: usize)
        requires { number < CAPACITY }
        ensures { (other : ℕ) → member self.new other ≡ (nat_eq other number || member self.old other) }
    {
        self.set.insert(number);
    }

    /// The set in words, as levels keep theirs.
    pub fn words(&self) -> &[u128]
        ensures { result.now ≡ self.now }
    {
        self.set.words()
    }
}
