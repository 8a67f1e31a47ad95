//! Sets of numbers.

ghost use Rattle.std.specs.Prelude.{◌≡◌, ℕ, ◌<◌, ◌≤◌, ◌↔◌, true, false, ◌&&◌, ◌||◌, nat_eq, length};
ghost use Rattle.pz_sets.specs.Sets.{member};

use crate::word;
use crate::words::word_at;
use std::marker::Model;

/// The numbers of a set are below this one.
pub const CAPACITY: usize = 512;

/// A set of numbers: four words of 128 bits, the least numbers first. Contracts see it as the list of these words, and read it
/// only by `member`.
#[derive(Clone, Copy, PartialEq, Eq, Hash, Debug)]
pub struct NumberSet {
    words: [u128; 4],
}

impl Model for NumberSet {
    ghost use Rattle.std.specs.Prelude.{List, ℕ};

    ghost Value = { List ℕ };

    ghost view = { λ s. s.words };

    ghost inverse = { λ words. record { words = words } };
}

impl NumberSet {
    /// No number at all.
    pub fn empty() -> Self
        ensures { (number : ℕ) → member result number ≡ false }
    {
        NumberSet { words: [0; 4] }
    }

    /// The numbers of a set in words.
    pub fn from_words(words: &[u128]) -> NumberSet
        requires { length words.now ≤ 4 }
        ensures { (number : ℕ) → member result number ≡ member words.now number }
    {
        NumberSet {
            words: [
                word_at(words, 0),
                word_at(words, 1),
                word_at(words, 2),
                word_at(words, 3),
            ],
        }
    }

    /// Whether a number that a set may have is in it.
    fn has_bit(&self, number: usize) -> bool
        requires { number < CAPACITY }
        ensures { result ≡ member self.now number }
    {
        word::has(self.words[number / 128], number % 128)
    }

    /// Whether the number is in the set. From `CAPACITY` on no number is.
    pub fn contains(&self, number: usize) -> bool
        ensures { result ≡ member self.now number }
    {
        let _ = &self.words;
        if number < CAPACITY {
            self.has_bit(number)
        } else {
            false
        }
    }

    /// The words of the set.
    pub fn words(&self) -> &[u128]
        ensures words { result.now ≡ self.now }
        ensures long { length result.now ≡ 4 }
    {
        &self.words
    }

    /// Adds a number.
    pub fn insert(&mut self, number: usize)
        requires { number < CAPACITY }
        ensures { (other : ℕ) → member self.new other ≡ (nat_eq other number || member self.old other) }
    {
        self.words[number / 128] = word::with(self.words[number / 128], number % 128);
    }

    /// Whether both are the same set.
    pub fn same(&self, other: &NumberSet) -> bool
        ensures { (result ≡ true) ↔ (self.now ≡ other.now) }
    {
        self.words == other.words
    }

    /// The numbers of either set.
    pub fn union(&self, added: &NumberSet) -> NumberSet
        ensures { (number : ℕ) → member result number ≡ (member self.now number || member added.now number) }
    {
        NumberSet {
            words: [
                word::union(self.words[0], added.words[0]),
                word::union(self.words[1], added.words[1]),
                word::union(self.words[2], added.words[2]),
                word::union(self.words[3], added.words[3]),
            ],
        }
    }

    /// The numbers of both sets.
    pub fn common(&self, other: &NumberSet) -> NumberSet
        ensures { (number : ℕ) → member result number ≡ (member self.now number && member other.now number) }
    {
        NumberSet {
            words: [
                word::common(self.words[0], other.words[0]),
                word::common(self.words[1], other.words[1]),
                word::common(self.words[2], other.words[2]),
                word::common(self.words[3], other.words[3]),
            ],
        }
    }
}
