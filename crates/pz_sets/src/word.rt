//! The bits of a word.

ghost use Rattle.std.specs.Prelude.{◌≡◌, ℕ, ◌<◌, ◌≤◌, ◌↔◌, IsTrue, true, false, not, ◌&&◌, ◌||◌, nat_eq, if◌then◌else◌, MatchOption};
ghost use Rattle.pz_sets.specs.Sets.{in_word};

pub fn has(word: u128, bit: usize) -> bool
    requires { bit < 128 }
    ensures { result ≡ in_word word bit }
{
    word >> bit & 1 == 1
}

pub fn with(word: u128, bit: usize) -> u128
    requires { bit < 128 }
    ensures { (other : ℕ) → in_word result other ≡ (nat_eq other bit || in_word word other) }
{
    word | 1u128 << bit
}

pub fn without(word: u128, bit: usize) -> u128
    requires { bit < 128 }
    ensures { (other : ℕ) → other < 128 → in_word result other ≡ (not (nat_eq other bit) && in_word word other) }
{
    word & !(1u128 << bit)
}

pub fn union(word: u128, added: u128) -> u128
    ensures { (bit : ℕ) → in_word result bit ≡ (in_word word bit || in_word added bit) }
{
    word | added
}

pub fn common(word: u128, other: u128) -> u128
    ensures { (bit : ℕ) → in_word result bit ≡ (in_word word bit && in_word other bit) }
{
    word & other
}

pub fn minus(word: u128, removed: u128) -> u128
    ensures { (bit : ℕ) → bit < 128 → in_word result bit ≡ (in_word word bit && not (in_word removed bit)) }
{
    word & !removed
}

/// Whether a word has each bit of another.
pub fn covers(word: u128, wanted: u128) -> bool
    ensures { IsTrue result ↔ ((bit : ℕ) → bit < 128 → in_word wanted bit ≡ true → in_word word bit ≡ true) }
{
    word & wanted == wanted
}

/// Whether a word has no bit of another.
pub fn is_apart(word: u128, unwanted: u128) -> bool
    ensures { IsTrue result ↔ ((bit : ℕ) → bit < 128 → in_word unwanted bit ≡ true → in_word word bit ≡ false) }
{
    word & unwanted == 0
}

/// Whether a word has no bit.
pub fn is_empty(word: u128) -> bool
    ensures { IsTrue result ↔ ((bit : ℕ) → bit < 128 → in_word word bit ≡ false) }
{
    word == 0
}

/// The bits that exactly one of two words has.
pub fn differing(word: u128, other: u128) -> u128
    ensures { (bit : ℕ) → in_word result bit ≡
        (if in_word word bit then not (in_word other bit) else in_word other bit) }
{
    word ^ other
}

/// Whether a word has each bit of a second and none of a third: no bit that it has is unwanted, and no bit that it lacks is
/// wanted.
pub fn meets(word: u128, wanted: u128, unwanted: u128) -> bool
    ensures { IsTrue result ↔
        (((bit : ℕ) → bit < 128 → in_word wanted bit ≡ true → in_word word bit ≡ true) ×
        ((bit : ℕ) → bit < 128 → in_word unwanted bit ≡ true → in_word word bit ≡ false)) }
{
    // (picks for each bit which of the two must be 0; written so that a loop computes `apart` once)
    let apart = differing(wanted, unwanted);
    let picked = common(word, apart);
    is_empty(differing(wanted, picked))
}

pub fn same(word: u128, other: u128) -> bool
    ensures { IsTrue result ↔ ((bit : ℕ) → bit < 128 → in_word word bit ≡ in_word other bit) }
{
    word == other
}

/// Whether two words are the same and two others are the same, in one test of all four.
pub fn both_same(word: u128, other: u128, second: u128, second_other: u128) -> bool
    ensures { IsTrue result ↔
        (((bit : ℕ) → bit < 128 → in_word word bit ≡ in_word other bit) ×
        ((bit : ℕ) → bit < 128 → in_word second bit ≡ in_word second_other bit)) }
{
    let first_differing = differing(word, other);
    let second_differing = differing(second, second_other);
    is_empty(union(first_differing, second_differing))
}

/// The lowest bit of a word that has one.
pub fn lowest(word: u128) -> usize
    requires { 0 < word }
    ensures there { in_word word result ≡ true }
    ensures below { result < 128 }
    ensures least { (bit : ℕ) → bit < result → in_word word bit ≡ false }
{
    word.trailing_zeros() as usize
}

/// The lowest bit of a word from a place on.
pub fn lowest_from(word: u128, start: usize) -> Option<usize>
    requires { start < 128 }
    ensures { MatchOption result ((bit : ℕ) → start ≤ bit → bit < 128 → in_word word bit ≡ false)
        (λ found. (start ≤ found) × (found < 128) × (in_word word found ≡ true) ×
        ((bit : ℕ) → start ≤ bit → bit < found → in_word word bit ≡ false)) }
{
    let rest = word & u128::MAX << start;
    if rest == 0 { None } else { Some(lowest(rest)) }
}
