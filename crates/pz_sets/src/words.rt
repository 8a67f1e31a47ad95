//! Sets of numbers in slices of words of 128 bits. A word that a slice lacks has no number, so sets of different lengths go together.

ghost use Rattle.std.specs.Prelude.{◌≡◌, ◌≢◌, ℕ, ◌/◌, ◌%◌, ◌<◌, ◌≤◌, ◌↔◌, IsTrue, true, false, not, ◌&&◌, ◌||◌, nat_eq, length, slice_index, MatchOption};
ghost use Rattle.pz_sets.specs.Sets.{in_word, member, IsWithin, AreApart, AreSame};
ghost use Rattle.pz_sets.specs.declared.set.TheConstants.{CAPACITY};

use crate::word;

/// The word of a number, or 0 if the slice has none.
pub(crate) fn word_at(words: &[u128], index: usize) -> u128
    ensures { result ≡ slice_index words.now index }
{
    if index < words.len() { words[index] } else { 0 }
}

/// Whether the number is in the set.
pub fn contains(words: &[u128], number: usize) -> bool
    ensures { result ≡ member words.now number }
{
    word::has(word_at(words, number / 128), number % 128)
}

/// Adds a number.
pub fn insert(words: &mut [u128], number: usize)
    requires { number / 128 < length words.old }
    ensures { (other : ℕ) → member words.new other ≡ (nat_eq other number || member words.old other) }
{
    words[number / 128] = word::with(words[number / 128], number % 128);
}

/// Takes a number away.
pub fn remove(words: &mut [u128], number: usize)
    ensures { (other : ℕ) → member words.new other ≡ (not (nat_eq other number) && member words.old other) }
{
    if number / 128 < words.len() {
        words[number / 128] = word::without(words[number / 128], number % 128);
    }
}

/// Whether each number of the second set is in the first.
pub fn has_subset(words: &[u128], wanted: &[u128]) -> bool
    ensures { IsTrue result ↔ IsWithin wanted.now words.now }
{
    for index in 0..wanted.len() {
        if !word::covers(word_at(words, index), wanted[index]) {
            return false;
        }
    }
    true
}

/// Whether the sets have no number in common.
pub fn is_disjoint(words: &[u128], unwanted: &[u128]) -> bool
    ensures { IsTrue result ↔ AreApart unwanted.now words.now }
{
    for index in 0..unwanted.len() {
        if !word::is_apart(word_at(words, index), unwanted[index]) {
            return false;
        }
    }
    true
}

/// Whether the set has no number.
pub fn is_empty(words: &[u128]) -> bool
    ensures { IsTrue result ↔ ((number : ℕ) → member words.now number ≡ false) }
{
    for index in 0..words.len() {
        if !word::is_empty(words[index]) {
            return false;
        }
    }
    true
}

/// Whether a set has each number of a second and none of a third. Neither of these has a number beyond the words of the first.
pub fn meets(words: &[u128], wanted: &[u128], unwanted: &[u128]) -> bool
    requires wanted { (number : ℕ) → member wanted.now number ≡ true → number / 128 < length words.now }
    requires unwanted { (number : ℕ) → member unwanted.now number ≡ true → number / 128 < length words.now }
    ensures { IsTrue result ↔ (IsWithin wanted.now words.now × AreApart unwanted.now words.now) }
{
    for index in 0..words.len() {
        let present = word_at(wanted, index);
        let absent = word_at(unwanted, index);
        if !word::meets(words[index], present, absent) {
            return false;
        }
    }
    true
}

/// Whether the sets have the same numbers.
pub fn same(words: &[u128], others: &[u128]) -> bool
    ensures { IsTrue result ↔ AreSame words.now others.now }
{
    for index in 0..words.len().max(others.len()) {
        let word = word_at(words, index);
        if !word::same(word, word_at(others, index)) {
            return false;
        }
    }
    true
}

/// Whether two sets have the same numbers and two others have the same numbers. All four have as many words, and are read side by
/// side.
pub fn both_same(words: &[u128], others: &[u128], second: &[u128], second_others: &[u128]) -> bool
    requires others { length others.now ≡ length words.now }
    requires second { length second.now ≡ length words.now }
    requires second_others { length second_others.now ≡ length words.now }
    ensures { IsTrue result ↔ (AreSame words.now others.now × AreSame second.now second_others.now) }
{
    for index in 0..words.len() {
        let (word, other) = (words[index], others[index]);
        if !word::both_same(word, other, second[index], second_others[index]) {
            return false;
        }
    }
    true
}

/// The least number from one on.
pub fn next(words: &[u128], start: usize) -> Option<usize>
    requires short { length words.now ≤ 4 }
    requires low { start ≤ CAPACITY }
    ensures { MatchOption result ((number : ℕ) → start ≤ number → member words.now number ≡ false)
        (λ found. (start ≤ found) × (found / 128 < length words.now) × (member words.now found ≡ true) ×
        ((number : ℕ) → start ≤ number → number < found → member words.now number ≡ false)) }
{
    let mut number = start;
    while number / 128 < words.len() {
        match word::lowest_from(words[number / 128], number % 128) {
            Some(bit) => return Some(number / 128 * 128 + bit),
            None => number = (number / 128 + 1) * 128,
        }
    }
    None
}

/// The least number of both sets from one on.
pub fn next_common(words: &[u128], others: &[u128], start: usize) -> Option<usize>
    requires short { length words.now ≤ 4 }
    requires low { start ≤ CAPACITY }
    ensures { MatchOption result
        ((number : ℕ) → start ≤ number → (member words.now number && member others.now number) ≡ false)
        (λ found. (start ≤ found) × (found / 128 < length words.now) ×
        ((member words.now found && member others.now found) ≡ true) ×
        ((number : ℕ) → start ≤ number → number < found →
        (member words.now number && member others.now number) ≡ false)) }
{
    let mut number = start;
    while number / 128 < words.len() {
        let index = number / 128;
        let both = word::common(words[index], word_at(others, index));
        match word::lowest_from(both, number % 128) {
            Some(bit) => return Some(index * 128 + bit),
            None => number = (index + 1) * 128,
        }
    }
    None
}

/// A number of both sets, if they have one in common.
pub fn first_common(words: &[u128], others: &[u128]) -> Option<usize>
    requires short { length words.now ≤ 4 }
    ensures { MatchOption result ((number : ℕ) → (member words.now number && member others.now number) ≡ false)
        (λ found. (found / 128 < length words.now) × ((member words.now found && member others.now found) ≡ true)) }
{
    for index in 0..words.len() {
        let both = word::common(words[index], word_at(others, index));
        if both != 0 {
            return Some(index * 128 + word::lowest(both));
        }
    }
    None
}

/// Takes numbers of one word away, adds others, and says whether the set changed.
fn replace_word(words: &mut [u128], index: usize, removed: u128, added: u128) -> bool
    requires within { index < length words.old }
    ensures others { (number : ℕ) → number / 128 ≢ index → member words.new number ≡ member words.old number }
    ensures members { (number : ℕ) → number / 128 ≡ index →
        member words.new number ≡
        ((member words.old number && not (in_word removed (number % 128))) || in_word added (number % 128)) }
    ensures changed { (result ≡ false) ↔ AreSame words.new words.old }
{
    let old = words[index];
    let kept = word::minus(old, removed);
    let new = word::union(kept, added);
    words[index] = new;
    !word::same(new, old)
}

/// Takes numbers away, adds others, and says whether the set changed.
pub fn replace(words: &mut [u128], removed: &[u128], added: &[u128]) -> bool
    requires { (number : ℕ) → member added.now number ≡ true → number / 128 < length words.old }
    ensures members { (number : ℕ) →
        member words.new number ≡
        ((member words.old number && not (member removed.now number)) || member added.now number) }
    ensures changed { (result ≡ false) ↔ AreSame words.new words.old }
{
    let mut changed = false;
    for index in 0..words.len() {
        let replaced = replace_word(words, index, word_at(removed, index), word_at(added, index));
        changed = changed || replaced;
    }
    changed
}
