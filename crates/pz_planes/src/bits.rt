//! Positions of a line as the bits of a word: the position n, counted from 0, is in the set if bit n of the word is set.

ghost use Rattle.std.specs.Prelude.{◌≡◌, ℕ, ◌<◌, ◌≤◌, ◌↔◌, ◌&&◌, ◌||◌, IsTrue, true, false, not, nat_eq};
ghost use Rattle.pz_sets.specs.Sets.{in_word};
ghost use Rattle.pz_sets.specs.Next.{IsNext};
ghost use Rattle.pz_planes.specs.Line.{step_to, room_from};
ghost use Rattle.pz_planes.specs.Planes.{toggled_note};

use crate::line::Way;

/// How many positions a word has room for: those below 128.
pub const ROOM: u32 = 128;

/// All positions of a line.
#[tactic(auto, using(crate::proofs::BitLemmas::joining))]
pub fn all() -> u128
    ensures { (at : ℕ) → at < 128 → in_word result at ≡ true }
{
    u128::MAX
}

/// Whether a set has no position.
pub fn is_empty(set: u128) -> bool
    ensures none { IsTrue result ↔ ((at : ℕ) → at < 128 → in_word set at ≡ false) }
    ensures some { result ≡ false → 0 < set }
{
    set == 0
}

/// The positions of both sets.
#[tactic(auto, using(crate::proofs::BitLemmas::joining))]
pub fn both(set: u128, other: u128) -> u128
    ensures { (at : ℕ) → in_word result at ≡ (in_word set at && in_word other at) }
{
    set & other
}

/// The positions that are in one set, in the other, or in both.
#[tactic(auto, using(crate::proofs::BitLemmas::joining))]
pub fn either(set: u128, other: u128) -> u128
    ensures { (at : ℕ) → in_word result at ≡ (in_word set at || in_word other at) }
{
    set | other
}

/// The positions that are in exactly one of the sets.
pub fn differing(set: u128, other: u128) -> u128
    ensures { (at : ℕ) → (in_word result at ≡ false) ↔ (in_word set at ≡ in_word other at) }
{
    set ^ other
}

/// The set with one position toggled: put in if it isn't there, and taken out if it is.
pub fn toggled(set: u128, at: usize) -> u128
    requires { at < 128 }
    ensures { (other : ℕ) → in_word result other ≡ toggled_note (nat_eq other at) (in_word set other) }
{
    set ^ 1u128 << at
}

/// The set with one position more.
pub fn with(set: u128, at: usize) -> u128
    requires { at < 128 }
    ensures { (other : ℕ) → in_word result other ≡ (nat_eq other at || in_word set other) }
{
    set | 1u128 << at
}

/// The set without a position that it has.
pub fn without(set: u128, at: usize) -> u128
    requires low { at < 128 }
    requires there { in_word set at ≡ true }
    ensures others { (other : ℕ) → other < 128 → in_word result other ≡ (not (nat_eq other at) && in_word set other) }
    ensures fewer { result < set }
{
    set & !(1u128 << at)
}

/// The first position of a set that has one.
pub fn first(set: u128) -> usize
    requires { 0 < set }
    ensures there { in_word set result ≡ true }
    ensures low { result < 128 }
    ensures least { (at : ℕ) → at < result → in_word set at ≡ false }
{
    set.trailing_zeros() as usize
}

/// The positions that are not in the set.
pub fn others(set: u128) -> u128
    ensures { (at : ℕ) → at < 128 → in_word result at ≡ not (in_word set at) }
{
    !set
}

/// The positions from which a position of the set is this many steps on, in a line of 128.
pub fn from_which(set: u128, way: Way, steps: usize) -> u128
    requires { steps < 128 }
    ensures { (at : ℕ) → at < 128 → steps < room_from 128 way at →
        in_word result at ≡ in_word set (step_to way at steps) }
{
    match way {
        Way::Ahead => set >> steps,
        Way::Back => set << steps,
    }
}

/// Whether a position is in the set.
pub fn has(set: u128, at: u32) -> bool
    requires { at < 128 }
    ensures { result ≡ in_word set at }
{
    set >> at & 1 == 1
}

/// The first position of a set that is not before `from` and is below `end`, if there is one.
pub fn next(set: u128, from: u32, end: u32) -> Option<u32>
    requires { end ≤ 128 }
    ensures { IsNext (in_word set) from end result }
{
    if from >= end {
        return None;
    }
    let left = set >> from;
    if is_empty(left) {
        return None;
    }
    let found = from + first(left) as u32;
    if found < end { Some(found) } else { None }
}
