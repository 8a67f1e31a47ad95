//! Digests of levels: equal levels have equal ones.

ghost use Rattle.std.specs.Prelude.{◌≡◌, ◌<◌, ◌%◌, ◌*◌, ◌+◌, ◌^◌, length, IfOk};
ghost use Rattle.pz_sheet.specs.Presence.{cell_of, is_in};
ghost use Rattle.pz_store.specs.Digest.{ArePowers, IsReplaced, bit_of, cell_word, digest_with, with_bit};

use pz_bare::BareLevel;
use std::alloc::{AllocError, Global};

/// An odd number whose bits are mixed well: 2^64 over the golden ratio.
const FACTOR: u64 = 11400714819323198485;

/// A word with one more bit at its end.
#[tactic(auto, unfolding(crate::specs::Digest::with_bit))]
fn with_bit(word: u64, is_set: bool) -> u64
    ensures { result ≡ with_bit word is_set }
{
    let moved = word.wrapping_mul(2);
    if is_set { moved.wrapping_add(1) } else { moved }
}

/// A digest, mixed with one word more.
#[tactic(auto, unfolding(crate::specs::Digest::digest_with))]
pub(crate) fn mixed(digest: u64, word: u64) -> u64
    ensures { result ≡ digest_with digest word }
{
    digest.wrapping_add(word).wrapping_mul(FACTOR)
}

/// The digest after one word is replaced; `power` is that of its place.
pub(crate) fn replaced(digest: u64, old: u64, new: u64, power: u64) -> u64
    ensures { IsReplaced digest old new power result }
{
    digest.wrapping_add(new.wrapping_sub(old).wrapping_mul(power))
}

/// The powers of the places of so many words: by how much each counts in their digest. Err: memory was refused.
pub(crate) fn powers(alloc: Global, count: usize) -> Result<Vec<u64>, AllocError>
    ensures { IfOk result (λ powers. ArePowers count powers.items) }
{
    let mut powers = vec![in alloc; 0; count]?;
    let mut power: u64 = 1;
    for behind in 0..count {
        power = power.wrapping_mul(FACTOR);
        powers[count - 1 - behind] = power;
    }
    Ok(powers)
}

/// The first objects of a game, as far as they stand in the cell of this number, as the bits of a word.
#[tactic(auto, using(crate::proofs::Digesting::one_bit_more), unfolding(crate::specs::Digest::cell_word))]
pub(crate) fn cell_word(level: &BareLevel, index: usize, objects: usize) -> u64
    requires { index < length level.now.grid.cells }
    ensures { result ≡ cell_word objects (cell_of level.now.grid index) }
{
    let mut word = 0;
    for object in 0..objects {
        word = with_bit(word, level.is_in(index, object));
    }
    word
}
