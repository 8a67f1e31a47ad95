//! Hashes of instances: equal instances have the same hash, and few unequal ones do.
#![tactic(auto, unfolding(crate::specs::Hashes::item_hash, crate::specs::Hashes::with_cell, crate::specs::Hashes::with_row, crate::specs::Hashes::hash_of))]

ghost use Rattle.std.specs.Prelude.{◌≡◌, fold};
ghost use Rattle.pz_instances.specs.Hashes.{direction_number, word_number, spread, item_hash, cell_hash, with_cell, with_row, hash_of};

use crate::equal::has_item;
use pz_game::direction::Dir;
use pz_game::pattern::{Item, Pattern, Row, Word};
use pz_program::instance::Instance;

/// An odd number. Multiplying by it spreads the bits of a number.
const SPREADER: u64 = 0x9e37_79b9_7f4a_7c15;

fn direction_number(direction: Dir) -> u64
    ensures { result ≡ direction_number direction }
{
    match direction {
        Dir::Up => 0,
        Dir::Down => 1,
        Dir::Left => 2,
        Dir::Right => 3,
        Dir::Action => 4,
    }
}

/// A different number for each word, below 8.
fn word_number(word: Word) -> u64
    ensures { result ≡ word_number word }
{
    match word {
        Word::Toward(direction) => direction_number(direction),
        Word::Present => 5,
        Word::Still => 6,
        Word::Absent => 7,
    }
}

/// A number with its bits spread over a whole word.
pub fn spread(number: u64) -> u64
    ensures { result ≡ spread number }
{
    let once = number.wrapping_mul(SPREADER);
    (once ^ (once >> 32)).wrapping_mul(SPREADER)
}

/// The hash of an item.
pub fn item_hash(item: &Item) -> u64
    ensures { result ≡ item_hash item.now }
{
    spread(
        (item.object as u64)
            .wrapping_mul(8)
            .wrapping_add(word_number(item.word)),
    )
}

/// The hash of a cell. It doesn't depend on the order of the items, nor on how often one stands there.
fn cell_hash(items: &[Item]) -> u64
    ensures { result ≡ cell_hash items.now }
{
    let mut hash = 0;
    let mut rest = items;
    while let Some((item, others)) = rest.split_first() {
        if !has_item(others, item) {
            hash ^= item_hash(item);
        }
        rest = others;
    }
    hash
}

/// The hash of some cells, and of one more after them.
fn with_cell(hash: u64, cell: &Pattern) -> u64
    ensures { result ≡ with_cell hash cell.now }
{
    (hash ^ cell_hash(cell.items())).wrapping_mul(SPREADER)
}

fn with_row(hash: u64, row: &Row) -> u64
    ensures { result ≡ with_row hash row.now }
{
    row.cells()
        .iter()
        .fold(hash, |hash, cell| with_cell(hash, cell))
}

fn with_rows(hash: u64, rows: &[Row]) -> u64
    ensures { result ≡ fold with_row hash rows.now }
{
    rows.iter().fold(hash, |hash, row| with_row(hash, row))
}

/// The hash of an instance.
pub fn hash_of(instance: &Instance) -> u64
    ensures { result ≡ hash_of instance.now }
{
    let left = with_rows(direction_number(instance.scan), instance.left.items());
    with_rows(left, instance.right.items())
}
