//! What stands in a cell.

ghost use Rattle.std.specs.Prelude.{◌≡◌, ℕ, ◌%◌, ◌<◌, ◌↔◌, IsTrue, true, false, slice_index, MatchOption};
ghost use Rattle.pz_sets.specs.Sets.{member, AreSame};
ghost use Rattle.pz_game.specs.Headings.{dir_bit, flag, heading_in};
ghost use Rattle.pz_cells.specs.Cell.{IsNextMover};
ghost use Rattle.pz_cells.specs.Lists.{pieces_of_cell, IsSound};

use crate::cell::Cell;
use crate::layers::Layers;
use crate::piece::{Mover, Piece};
use pz_game::direction::Dir;
use pz_game::headings;
use pz_sets::set::NumberSet;
use pz_sets::words;

impl<const N: usize> Cell<N> {
    /// Whether an object stands in the cell.
    pub fn has(&self, object: usize) -> bool
        ensures { result ≡ member self.now.objects object }
    {
        words::contains(&self.objects, object)
    }

    /// Where the layers head, as a set of headings.
    pub fn heading_set(&self, layers: &Layers<N>) -> NumberSet
        ensures { (number : ℕ) → member result number ≡ member self.now.movement number }
    {
        NumberSet::from_words(self.movement_words(layers))
    }

    /// Whether nothing in the cell heads anywhere.
    pub fn is_still(&self, layers: &Layers<N>) -> bool
        ensures { IsTrue result ↔ ((number : ℕ) → member self.now.movement number ≡ false) }
    {
        words::is_empty(&self.movement)
    }

    /// The first piece that heads somewhere, on a layer from `from` on.
    pub fn next_mover(&self, layers: &Layers<N>, from: usize) -> Option<Mover>
        requires sound { IsSound layers.now self.now }
        ensures { IsNextMover (pieces_of_cell layers.now self.now) from result }
    {
        if from >= layers.depth() {
            return None;
        }
        match words::next(&self.movement, headings::flag(from, Dir::Up)) {
            None => None,
            Some(found) => {
                let (layer, dir) = flagged(found);
                match words::first_common(&self.objects, layers.objects_of(layer)) {
                    None => None,
                    Some(object) => Some(Mover {
                        layer,
                        object: object as u16,
                        dir,
                    }),
                }
            }
        }
    }

    /// The object's piece, if it stands in the cell.
    pub fn piece(&self, layers: &Layers<N>, object: usize) -> Option<Piece>
        requires sound { IsSound layers.now self.now }
        ensures { MatchOption result (member self.now.objects object ≡ false)
            (λ piece. (member self.now.objects object ≡ true) × (piece.object ≡ object) ×
            (piece.heading ≡ heading_in self.now.movement (slice_index layers.now.layers object))) }
    {
        if self.has(object) {
            let layer = layers.layer_of(object);
            Some(Piece {
                object: object as u16,
                heading: headings::heading(&self.movement, layer),
            })
        } else {
            None
        }
    }

    /// Whether both cells have the same objects and the same headings.
    pub fn same(&self, other: &Cell<N>) -> bool
        ensures { IsTrue result ↔
            (AreSame self.now.objects other.now.objects × AreSame self.now.movement other.now.movement) }
    {
        words::both_same(
            &self.objects,
            &other.objects,
            &self.movement,
            &other.movement,
        )
    }
}

/// The direction with this place in a layer's field of five.
fn dir_at(bit: usize) -> Dir
    ensures { bit < 5 → dir_bit result ≡ bit }
{
    match bit {
        0 => Dir::Up,
        1 => Dir::Down,
        2 => Dir::Left,
        3 => Dir::Right,
        _ => Dir::Action,
    }
}

/// The layer and the direction that have this number: `flag` undone.
fn flagged(number: usize) -> (usize, Dir)
    ensures { number % 128 < 125 → flag result.0 result.1 ≡ number }
{
    let field = number % 128;
    (number / 128 * 25 + field / 5, dir_at(field % 5))
}
