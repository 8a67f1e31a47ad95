//! A cell in words.

ghost use Rattle.std.specs.Prelude.{◌≡◌, ◌<◌, ◌&&◌, ◌||◌, ℕ, Some, None, false, length, nat_eq, not, slice_index_or, slice_set, true};
ghost use Rattle.pz_sets.specs.Sets.{IsWithin, member};
ghost use Rattle.pz_cells.specs.Cell.{IsOnLayer, moving_piece, still_piece};
ghost use Rattle.pz_cells.specs.Layering.{IsLayering};
ghost use Rattle.pz_cells.specs.Shown.{AreLawful, Changes};
ghost use Rattle.pz_cells.specs.Lists.{pieces_of_cell, IsSound};

use crate::layers::Layers;
use crate::piece::{Mover, Piece};
use pz_game::direction::Dir;
use pz_game::headings;
use pz_sets::words;

/// A cell: the objects that stand there, and where the object of each layer heads. Each set has `N` words.
#[derive(Clone, Copy)]
pub struct Cell<const N: usize> {
    pub objects: [u128; N],
    pub movement: [u128; N],
}

/// Removes what stands on a layer from the words of a cell.
fn lift<const N: usize>(
    objects: &mut [u128; N],
    movement: &mut [u128; N],
    layers: &Layers<N>,
    layer: usize,
)
    requires low { layer < layers.now.depth }
    requires lawful { AreLawful layers.now.layers objects.old movement.old }
    ensures cleared { Changes layers.now.layers objects.old movement.old objects.new movement.new layer None }
    ensures law { IsLayering N layers.now }
{
    if let Some(object) = words::first_common(objects, layers.objects_of(layer)) {
        words::remove(objects, object);
        headings::clear(movement, layer);
    }
}

impl<const N: usize> Cell<N> {
    /// How many words each set has.
    pub fn word_count(&self) -> usize
        ensures count { result ≡ N }
        ensures objects { length self.now.objects ≡ N }
        ensures movement { length self.now.movement ≡ N }
    {
        self.objects.len()
    }

    /// Where the layers head, in words.
    pub(crate) fn movement_words(&self, layers: &Layers<N>) -> &[u128]
        ensures words { result.now ≡ self.now.movement }
        ensures long { length result.now ≡ N }
        ensures law { IsLayering N layers.now }
    {
        // (brings the proof the law of the layers)
        let _ = layers.depth();
        &self.movement
    }

    /// What stands on a layer.
    pub fn place(&self, layers: &Layers<N>, layer: usize) -> Option<Piece>
        requires low { layer < layers.now.depth }
        requires sound { IsSound layers.now self.now }
        ensures { result ≡ slice_index_or (pieces_of_cell layers.now self.now) layer None }
    {
        match words::first_common(&self.objects, layers.objects_of(layer)) {
            None => None,
            Some(object) => {
                let heading = headings::heading(&self.movement, layer);
                Some(Piece {
                    object: object as u16,
                    heading,
                })
            }
        }
    }

    /// Takes away a piece that heads somewhere.
    pub fn take_away(&mut self, layers: &Layers<N>, mover: Mover)
        requires sound { IsSound layers.now self.old }
        requires there { slice_index_or (pieces_of_cell layers.now self.old) mover.layer None ≡ Some (moving_piece mover) }
        ensures sound { IsSound layers.now self.new }
        ensures cell { pieces_of_cell layers.now self.new ≡ slice_set (pieces_of_cell layers.now self.old) mover.layer None }
        ensures movement { IsWithin self.new.movement self.old.movement }
        ensures objects { (object : ℕ) →
            member self.new.objects object ≡ (not (nat_eq object mover.object) && member self.old.objects object) }
        ensures stood { member self.old.objects mover.object ≡ true }
    {
        // (brings the proof the law of the layers)
        let _ = layers.depth();
        words::remove(&mut self.objects, mover.object as usize);
        words::remove(&mut self.movement, headings::flag(mover.layer, mover.dir));
    }

    /// Puts an object, still, on its layer, where nothing stands.
    pub fn land(&mut self, layers: &Layers<N>, layer: usize, object: u16)
        requires sound { IsSound layers.now self.old }
        requires free { slice_index_or (pieces_of_cell layers.now self.old) layer None ≡ None }
        requires on_layer { IsOnLayer layers.now.layers layer (Some (still_piece object)) }
        ensures sound { IsSound layers.now self.new }
        ensures cell { pieces_of_cell layers.now self.new ≡
            slice_set (pieces_of_cell layers.now self.old) layer (Some (still_piece object)) }
        ensures movement { self.new.movement ≡ self.old.movement }
        ensures objects { (other : ℕ) →
            member self.new.objects other ≡ (nat_eq other object || member self.old.objects other) }
        ensures lacked { member self.old.objects object ≡ false }
    {
        // (brings the proof the law of the layers)
        let _ = layers.depth();
        words::insert(&mut self.objects, object as usize);
    }

    /// Puts a piece, or nothing, on a layer, instead of what stands there.
    pub fn put(&mut self, layers: &Layers<N>, layer: usize, place: Option<Piece>)
        requires low { layer < layers.now.depth }
        requires sound { IsSound layers.now self.old }
        requires on_layer { IsOnLayer layers.now.layers layer place }
        ensures sound { IsSound layers.now self.new }
        ensures cell { pieces_of_cell layers.now self.new ≡ slice_set (pieces_of_cell layers.now self.old) layer place }
    {
        lift(&mut self.objects, &mut self.movement, layers, layer);
        if let Some(piece) = place {
            words::insert(&mut self.objects, piece.object as usize);
            if let Some(dir) = piece.heading {
                headings::set(&mut self.movement, layer, dir);
            }
        }
    }
}
