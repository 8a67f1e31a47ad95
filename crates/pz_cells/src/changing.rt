//! Changes of cells when a level is loaded, and at the beginning and the end of a step.

ghost use Rattle.std.specs.Prelude.{◌≡◌, ℕ, ◌<◌, true, false, map, slice_index, Some};
ghost use Rattle.pz_sets.specs.Sets.{member};
ghost use Rattle.pz_cells.specs.Cell.{IsOnLayer, empty_cell, still_place};
ghost use Rattle.pz_cells.specs.Drawing.{filled_cell};
ghost use Rattle.pz_cells.specs.Lists.{pieces_of_cell, IsSound, Becomes};

use crate::cell::Cell;
use crate::layers::Layers;
use crate::piece::Piece;
use pz_game::direction::Dir;
use pz_game::headings;

impl<const N: usize> Cell<N> {
    /// A cell where nothing stands.
    pub fn empty(layers: &Layers<N>) -> Cell<N>
        ensures sound { IsSound layers.now result }
        ensures cell { pieces_of_cell layers.now result ≡ empty_cell layers.now.depth }
    {
        Cell {
            objects: [0; N],
            movement: [0; N],
        }
    }

    /// Stills every layer.
    pub fn still_all(&mut self, layers: &Layers<N>)
        requires sound { IsSound layers.now self.old }
        ensures sound { IsSound layers.now self.new }
        ensures cell { pieces_of_cell layers.now self.new ≡ map still_place (pieces_of_cell layers.now self.old) }
        ensures none { (number : ℕ) → member self.new.movement number ≡ false }
        ensures objects { self.new.objects ≡ self.old.objects }
    {
        let still = [0; N];
        self.movement = still;
    }

    /// Gives an object a direction, if it stands in the cell.
    pub fn turn(&mut self, layers: &Layers<N>, object: usize, dir: Dir)
        requires sound { IsSound layers.now self.old }
        ensures turned { member self.old.objects object ≡ true →
            Becomes layers.now self.old self.new (slice_index layers.now.layers object)
            (Some (record { object = object; heading = Some dir })) }
        ensures kept { member self.old.objects object ≡ false → self.new ≡ self.old }
    {
        if self.has(object) {
            let layer = layers.layer_of(object);
            headings::clear(&mut self.movement, layer);
            headings::set(&mut self.movement, layer, dir);
        }
    }

    /// Puts a piece on a layer, if nothing stands there.
    pub fn fill(&mut self, layers: &Layers<N>, layer: usize, piece: Piece)
        requires low { layer < layers.now.depth }
        requires sound { IsSound layers.now self.old }
        requires on_layer { IsOnLayer layers.now.layers layer (Some piece) }
        ensures sound { IsSound layers.now self.new }
        ensures cell { pieces_of_cell layers.now self.new ≡ filled_cell layer piece (pieces_of_cell layers.now self.old) }
    {
        if self.place(layers, layer).is_some() {
            return;
        }
        self.put(layers, layer, Some(piece));
    }
}
