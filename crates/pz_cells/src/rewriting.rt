//! The rewriting of cells.

ghost use Rattle.std.specs.Prelude.{◌≡◌, ◌≢◌, ℕ, ◌<◌, ◌≤◌, true, false, not, ◌&&◌, length, slice_index};
ghost use Rattle.pz_sets.specs.Sets.{member};
ghost use Rattle.pz_game.specs.declared.direction.Dir.{Dir};
ghost use Rattle.pz_game.specs.Headings.{heads, IsProper};
ghost use Rattle.pz_game.specs.Pattern.{AreOf};
ghost use Rattle.pz_cells.specs.Rewriting.{rewritten_cell};
ghost use Rattle.pz_cells.specs.Sameness.{same_cell};
ghost use Rattle.pz_cells.specs.Lists.{pieces_of_cell, IsSound};

use crate::cell::Cell;
use crate::layers::Layers;
use pz_game::headings;
use pz_game::pattern::Pattern;
use pz_sets::set::NumberSet;
use pz_sets::words::{is_disjoint, next_common, replace};

/// Stills the layers of the objects that are in both sets. Mostly there are none.
fn end_leaving<const N: usize>(
    movement: &mut [u128],
    layers: &Layers<N>,
    objects: &[u128],
    removed: &NumberSet,
)
    requires short { length objects.now ≤ 4 }
    requires of_game { (object : ℕ) → member objects.now object ≡ true → object < length layers.now.layers }
    ensures ended { (object : ℕ) (dir : Dir) → (member objects.now object && member removed.now object) ≡ true →
        heads movement.new (slice_index layers.now.layers object) dir ≡ false }
    ensures others { (layer : ℕ) (dir : Dir) →
        ((object : ℕ) → (member objects.now object && member removed.now object) ≡ true →
        slice_index layers.now.layers object ≢ layer) → heads movement.new layer dir ≡ heads movement.old layer dir }
    ensures proper { IsProper movement.old → IsProper movement.new }
{
    if is_disjoint(removed.words(), objects) {
        return;
    }
    let mut start = 0;
    'leaving: while let Some(object) = next_common(objects, removed.words(), start) {
        headings::clear(movement, layers.layer_of(object));
        start = object + 1;
    }
}

impl<const N: usize> Cell<N> {
    /// Rewrites the cell from a left cell of a rule to its right cell, and says whether the cell changed.
    /// Rules `match.placed`, `match.removed`.
    pub fn rewrite(&mut self, layers: &Layers<N>, left: &Pattern, right: &Pattern) -> bool
        requires left_of { AreOf layers.now.layers left.now }
        requires right_of { AreOf layers.now.layers right.now }
        requires sound { IsSound layers.now self.old }
        ensures sound { IsSound layers.now self.new }
        ensures cell { pieces_of_cell layers.now self.new ≡ rewritten_cell left.now right.now (pieces_of_cell layers.now self.old) }
        ensures changed { result ≡
            not (same_cell (rewritten_cell left.now right.now (pieces_of_cell layers.now self.old)) (pieces_of_cell layers.now self.old)) }
    {
        let was = left.masks();
        let is = right.masks();
        let ending = is.settled.union(&was.told.common(&is.covered));
        let removed = was.present.union(&is.absent);
        let displaced = layers.displaced_by(right.items());
        let gone = displaced.union(&removed);
        // (what is displaced leaves its layer to what is placed there)
        let mut rest = self.objects;
        replace(&mut rest, displaced.words(), NumberSet::empty().words());
        let moved = replace(&mut self.movement, ending.words(), is.headed.words());
        end_leaving(&mut self.movement, layers, &rest, &removed);
        let replaced = replace(&mut self.objects, gone.words(), is.placed.words());
        moved | replaced
    }
}
