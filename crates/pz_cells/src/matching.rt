//! What holds in a cell.

ghost use Rattle.std.specs.Prelude.{◌≡◌, ℕ, ◌/◌, ◌<◌, ◌↔◌, IsTrue, true, length};
ghost use Rattle.pz_sets.specs.Sets.{member, IsWithin, AreApart};
ghost use Rattle.pz_game.specs.Pattern.{AreOf};
ghost use Rattle.pz_cells.specs.Pattern.{pattern_holds};
ghost use Rattle.pz_cells.specs.Lists.{pieces_of_cell, IsSound};

use crate::cell::Cell;
use crate::layers::Layers;
use pz_game::pattern::Pattern;
use pz_sets::set::NumberSet;
use pz_sets::words;

/// Whether a set has all wanted numbers and no unwanted one. Only the words that it has are compared.
fn meets(set: &[u128], wanted: &NumberSet, unwanted: &NumberSet) -> bool
    requires wanted { (number : ℕ) → member wanted.now number ≡ true → number / 128 < length set.now }
    requires unwanted { (number : ℕ) → member unwanted.now number ≡ true → number / 128 < length set.now }
    ensures { IsTrue result ↔ (IsWithin wanted.now set.now × AreApart unwanted.now set.now) }
{
    words::meets(set, wanted.words(), unwanted.words())
}

impl<const N: usize> Cell<N> {
    /// Whether a rule's cell holds here. Rule `match.fit`.
    pub fn holds(&self, layers: &Layers<N>, pattern: &Pattern) -> bool
        requires of_game { AreOf layers.now.layers pattern.now }
        requires sound { IsSound layers.now self.now }
        ensures { result ≡ pattern_holds (pieces_of_cell layers.now self.now) pattern.now }
    {
        let movement = self.movement_words(layers);
        let masks = pattern.masks();
        meets(&self.objects, &masks.present, &masks.absent)
            && meets(movement, &masks.required, &masks.forbidden)
    }
}
