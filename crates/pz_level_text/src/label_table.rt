//! The sets of a game's objects that were seen so far, and the labels of their texts.

ghost use Rattle.std.specs.Prelude.{◌≡◌, ◌≤◌, [], length, take, IfOk, IfSome};
ghost use Rattle.pz_level_text.specs.Labels.{IsLabelOf, IsLabelOfWord};

use crate::labelled_set::LabelledSet;
use crate::set_text::set_text;
use pz_game::game::Game;
use pz_json_text::labels::KnownTexts;
use pz_sets::set::NumberSet;
use std::alloc::{AllocError, Global};
use std::collections::HashMap;
use std::marker::Model;

/// How many sets are compared one after another before the hash map is asked. So few are cheaper to compare than to hash, and most levels
/// have no more.
const FEW: usize = 8;

/// Numbers below this one are in the first word of a set.
const WORD: usize = 128;

/// The texts of the sets of a game's objects that were seen so far. `places` only gives hints: the set at a place is compared before its
/// label is used.
pub(crate) struct LabelTable<'a> {
    game: &'a Game,
    texts: KnownTexts,
    known: Vec<LabelledSet>,
    places: HashMap<NumberSet, usize>,
}

/// Written out: where one goes out of scope, the prover then sees one call.
impl Drop for LabelTable<'_> {
    fn drop(self) {
        let LabelTable {
            game: _,
            texts,
            known,
            places,
        } = self;
        drop(texts);
        drop(known);
        drop(places);
    }
}

impl<'a> Model for LabelTable<'a> {
    ghost use Rattle.std.specs.Prelude.{All};
    ghost use Rattle.pz_level_text.specs.Labels.{TableView, IsLabelOf};

    ghost Value = { TableView };

    ghost view = { λ t. record { game = t.game.now; texts = t.texts } };

    ghost invariant = { λ t. All (λ k. IsLabelOf t.game.now.objects t.texts k.objects k.label) t.known.items };
}

impl<'a> LabelTable<'a> {
    pub fn new(alloc: Global, game: &'a Game) -> LabelTable<'a>
        ensures { result ≡ record { game = game.now; texts = [] } }
    {
        LabelTable {
            game,
            texts: KnownTexts::new(alloc),
            known: Vec::new(alloc),
            places: HashMap::new(alloc),
        }
    }

    /// The texts by their labels.
    pub fn texts(&self) -> &KnownTexts
        ensures { result.now ≡ self.now.texts }
    {
        &self.texts
    }

    /// The label of the set at this place among the known ones, if it is this set.
    fn known_at(&self, place: usize, objects: &NumberSet) -> Option<usize>
        ensures { IfSome result (λ label. IsLabelOf self.now.game.objects self.now.texts objects.now label) }
    {
        let known = self.known.get(place)?;
        if known.objects.same(objects) {
            Some(known.label)
        } else {
            None
        }
    }

    /// The label of a set, if it was seen before.
    fn known(&self, objects: &NumberSet) -> Option<usize>
        ensures { IfSome result (λ label. IsLabelOf self.now.game.objects self.now.texts objects.now label) }
    {
        for place in 0..self.known.len().min(FEW) {
            if let Some(label) = self.known_at(place, objects) {
                return Some(label);
            }
        }
        let place = self.places.get(objects)?;
        self.known_at(*place, objects)
    }

    /// Writes the text of a set, and gives its label. Err: memory was refused.
    fn label_of(&mut self, alloc: Global, objects: &NumberSet) -> Result<usize, AllocError>
        ensures label { IfOk result (λ label. IsLabelOf self.new.game.objects self.new.texts objects.now label) }
        ensures kept { take (length self.old.texts) self.new.texts ≡ self.old.texts }
        ensures game { self.new.game ≡ self.old.game }
    {
        let text = set_text(alloc, self.game.objects(), objects)?;
        let label = self.texts.label_of(alloc, text)?;
        Ok(label)
    }

    /// Keeps the label of a set. Err: memory was refused.
    fn note(&mut self, objects: NumberSet, label: usize) -> Result<(), AllocError>
        requires { IsLabelOf self.old.game.objects self.old.texts objects label }
        ensures { self.new ≡ self.old }
    {
        let place = self.known.len();
        self.known.push(LabelledSet { objects, label })?;
        if place >= FEW {
            self.places.insert(objects, place)?;
        }
        Ok(())
    }

    /// The label of a set that is new. Err: memory was refused.
    fn learn(&mut self, alloc: Global, objects: &NumberSet) -> Result<usize, AllocError>
        ensures label { IfOk result (λ label. IsLabelOf self.new.game.objects self.new.texts objects.now label) }
        ensures kept { take (length self.old.texts) self.new.texts ≡ self.old.texts }
        ensures game { self.new.game ≡ self.old.game }
    {
        let label = self.label_of(alloc, objects)?;
        self.note(*objects, label)?;
        Ok(label)
    }

    /// The label of the set at this place among the known ones, if the set has this first word. All objects are in that word.
    fn labelled_at(&self, place: usize, word: u128) -> Option<usize>
        requires { length self.now.game.objects ≤ WORD }
        ensures { IfSome result (λ label. IsLabelOfWord self.now.game.objects self.now.texts word label) }
    {
        let known = self.known.get(place)?;
        if known.objects.words()[0] == word {
            Some(known.label)
        } else {
            None
        }
    }

    /// The label of the sets with this first word, if one is among the few that are compared. All objects are in that word.
    fn labelled(&self, word: u128) -> Option<usize>
        requires { length self.now.game.objects ≤ WORD }
        ensures { IfSome result (λ label. IsLabelOfWord self.now.game.objects self.now.texts word label) }
    {
        for place in 0..self.known.len().min(FEW) {
            if let Some(label) = self.labelled_at(place, word) {
                return Some(label);
            }
        }
        None
    }

    /// The label of a set, if it is found by its first word.
    fn met(&self, objects: &NumberSet) -> Option<usize>
        ensures { IfSome result (λ label. IsLabelOf self.now.game.objects self.now.texts objects.now label) }
    {
        if self.game.objects().len() > WORD {
            return None;
        }
        self.labelled(objects.words()[0])
    }

    /// The label of a set, however it is found. Err: memory was refused. (Not inlined: in a game of at most 128 objects few sets come here.)
    #[inline(never)]
    fn look_up(&mut self, alloc: Global, objects: NumberSet) -> Result<usize, AllocError>
        ensures label { IfOk result (λ label. IsLabelOf self.new.game.objects self.new.texts objects label) }
        ensures kept { take (length self.old.texts) self.new.texts ≡ self.old.texts }
        ensures game { self.new.game ≡ self.old.game }
    {
        match self.known(&objects) {
            Some(label) => Ok(label),
            None => self.learn(alloc, &objects),
        }
    }

    /// The label of a set. Err: memory was refused.
    pub fn label(&mut self, alloc: Global, objects: NumberSet) -> Result<usize, AllocError>
        ensures label { IfOk result (λ label. IsLabelOf self.new.game.objects self.new.texts objects label) }
        ensures kept { take (length self.old.texts) self.new.texts ≡ self.old.texts }
        ensures game { self.new.game ≡ self.old.game }
    {
        match self.met(&objects) {
            Some(label) => Ok(label),
            None => self.look_up(alloc, objects),
        }
    }
}
