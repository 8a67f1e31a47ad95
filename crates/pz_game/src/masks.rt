//! The items of a rule's cell as sets, which are made once and looked at often.

ghost use Rattle.std.specs.Prelude.{◌≡◌, [], ℕ, ◌<◌, ◌&&◌, ◌||◌, nat_eq, not, All};
ghost use Rattle.pz_sets.specs.Sets.{member};
ghost use Rattle.pz_sets.specs.declared.set.TheConstants.{CAPACITY};
ghost use Rattle.pz_game.specs.declared.direction.Dir.{Dir};
ghost use Rattle.pz_game.specs.Direction.{same_dir};
ghost use Rattle.pz_game.specs.Headings.{is_toward, heads, IsProper};
ghost use Rattle.pz_game.specs.Items.{names, tells_movement};
ghost use Rattle.pz_game.specs.Masks.{is_still, toward, IsLow, IsAdded, AreMasksOf};

use crate::direction::Dir;
use crate::headings::flag;
use crate::limits::MOST_LAYERS;
use crate::pattern::{Item, Word};
use pz_sets::set::{CAPACITY, NumberSet};

/// What the items of a cell say. Of a left cell: the objects that must be present and absent, the directions that layers must and
/// must not head in, and the layers for which it has a movement word. Of a right cell: the layers on which it places something
/// (as numbers, and with all their directions), the objects that it places, the layers whose movement it ends, and the directions
/// that it begins.
#[derive(Clone, Copy)]
pub struct Masks {
    pub present: NumberSet,
    pub absent: NumberSet,
    pub required: NumberSet,
    pub forbidden: NumberSet,
    pub told: NumberSet,
    pub layers: NumberSet,
    pub placed: NumberSet,
    pub covered: NumberSet,
    pub settled: NumberSet,
    pub headed: NumberSet,
}

/// Whether an item under this word names its object as present.
pub fn names(word: Word) -> bool
    ensures { result ≡ names word }
{
    match word {
        Word::Absent => false,
        Word::Present | Word::Still | Word::Toward(_) => true,
    }
}

/// Whether this word tells how its object moves.
pub fn tells_movement(word: Word) -> bool
    ensures { result ≡ tells_movement word }
{
    match word {
        Word::Still | Word::Toward(_) => true,
        Word::Present | Word::Absent => false,
    }
}

fn is_still(word: Word) -> bool
    ensures { result ≡ is_still word }
{
    match word {
        Word::Still => true,
        Word::Toward(_) | Word::Present | Word::Absent => false,
    }
}

/// The direction of a word, if a test holds.
fn toward(test: bool, word: Word) -> Option<Dir>
    ensures { result ≡ toward test word }
{
    match word {
        Word::Toward(dir) if test => Some(dir),
        _ => None,
    }
}

/// Adds a number, if a test holds.
fn insert_if(set: &mut NumberSet, test: bool, number: usize)
    requires { number < CAPACITY }
    ensures { (other : ℕ) → member set.new other ≡ ((test && nat_eq other number) || member set.old other) }
{
    if test {
        set.insert(number);
    }
}

/// Adds a direction of a layer.
fn add(set: &mut NumberSet, layer: usize, dir: Dir)
    requires { layer < MOST_LAYERS }
    ensures heads { (other : ℕ) (way : Dir) →
        heads set.new other way ≡ ((nat_eq other layer && same_dir dir way) || heads set.old other way) }
    ensures proper { IsProper set.old → IsProper set.new }
{
    set.insert(flag(layer, dir));
}

/// Adds all directions of a layer.
fn fill(set: &mut NumberSet, layer: usize)
    requires { layer < MOST_LAYERS }
    ensures heads { (other : ℕ) (way : Dir) →
        heads set.new other way ≡ (nat_eq other layer || heads set.old other way) }
    ensures proper { IsProper set.old → IsProper set.new }
{
    add(set, layer, Dir::Up);
    add(set, layer, Dir::Down);
    add(set, layer, Dir::Left);
    add(set, layer, Dir::Right);
    add(set, layer, Dir::Action);
}

/// Adds all directions of a layer, if a test holds.
fn fill_if(set: &mut NumberSet, test: bool, layer: usize)
    requires { layer < MOST_LAYERS }
    ensures heads { (other : ℕ) (way : Dir) →
        heads set.new other way ≡ ((test && nat_eq other layer) || heads set.old other way) }
    ensures proper { IsProper set.old → IsProper set.new }
{
    if test {
        fill(set, layer);
    }
}

/// Adds a direction of a layer, if there is one.
fn add_if(set: &mut NumberSet, layer: usize, heading: Option<Dir>)
    requires { layer < MOST_LAYERS }
    ensures heads { (other : ℕ) (way : Dir) →
        heads set.new other way ≡ ((nat_eq other layer && is_toward heading way) || heads set.old other way) }
    ensures proper { IsProper set.old → IsProper set.new }
{
    match heading {
        None => {}
        Some(dir) => add(set, layer, dir),
    }
}

/// Whether an item names its object as present and is the first to place something on its layer.
fn is_first(named: bool, layers: &NumberSet, layer: usize) -> bool
    ensures { result ≡ (named && not (member layers.now layer)) }
{
    named && !layers.contains(layer)
}

impl Masks {
    /// The sets of a cell without items.
    fn empty() -> Masks
        ensures { AreMasksOf [] result }
    {
        Masks {
            present: NumberSet::empty(),
            absent: NumberSet::empty(),
            required: NumberSet::empty(),
            forbidden: NumberSet::empty(),
            told: NumberSet::empty(),
            layers: NumberSet::empty(),
            placed: NumberSet::empty(),
            covered: NumberSet::empty(),
            settled: NumberSet::empty(),
            headed: NumberSet::empty(),
        }
    }

    /// Adds what one more item says.
    fn add(&mut self, item: Item)
        requires object { item.object < CAPACITY }
        requires layer { item.layer < MOST_LAYERS }
        ensures { IsAdded item self.old self.new }
    {
        let named = names(item.word);
        let first = is_first(named, &self.layers, item.layer);
        insert_if(&mut self.present, named, item.object);
        insert_if(&mut self.absent, !named, item.object);
        add_if(&mut self.required, item.layer, toward(true, item.word));
        fill_if(&mut self.forbidden, is_still(item.word), item.layer);
        fill_if(&mut self.told, tells_movement(item.word), item.layer);
        insert_if(&mut self.layers, first, item.layer);
        insert_if(&mut self.placed, first, item.object);
        fill_if(&mut self.covered, first, item.layer);
        let settles = first & tells_movement(item.word);
        fill_if(&mut self.settled, settles, item.layer);
        add_if(&mut self.headed, item.layer, toward(first, item.word));
    }

    /// Adds what one more item says, if its object and its layer are within the limits of games.
    fn add_low(&mut self, item: Item)
        ensures { IsLow item → IsAdded item self.old self.new }
    {
        if item.object < CAPACITY && item.layer < MOST_LAYERS {
            self.add(item);
        }
    }

    /// The sets of a cell of a rule, whose objects and layers are within the limits of games.
    pub fn of(items: &[Item]) -> Masks
        ensures { All IsLow items.now → AreMasksOf items.now result }
    {
        let mut masks = Masks::empty();
        for item in items {
            masks.add_low(*item);
        }
        masks
    }
}
