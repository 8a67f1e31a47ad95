//! The collision layers of a game, as the cells of its levels need them.

ghost use Rattle.std.specs.Prelude.{◌≡◌, ◌↔◌, IsTrue, ◌≤◌, ◌<◌, ◌*◌, ◌&&◌, ◌||◌, ℕ, List, IfOk, length, nat_eq, slice_index, slice_index_or};
ghost use Rattle.pz_game.specs.declared.limits.TheConstants.{MOST_OBJECTS};
ghost use Rattle.pz_game.specs.Pattern.{AreOf};
ghost use Rattle.pz_sets.specs.Sets.{member};
ghost use Rattle.pz_cells.specs.Rewrites.{is_displaced};
ghost use Rattle.pz_cells.specs.Layering.{IsLayering, layering_of};
ghost use Rattle.pz_cells.specs.Shown.{IsSetOf};

use pz_game::game::Game;
use pz_game::masks::names;
use pz_game::pattern::Item;
use pz_sets::set::NumberSet;
use std::alloc::{AllocError, Global};
use std::marker::Model;
use std::sync::Arc;

/// How many layers there are, the layer of each object, and the objects of each layer.
#[derive(Drop)]
struct Table {
    depth: usize,
    layers: Vec<usize>,
    sets: Vec<NumberSet>,
}

/// The collision layers of a game whose cells fit in `N` words: 128 objects and 25 layers for each word. Levels share them.
#[derive(Drop)]
pub struct Layers<const N: usize> {
    table: Arc<Table>,
}

impl<const N: usize> Model for Layers<N> {
    ghost use Rattle.std.specs.Arc.{arc_value};
    ghost use Rattle.pz_cells.specs.Layering.{Layering, AreLayers};

    ghost Value = { Layering };

    ghost view = { λ a. record { depth = (arc_value a.table).depth; layers = (arc_value a.table).layers.items } };

    ghost invariant = { λ a. AreLayers N
        (record { depth = (arc_value a.table).depth; layers = (arc_value a.table).layers.items })
        (arc_value a.table).sets.items };
}

impl<const N: usize> Layers<N> {
    /// The layers of a game, whose cells must fit in `N` words. Err: memory was refused.
    pub fn of_game(alloc: Global, game: &Game) -> Result<Layers<N>, AllocError>
        requires short { N ≤ 4 }
        requires room { length game.now.layers ≤ 128 * N }
        requires movement_room { game.now.depth ≤ 25 * N }
        ensures { IfOk result (λ layers. layers ≡ layering_of game.now) }
    {
        let depth = game.depth();
        let layers = Vec::from_slice(alloc, game.layers())?;
        let sets = layer_sets(alloc, depth, &layers)?;
        let table = Arc::new(
            alloc,
            Table {
                depth,
                layers,
                sets,
            },
        )?;
        Ok(Layers { table })
    }

    /// The same layers, shared. Err: memory was refused.
    pub fn share(&self) -> Result<Layers<N>, AllocError>
        ensures { IfOk result (λ layers. layers ≡ self.now) }
    {
        let table = Arc::try_clone(&self.table)?;
        Ok(Layers { table })
    }

    /// How many layers there are.
    pub fn depth(&self) -> usize
        ensures depth { result ≡ self.now.depth }
        ensures law { IsLayering N self.now }
    {
        self.table.depth
    }

    /// How many objects the game has.
    pub fn object_count(&self) -> usize
        ensures count { result ≡ length self.now.layers }
        ensures law { IsLayering N self.now }
    {
        self.table.layers.len()
    }

    /// The layer of an object.
    pub fn layer_of(&self, object: usize) -> usize
        requires { object < length self.now.layers }
        ensures layer { result ≡ slice_index self.now.layers object }
        ensures low { result < self.now.depth }
        ensures law { IsLayering N self.now }
    {
        self.table.layers[object]
    }

    /// The objects of a layer.
    pub fn objects_of(&self, layer: usize) -> &[u128]
        requires { layer < self.now.depth }
        ensures set { IsSetOf self.now.layers result.now layer }
        ensures law { IsLayering N self.now }
    {
        self.table.sets[layer].words()
    }

    /// The objects of the layers on which a right cell of a rule places something.
    pub fn displaced_by(&self, right: &[Item]) -> NumberSet
        requires { AreOf self.now.layers right.now }
        ensures objects { (object : ℕ) → object < length self.now.layers →
            member result object ≡ is_displaced self.now.layers right.now object }
        ensures law { IsLayering N self.now }
    {
        let mut objects = NumberSet::empty();
        for item in right {
            objects = union_if(&objects, names(item.word), &self.table.sets[item.layer]);
        }
        objects
    }

    /// Whether both are the same.
    pub fn equals(&self, other: &Layers<N>) -> bool
        ensures { IsTrue result ↔ ((self.now.depth ≡ other.now.depth) × (self.now.layers ≡ other.now.layers)) }
    {
        self.table.depth == other.table.depth && self.table.layers == other.table.layers
    }
}

fn insert_if(set: &mut NumberSet, number: usize, test: bool)
    requires { number < MOST_OBJECTS }
    ensures { (other : ℕ) → member set.new other ≡ ((test && nat_eq other number) || member set.old other) }
{
    if test {
        set.insert(number);
    }
}

/// The objects of a layer.
fn layer_set(layers: &[usize], layer: usize) -> NumberSet
    requires { length layers.now ≤ MOST_OBJECTS }
    ensures { IsSetOf layers.now result layer }
{
    let mut set = NumberSet::empty();
    for object in 0..layers.len() {
        insert_if(&mut set, object, layers[object] == layer);
    }
    set
}

/// The objects of each layer. Err: memory was refused.
fn layer_sets(alloc: Global, depth: usize, layers: &[usize]) -> Result<Vec<NumberSet>, AllocError>
    requires { length layers.now ≤ MOST_OBJECTS }
    ensures deep { IfOk result (λ sets. length sets.items ≡ depth) }
    ensures table { IfOk result
        (λ sets. (layer : ℕ) (other : List ℕ) → layer < length sets.items →
        IsSetOf layers.now (slice_index_or sets.items layer other) layer) }
{
    let mut sets = Vec::new(alloc);
    for layer in 0..depth {
        sets.push(layer_set(layers, layer))?;
    }
    Ok(sets)
}

/// The numbers of a set, and those of another if a test holds.
fn union_if(set: &NumberSet, test: bool, more: &NumberSet) -> NumberSet
    ensures { (number : ℕ) → member result number ≡ (member set.now number || (test && member more.now number)) }
{
    if test { set.union(more) } else { *set }
}
