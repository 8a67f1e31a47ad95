//! Compares sets of a game's objects with the recorded names of cells.

ghost use Rattle.std.specs.Prelude.{◌≡◌, ◌<◌, [], length, slice_index_or, slice_set, true, None, Some};
ghost use Rattle.std.specs.List.{list_all};
ghost use Rattle.std.specs.Str.{bytes_eq};
ghost use Rattle.pz_sets.specs.Sets.{member};
ghost use Rattle.pz_record.specs.CellNames.{has_name};
ghost use Rattle.pz_level_text.specs.LevelNames.{chosen_from};
ghost use Rattle.pz_level_text.specs.Naming.{has_names};

use pz_base::name::Name;
use pz_record::cell_names::CellNames;
use pz_record::recorded::Recorded;
use pz_sets::set::NumberSet;
use std::marker::Model;

/// How many sets are remembered at most.
const ROOM: usize = 8;

/// A set of objects, and a recorded cell that has its names.
#[derive(Clone, Copy)]
struct Met {
    objects: NumberSet,
    cell: usize,
}

/// The remembered sets, each at its place.
#[derive(Clone, Copy)]
struct MetSets {
    slots: [Option<Met>; ROOM],
}

impl MetSets {
    /// The set that is remembered at a place.
    fn at(&self, place: usize) -> &Option<Met>
        requires { place < ROOM }
        ensures { result.now ≡ slice_index_or self.now.slots place None }
    {
        &self.slots[place]
    }

    /// Remembers a set at a place, and forgets what was there.
    fn put(&mut self, place: usize, met: Met)
        requires { place < ROOM }
        ensures { self.new.slots ≡ slice_set self.old.slots place (Some met) }
    {
        self.slots[place] = Some(met);
    }
}

/// The names of a game's objects, and those that were recorded. A set that has the names of a cell is remembered, so that it is compared
/// only once with names that many cells share.
#[derive(Drop)]
pub(crate) struct Naming<'a> {
    objects: &'a [Name],
    recorded: &'a Recorded,
    met: MetSets,
}

impl<'a> Model for Naming<'a> {
    ghost use Rattle.std.specs.Prelude.{IfSome};
    ghost use Rattle.std.specs.List.{All};
    ghost use Rattle.pz_level_text.specs.Naming.{NamingView, IsNamedAs};

    ghost Value = { NamingView };

    ghost view = { λ n. record { objects = n.objects.now; recorded = n.recorded.now } };

    ghost invariant = { λ n. All
        (λ slot. IfSome slot (λ met. IsNamedAs n.objects.now n.recorded.now met.objects met.cell)) n.met.slots };
}

fn is_named(object: &Name, name: &[u8]) -> bool
    ensures { result ≡ bytes_eq name.now object.now }
{
    name == object.as_str().as_bytes()
}

/// Whether an object of this name is in the set.
fn has_named(objects: &[Name], standing: &NumberSet, name: &[u8]) -> bool
    ensures { result ≡ has_name (chosen_from (member standing.now) 0 objects.now) name.now }
{
    for (object, held) in objects.iter().enumerate() {
        if standing.contains(object) && is_named(held, name) {
            return true;
        }
    }
    false
}

/// Whether each object of the set has one of the names.
fn is_within(objects: &[Name], standing: &NumberSet, names: &CellNames) -> bool
    ensures { result ≡ list_all (has_name names.now) (chosen_from (member standing.now) 0 objects.now) }
{
    for (object, held) in objects.iter().enumerate() {
        if standing.contains(object) && !names.contains(held.as_str().as_bytes()) {
            return false;
        }
    }
    true
}

fn has_each(objects: &[Name], standing: &NumberSet, names: &[Vec<u8>]) -> bool
    ensures { result ≡ list_all
        (λ name. has_name (chosen_from (member standing.now) 0 objects.now) name.items) names.now }
{
    names.iter().all(|name| has_named(objects, standing, name))
}

/// Whether an object of each of the names is in the set.
fn has_all(objects: &[Name], standing: &NumberSet, names: &CellNames) -> bool
    ensures { result ≡ list_all (has_name (chosen_from (member standing.now) 0 objects.now)) names.now }
{
    has_each(objects, standing, names.names())
}

/// Whether the objects of the set have these names, and no others.
#[tactic(auto, using(pz_record::proofs::Sets::same_as_set))]
fn has_names(objects: &[Name], standing: &NumberSet, names: &CellNames) -> bool
    ensures { result ≡ has_names objects.now standing.now names.now }
{
    is_within(objects, standing, names) && has_all(objects, standing, names)
}

/// The place of a set. It depends on the last object of the set with a number below 128.
fn place_of(objects: &NumberSet) -> usize
    ensures { result < ROOM }
{
    objects.words()[0].leading_zeros() as usize % ROOM
}

impl<'a> Naming<'a> {
    pub(crate) fn new(objects: &'a [Name], recorded: &'a Recorded) -> Naming<'a>
        ensures { result ≡ record { objects = objects.entry.now; recorded = recorded.entry.now } }
    {
        Naming {
            objects,
            recorded,
            met: MetSets {
                slots: [None; ROOM],
            },
        }
    }

    /// Whether it is remembered that a set has the names of a cell.
    fn is_met(&self, objects: &NumberSet, cell: usize) -> bool
        requires { cell < length self.now.recorded }
        ensures { (result ≡ true) →
            has_names self.now.objects objects.now (slice_index_or self.now.recorded cell []) ≡ true }
    {
        let place = place_of(objects);
        match self.met.at(place) {
            Some(met) => met.objects.same(objects) && self.recorded.share_names(met.cell, cell),
            None => false,
        }
    }

    /// Remembers that a set has the names of a cell.
    fn keep(&mut self, objects: NumberSet, cell: usize)
        requires within { cell < length self.old.recorded }
        requires named { has_names self.old.objects objects (slice_index_or self.old.recorded cell []) ≡ true }
        ensures { self.new ≡ self.old }
    {
        let place = place_of(&objects);
        self.met.put(place, Met { objects, cell });
    }

    /// Whether a set of objects has the names of a cell.
    pub(crate) fn has(&mut self, objects: NumberSet, cell: usize) -> bool
        requires { cell < length self.old.recorded }
        ensures named { result ≡ has_names self.old.objects objects (slice_index_or self.old.recorded cell []) }
        ensures same { self.new ≡ self.old }
    {
        if self.is_met(&objects, cell) {
            return true;
        }
        let holds = has_names(self.objects, &objects, self.recorded.names(cell));
        if holds {
            self.keep(objects, cell);
        }
        holds
    }
}
