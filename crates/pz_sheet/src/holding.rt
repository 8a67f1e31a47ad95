//! Which cells hold one of some objects.

ghost use Rattle.std.specs.Prelude.{◌≡◌, ◌<◌, ℕ, ◌&&◌, ◌||◌, nat_eq, nat_lt, length};
ghost use Rattle.std.specs.List.{list_any, list_all};
ghost use Rattle.pz_sets.specs.Sets.{member};
ghost use Rattle.pz_sets.specs.declared.set.TheConstants.{CAPACITY};
ghost use Rattle.pz_sheet.specs.Holding.{IsSetFor};
ghost use Rattle.pz_sheet.specs.Presence.{cell_of, holds_one, holds_both, holds_if};

use crate::Sheet;
use pz_sets::set::{CAPACITY, NumberSet};
use pz_sets::words::is_disjoint;

impl<const N: usize> Sheet<N> {
    /// Whether some cell holds both one of `objects` and one of `others`.
    pub fn some_holds(&self, objects: &[usize], others: &[usize]) -> bool
        ensures { result ≡ list_any (holds_both objects.now others.now) self.now.grid.cells }
    {
        let set = set_of(objects);
        let other_set = set_of(others);
        for index in 0..self.cell_count() {
            if self.holds_one(index, objects, &set) && self.holds_one(index, others, &other_set) {
                return true;
            }
        }
        false
    }

    /// Whether each cell that holds one of `objects` also holds one of `others`.
    pub fn all_hold(&self, objects: &[usize], others: &[usize]) -> bool
        ensures { result ≡ list_all (holds_if objects.now others.now) self.now.grid.cells }
    {
        let set = set_of(objects);
        let other_set = set_of(others);
        for index in 0..self.cell_count() {
            if self.holds_one(index, objects, &set) && !self.holds_one(index, others, &other_set) {
                return false;
            }
        }
        true
    }

    /// Whether the cell of this number holds one of `objects`. `set` has the same objects.
    fn holds_one(&self, index: usize, objects: &[usize], set: &NumberSet) -> bool
        requires within { index < length self.now.grid.cells }
        requires set { IsSetFor objects.now set.now }
        ensures { result ≡ holds_one objects.now (cell_of self.now.grid index) }
    {
        !is_disjoint(set.words(), self.objects_in(index))
    }
}

/// The set of these objects. Numbers that no game's object has are left out.
pub(crate) fn set_of(objects: &[usize]) -> NumberSet
    ensures { IsSetFor objects.now result }
{
    let mut set = NumberSet::empty();
    for object in objects {
        add(&mut set, *object);
    }
    set
}

fn add(set: &mut NumberSet, object: usize)
    ensures { (other : ℕ) → member set.new other ≡
        ((nat_lt object CAPACITY && nat_eq other object) || member set.old other) }
{
    if object < CAPACITY {
        set.insert(object);
    }
}
