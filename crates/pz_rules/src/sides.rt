//! What runs before the movement, and what runs after it.

ghost use Rattle.std.specs.Prelude.{◌≡◌, ◌++◌, ◌∷◌, [], OnOk};
ghost use Rattle.pz_rules.specs.Sides.{side_added};

use pz_base::listed::Listed;
use std::alloc::{AllocError, Global};
use std::marker::Model;

/// A list that grows at its end, which contracts see as the list of its items.
#[derive(Drop)]
pub struct Growing<T> {
    items: Vec<T>,
}

impl<T> Model for Growing<T> {
    ghost use Rattle.std.specs.Prelude.{List};

    ghost Value = { List T };

    ghost view = { λ g. g.items.items };
}

impl<T> Growing<T> {
    pub fn new(alloc: Global) -> Growing<T>
        ensures { result ≡ [] }
    {
        Growing {
            items: Vec::new(alloc),
        }
    }

    pub fn into_listed(self) -> Listed<T>
        ensures { result ≡ self }
    {
        let Growing { items } = self;
        Listed::new(items)
    }
}

impl<T: Drop> Growing<T> {
    pub fn push(&mut self, value: T) -> Result<(), AllocError>
        ensures { OnOk result (self.new ≡ self.old ++ value ∷ []) }
    {
        self.items.push(value)?;
        Ok(())
    }
}

/// What runs before the movement, and what runs after it.
#[derive(Drop)]
pub struct Sides<T> {
    pub early: Growing<T>,
    pub late: Growing<T>,
}

/// Two empty sides.
pub fn no_sides<T>(alloc: Global) -> Sides<T>
    ensures { result ≡ record { early = []; late = [] } }
{
    Sides {
        early: Growing::new(alloc),
        late: Growing::new(alloc),
    }
}

/// Adds one more to one of the sides.
#[tactic(auto, unfolding(crate::specs::Sides::side_added))]
pub fn add_to_side<T: Drop>(sides: &mut Sides<T>, is_late: bool, value: T) -> Result<(), AllocError>
    ensures { OnOk result (sides.new ≡ side_added sides.old is_late value) }
{
    if is_late {
        sides.late.push(value)
    } else {
        sides.early.push(value)
    }
}
