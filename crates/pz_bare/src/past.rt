//! The past of a session.

ghost use Rattle.std.specs.Prelude.{◌≡◌, ◌<◌, List, [], ◌∷◌, ◌++◌, IfOk, OnOk, OnErr, MatchOption, drop, vec_len, vec_capacity};

use crate::BareLevel;
use crate::older::{Older, copied};
use std::alloc::{AllocError, Global};
use std::marker::Model;

/// The levels that undo takes back, from the newest to the oldest. The newest is kept whole. Of each older one only the cells are kept in
/// which it differs from the next newer one.
pub struct Past {
    newest: Option<BareLevel>,
    before: Vec<Older>,
}

/// Written out: where one goes out of scope, the prover then sees one call.
impl Drop for Past {
    fn drop(self) {
        let Past { newest, before } = self;
        drop(newest);
        drop(before);
    }
}

impl Model for Past {
    ghost use Rattle.std.specs.Prelude.{List, reverse};
    ghost use Rattle.pz_sheet.specs.Grid.{Grid};
    ghost use Rattle.pz_bare.specs.Past.{grids_of, IsPast};

    ghost Value = { List Grid };

    ghost view = { λ p. grids_of p.newest (reverse p.before.items) };

    ghost invariant = { λ p. IsPast p.newest (reverse p.before.items) };
}

impl Past {
    /// An empty past.
    pub fn new(alloc: Global) -> Past
        ensures { result ≡ [] }
    {
        Past {
            newest: None,
            before: Vec::new(alloc),
        }
    }

    /// A copy. Err: memory was refused.
    pub fn copy(&self) -> Result<Past, AllocError>
        ensures { IfOk result (λ past. past ≡ self.now) }
    {
        let before = copied(*self.before.allocator(), &self.before)?;
        let newest = match &self.newest {
            Some(newest) => Some(newest.copy()?),
            None => None,
        };
        Ok(Past { newest, before })
    }

    /// Forgets all levels.
    pub fn clear(&mut self)
        ensures { self.new ≡ [] }
    {
        self.newest = None;
        self.before.clear();
    }

    /// Adds a level as the newest. Err: memory was refused, and the past is unchanged.
    pub fn push(&mut self, level: &BareLevel) -> Result<(), AllocError>
        ensures pushed { OnOk result (self.new ≡ level.now.grid ∷ self.old) }
        ensures kept { OnErr result (self.new ≡ self.old) }
    {
        // (nothing is refused any more once the newest is another)
        self.before.reserve(1)?;
        if let Some(newest) = &mut self.newest {
            let way = newest.go_on(*self.before.allocator(), level)?;
            put_last(&mut self.before, way);
            return Ok(());
        }
        self.newest = Some(level.copy()?);
        Ok(())
    }

    /// The newest level, if there is one.
    pub fn newest(&self) -> Option<&BareLevel>
        ensures { MatchOption result (self.now ≡ []) (λ newest. self.now ≡ newest.now.grid ∷ drop 1 self.now) }
    {
        self.newest.as_ref()
    }

    /// Forgets the newest level, if there is one.
    pub fn forget(&mut self)
        ensures { self.new ≡ drop 1 self.old }
    {
        match self.before.pop() {
            None => self.newest = None,
            Some(way) => match &mut self.newest {
                Some(newest) => newest.give_back(way),
                None => unreachable!(),
            },
        }
    }
}

/// Adds a way after the others. There must be room for it.
fn put_last(ways: &mut Vec<Older>, way: Older)
    requires { vec_len ways.old < vec_capacity ways.old }
    ensures { ways.new.items ≡ ways.old.items ++ way ∷ [] }
{
    match ways.push(way) {
        Ok(()) => {}
        Err(_) => unreachable!(),
    }
}
