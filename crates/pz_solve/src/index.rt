//! Where digests were noted.

ghost use Rattle.std.specs.Prelude.{◌≡◌, ◌<◌, [], ◌∷◌, ◌++◌, length, OnOk, OnErr, Some, slice_get};
ghost use Rattle.pz_solve.specs.Indexed.{IsNewest};

use std::alloc::{AllocError, Global};
use std::collections::HashMap;
use std::marker::Model;

/// Digests in order, with the newest place of each, and for each place the one before it with the same digest.
pub struct Index {
    digests: Vec<u64>,
    olders: Vec<Option<usize>>,
    newest: HashMap<u64, usize>,
}

/// Written out, so that each place where one goes out of scope is one call.
impl Drop for Index {
    fn drop(self) {
        let Index {
            digests,
            olders,
            newest,
        } = self;
        drop(digests);
        drop(olders);
        drop(newest);
    }
}

impl Model for Index {
    ghost use Rattle.std.specs.Prelude.{List, ℕ, nat_eq};
    ghost use Rattle.std.specs.HashMap.{get};
    ghost use Rattle.pz_solve.specs.Indexed.{IsIndexed};

    ghost Value = { List ℕ };

    ghost view = { λ x. x.digests.items };

    ghost invariant = { λ x. IsIndexed x.digests.items x.olders.items (get nat_eq x.newest) };
}

impl Index {
    /// No digests.
    pub(crate) fn new(alloc: Global) -> Index
        ensures { result ≡ [] }
    {
        Index {
            digests: Vec::new(alloc),
            olders: Vec::new(alloc),
            newest: HashMap::new(alloc),
        }
    }

    /// The digest of a place.
    pub(crate) fn digest(&self, place: usize) -> u64
        requires { place < length self.now }
        ensures { slice_get self.now place ≡ Some result }
    {
        self.digests[place]
    }

    /// The last place of a digest.
    pub(crate) fn newest(&self, digest: u64) -> Option<usize>
        ensures { IsNewest self.now (length self.now) digest result }
    {
        self.newest.get(&digest).copied()
    }

    /// The last place of a digest before one that has it.
    pub(crate) fn older(&self, place: usize, digest: u64) -> Option<usize>
        requires { slice_get self.now place ≡ Some digest }
        ensures { IsNewest self.now place digest result }
    {
        self.olders[place]
    }

    /// Adds a digest. Err: memory was refused.
    pub(crate) fn push(&mut self, digest: u64) -> Result<(), AllocError>
        ensures ok { OnOk result (self.new ≡ self.old ++ digest ∷ []) }
        ensures err { OnErr result (self.new ≡ self.old) }
    {
        let place = self.digests.len();
        let older = self.newest.get(&digest).copied();
        self.digests.push(digest)?;
        if self.olders.push(older).is_err() {
            self.digests.pop();
            return Err(AllocError);
        }
        if self.newest.insert(digest, place).is_err() {
            self.digests.pop();
            self.olders.pop();
            return Err(AllocError);
        }
        Ok(())
    }
}
