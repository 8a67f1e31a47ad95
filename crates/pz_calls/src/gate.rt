//! A gate that is closed to one item.

ghost use Rattle.std.specs.Prelude.{◌≡◌};

use pz_replay::Gate;

/// Closed to one item of one session.
#[derive(Clone, Copy)]
pub(crate) struct ClosedTo {
    pub(crate) session: usize,
    pub(crate) item: u64,
}

impl Gate for ClosedTo {
    ghost may_pass = { λ _ session item. Unit {0} };

    ghost may_stop = { λ gate session item. (session ≡ gate.session) × (item ≡ gate.item) };

    fn pass(&self, session: usize, item: u64) -> bool {
        (session, item) != (self.session, self.item)
    }
}
