//! Gates, which a worker asks before each item that it sends.

ghost use Rattle.std.specs.Prelude.{ℕ, IsTrue, IsFalse};

/// Asked before each item, the close included. If it answers false, the worker that asked ends. It may answer one thing now and
/// another later. Each gate says what it may answer of an item.
pub trait Gate {
    /// The gate may answer true for this item of this session.
    ghost may_pass: { Self → ℕ → ℕ → Type 0 };

    /// The gate may answer false for this item of this session.
    ghost may_stop: { Self → ℕ → ℕ → Type 0 };

    /// Whether the item of this number may be sent, items of a session being counted from 0.
    fn pass(&self, session: usize, item: u64) -> bool
        ensures passes { IsTrue result → may_pass self.now session item }
        ensures stops { IsFalse result → may_stop self.now session item };
}

/// The gate that is always open.
#[derive(Clone, Copy)]
pub struct Always;

impl Gate for Always {
    ghost may_pass = { λ _ session item. Unit {0} };

    ghost may_stop = { λ _ session item. ⊥ };

    fn pass(&self, session: usize, item: u64) -> bool {
        true
    }
}
