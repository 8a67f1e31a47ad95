//! The inputs of a session.

ghost use Rattle.std.specs.Prelude.{◌≡◌, ◌≤◌, length};

use pz_game::direction::Dir;
use std::marker::Model;

/// The most inputs that a session may have. Rule `file.inputs`.
pub const MOST_INPUTS: usize = 65_536;

/// Promises the limit as a number, so that changing the constant alone breaks a proof.
pub fn inputs_are_limited()
    ensures { MOST_INPUTS ≡ 65_536 }
{}

/// An input of a session: a press (a direction or the action), undo, restart, or a tick.
#[derive(Clone, Copy, Debug, PartialEq, Eq)]
pub enum Input {
    Press(Dir),
    Undo,
    Restart,
    Tick,
}

/// The inputs of a session, at most `MOST_INPUTS`. Contracts see them as a list.
#[derive(Drop)]
pub struct Inputs {
    items: Vec<Input>,
}

impl Model for Inputs {
    ghost use Rattle.std.specs.Prelude.{List, ◌≤◌, length};
    ghost use Rattle.pz_record.specs.declared.input.Input.{Input};
    ghost use Rattle.pz_record.specs.declared.input.TheConstants.{MOST_INPUTS};

    ghost Value = { List Input };

    ghost view = { λ i. i.items.items };

    ghost invariant = { λ i. length i.items.items ≤ MOST_INPUTS };
}

impl Inputs {
    pub fn new(items: Vec<Input>) -> Inputs
        requires { length items.items ≤ MOST_INPUTS }
        ensures { result ≡ items.items }
    {
        Inputs { items }
    }

    pub fn items(&self) -> &[Input]
        ensures items { result.now ≡ self.now }
        ensures few { length self.now ≤ MOST_INPUTS }
    {
        self.items.as_slice()
    }
}
