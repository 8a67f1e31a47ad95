//! What is needed to play a session.

ghost use Rattle.std.specs.Prelude.{◌≡◌, ◌<◌, true, length};
ghost use Rattle.std.specs.Arc.{arc_value};
ghost use Rattle.pz_game.specs.Level.{is_playable, entry_at};
ghost use Rattle.pz_case.specs.Plan.{IsPlan, plan_with};

use crate::rulebook::Rulebook;
use pz_game::game::Game;
use pz_program::instance::Program;
use pz_record::input::Inputs;
use pz_record::order::Order;
use pz_record::recorded::Recorded;
use std::marker::Model;
use std::sync::Arc;

/// A session that can be played: its game with its rules, which the sessions of one source share, the number of the entry of
/// LEVELS at which it starts, its inputs, and its recorded level with the order of that level's cells.
pub struct Plan {
    rulebook: Arc<Rulebook>,
    first: usize,
    inputs: Inputs,
    recorded: Recorded,
    order: Order,
}

/// Written out, so that dropping one is a single call everywhere.
impl Drop for Plan {
    fn drop(self) {
        let Plan {
            rulebook,
            first: _,
            inputs,
            recorded,
            order: _,
        } = self;
        drop(rulebook);
        drop(inputs);
        drop(recorded);
    }
}

impl Model for Plan {
    ghost use Rattle.std.specs.Arc.{arc_value};
    ghost use Rattle.pz_case.specs.Plan.{PlanState, IsPlan, plan_with};

    ghost Value = { PlanState };

    ghost view = { λ p. plan_with (arc_value p.rulebook) p.first p.inputs p.recorded p.order };

    ghost invariant = { λ p. IsPlan (plan_with (arc_value p.rulebook) p.first p.inputs p.recorded p.order) };
}

impl Plan {
    /// A session that starts at a level.
    pub fn new(
        rulebook: Arc<Rulebook>,
        first: usize,
        inputs: Inputs,
        recorded: Recorded,
        order: Order,
    ) -> Plan
        requires playable { is_playable (entry_at (arc_value rulebook).game first) ≡ true }
        requires within { first < length (arc_value rulebook).game.levels }
        ensures { result ≡ plan_with (arc_value rulebook) first inputs recorded order }
    {
        // (bring the proofs that the program is the game's, and that the inputs are few)
        let _ = rulebook.game();
        let _ = inputs.items();
        Plan {
            rulebook,
            first,
            inputs,
            recorded,
            order,
        }
    }

    /// Its game. What holds of every plan comes with it: the rules are the game's, it starts at a level, and its inputs are few.
    pub fn game(&self) -> &Game
        ensures game { result.now ≡ self.now.game }
        ensures plan { IsPlan self.now }
    {
        self.rulebook.game()
    }

    /// The program of its game's rules.
    pub fn program(&self) -> &Program
        ensures { result.now ≡ self.now.program }
    {
        self.rulebook.program()
    }

    /// The number of the entry of LEVELS at which it starts.
    pub fn first(&self) -> usize
        ensures { result ≡ self.now.first }
    {
        self.first
    }

    /// Its inputs, in their order.
    pub fn inputs(&self) -> &Inputs
        ensures { result.now ≡ self.now.inputs }
    {
        &self.inputs
    }

    /// Its recorded level, with which the last one is compared.
    pub fn recorded(&self) -> &Recorded
        ensures { result.now ≡ self.now.recorded }
    {
        &self.recorded
    }

    /// The order of its levels' cells in texts, and of those of the recorded level.
    pub fn order(&self) -> Order
        ensures { result ≡ self.now.order }
    {
        self.order
    }
}
