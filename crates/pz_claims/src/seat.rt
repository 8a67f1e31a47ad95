//! The seats of a claim table, and those that have ended.

use crate::view::View;
use atomic_table::Seat as Token;
use std::marker::Model;

/// A seat, which may claim.
#[derive(Drop)]
pub struct Seat {
    pub(crate) token: Token<(), View>,
}

impl Model for Seat {
    ghost use Rattle.std.specs.Prelude.{◌≡◌, []};
    ghost use Rattle.pz_claims.specs.Holders.{Holding};
    ghost use Rattle.pz_claims.specs.View.{total_of, numbers_of};
    ghost use Rattle.pz_claims.specs.declared.view.View.TheVariants.{Claiming};

    ghost Value = { Holding };

    ghost view = { λ s. record {
      of = record { table = s.token.table_id; total = total_of s.token.me.0 };
      numbers = numbers_of s.token.me.0;
    } };

    ghost invariant = { λ s. s.token.me ≡ (Claiming (total_of s.token.me.0) (numbers_of s.token.me.0), []) };
}

/// A seat that has ended: it found the word at the number of numbers or above, so every number was claimed by then.
#[derive(Drop)]
pub struct Ended {
    pub(crate) token: Token<(), View>,
}

impl Model for Ended {
    ghost use Rattle.std.specs.Prelude.{◌≡◌, ◌≤◌, []};
    ghost use Rattle.pz_claims.specs.Holders.{Ending};
    ghost use Rattle.pz_claims.specs.View.{total_of, numbers_of, found_of};
    ghost use Rattle.pz_claims.specs.declared.view.View.TheVariants.{Ended};

    ghost Value = { Ending };

    ghost view = { λ e. record {
      of = record { table = e.token.table_id; total = total_of e.token.me.0 };
      numbers = numbers_of e.token.me.0;
      found = found_of e.token.me.0;
    } };

    ghost invariant = { λ e. (e.token.me ≡
        (Ended (total_of e.token.me.0) (numbers_of e.token.me.0) (found_of e.token.me.0), [])) ×
        (total_of e.token.me.0 ≤ found_of e.token.me.0) };
}
