//! The maker of the seats of a claim table.

ghost use Rattle.std.specs.Prelude.{◌≡◌};

use crate::view::View;
use atomic_table::Seat as Token;
use std::marker::Model;

/// Makes the seats of a table, and takes in those that have ended. A table has one maker.
#[derive(Drop)]
pub struct Maker {
    pub(crate) token: Token<(), View>,
    pub(crate) made: usize,
}

impl Model for Maker {
    ghost use Rattle.std.specs.Prelude.{◌≡◌, []};
    ghost use Rattle.pz_claims.specs.Holders.{Makes};
    ghost use Rattle.pz_claims.specs.View.{total_of, numbers_of, joined_of};
    ghost use Rattle.pz_claims.specs.declared.view.View.TheVariants.{Making};

    ghost Value = { Makes };

    ghost view = { λ m. record {
      of = record { table = m.token.table_id; total = total_of m.token.me.0 };
      numbers = numbers_of m.token.me.0;
      made = m.made;
      joined = joined_of m.token.me.0;
    } };

    ghost invariant = { λ m. (m.token.me ≡
        (Making (total_of m.token.me.0) (numbers_of m.token.me.0) m.made (joined_of m.token.me.0), [])) ×
        (joined_of m.token.me.0 ≡ 0 → numbers_of m.token.me.0 ≡ []) };
}

impl Maker {
    /// How many seats were made.
    pub fn made(&self) -> usize
        ensures { result ≡ self.now.made }
    {
        self.made
    }
}
