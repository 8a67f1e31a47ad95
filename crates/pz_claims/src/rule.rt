//! The rule of a claim table, and the steps that its holders take by it.

use crate::view::View;
use atomic_table::{Join, Play, Split, TableRule};

/// The rule that binds the word to the views of all holders.
pub struct Law;

impl TableRule<(), View, u64> for Law {
    ghost use Rattle.std.specs.Prelude.{[]};
    ghost use Rattle.pz_claims.specs.Rule.{IsLawful};
    ghost use Rattle.pz_claims.specs.declared.view.View.TheVariants.{Making};

    ghost holds = { IsLawful };

    ghost first = { λ total. Making total [] 0 0 };
}

/// A seat adds one to the word.
pub struct Claiming;

impl Play<(), View> for Claiming {
    ghost use Rattle.pz_claims.specs.Steps.{ClaimTells};

    ghost then = { ClaimTells };
}

/// A holder adds nothing to the word, and so learns what the rule says of its numbers.
pub struct Looking;

impl Play<(), View> for Looking {
    ghost use Rattle.pz_claims.specs.Steps.{LookTells};

    ghost then = { LookTells };
}

/// The maker makes a seat, or takes in one that has ended.
pub struct Seating;

impl Split<View> for Seating {
    ghost use Rattle.pz_claims.specs.Steps.{one_more, new_seat};

    ghost left = { one_more };

    ghost right = { new_seat };
}

impl Join<View> for Seating {
    ghost use Rattle.pz_claims.specs.Steps.{with_ended};
    ghost use Rattle.pz_claims.specs.declared.view.View.TheVariants.{Spent};

    ghost both = { with_ended };

    ghost spent = { Spent };
}
