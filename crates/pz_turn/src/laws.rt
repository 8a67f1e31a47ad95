//! Laws of turns. Each is what a function without a body ensures.

ghost use Rattle.std.specs.Prelude.{◌≡◌};
ghost use Rattle.pz_turn.specs.declared.applying.TheConstants.{COMBINATION_LIMIT};
ghost use Rattle.pz_turn.specs.declared.resting.TheConstants.{PASSES};
ghost use Rattle.pz_turn.specs.Laws.{IsCounted, QuietPassLeaves, RestLasts, NeverEndsForMemory};

/// The number of combinations is the product of the numbers of places.
pub fn combinations_are_counted()
    ensures { IsCounted }
{}

/// A pass of a group that changes nothing leaves the level as it was.
pub fn quiet_pass_leaves()
    ensures { QuietPassLeaves }
{}

/// A group that has come to rest stays at rest: one more pass changes nothing.
pub fn rest_lasts()
    ensures { RestLasts }
{}

/// By its definition no step ends with want of memory. Only a call can.
pub fn steps_never_end_for_memory()
    ensures { NeverEndsForMemory }
{}

/// Promises the limits of combinations and of passes as numbers, so that changing a constant alone breaks a proof.
pub fn turns_are_limited()
    ensures combinations { COMBINATION_LIMIT ≡ 1_048_576 }
    ensures passes { PASSES ≡ 200 }
{}
