//! A law of sets of commands, which a function without a body ensures.

ghost use Rattle.pz_plan.specs.Laws.{UnionsHoldEither};

/// A union holds exactly the flags that one of the two sets holds.
pub fn unions_hold_what_either_holds()
    ensures { UnionsHoldEither }
{}
