//! Laws of places and of rewriting. Each is what a function without a body ensures.

ghost use Rattle.std.specs.Prelude.{◌≡◌};
ghost use Rattle.pz_grid.specs.declared.placing.TheConstants.{MATCH_LIMIT};
ghost use Rattle.pz_grid_laws.specs.RuleLaws.{ArePlaces, GaplessIsWithin, HoldsInAdmitted, RewritesLawfully, StartsAreBounded};

/// The row holds at each of its places, and each pair of a start and a gap at which it holds is one of them.
pub fn places_are_those_that_hold()
    ensures { ArePlaces }
{}

/// A rewritten cell has at most one object on a layer, each object on its own.
pub fn rewriting_is_lawful()
    ensures { RewritesLawfully }
{}

/// No place of a row starts in a line that isn't admitted. Places start in no more cells than the admitted lines have.
pub fn places_start_in_admitted_lines()
    ensures admitted { HoldsInAdmitted }
    ensures bounded { StartsAreBounded }
{}

/// A row without a gap never has more places than the limit, because it has at most one for each cell of a level.
pub fn rows_without_a_gap_are_within_the_limit()
    ensures { GaplessIsWithin }
{}

/// Promises the limit of places as a number, so that changing the constant alone breaks a proof.
pub fn places_are_limited()
    ensures { MATCH_LIMIT ≡ 1_048_576 }
{}
