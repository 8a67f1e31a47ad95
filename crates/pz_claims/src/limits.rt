//! How much a claim table may have.

ghost use Rattle.std.specs.Prelude.{◌≡◌};

/// The most seats that are made at a table.
pub const MOST_SEATS: u64 = 64;

/// The most numbers that a table has.
pub const MOST_NUMBERS: usize = 65_536;

/// Promises the limits as numbers, so that changing a constant alone breaks a proof.
pub fn tables_are_limited()
    ensures seats { MOST_SEATS ≡ 64 }
    ensures numbers { MOST_NUMBERS ≡ 65_536 }
{}
