//! How much may be recorded.

ghost use Rattle.std.specs.Prelude.{◌≡◌};

/// The most entries that a sessions file may have. Rule `file.list`.
pub const MOST_ENTRIES: usize = 65_536;

/// Promises the limit as a number, so that changing the constant alone breaks a proof.
pub fn files_are_limited()
    ensures { MOST_ENTRIES ≡ 65_536 }
{}
