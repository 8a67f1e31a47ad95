//! The limits of a game.

ghost use Rattle.std.specs.Prelude.{◌≡◌};

/// The most objects that a source may have. Rule `limits.objects`.
pub const MOST_OBJECTS: usize = 512;

/// The most layers that a source may have. Rule `limits.layers`.
pub const MOST_LAYERS: usize = 100;

/// The most columns and rows that a level may have. Rule `limits.sides`.
pub const MOST_SIDE: usize = 255;

/// The most cells that a level may have. Rule `limits.cells`.
pub const MOST_CELLS: usize = 16_384;

/// The most cells that a row of a rule may have. Rule `limits.row-cells`.
pub const MOST_ROW_CELLS: usize = 64;

/// The most rows that a side of a rule may have. Rule `limits.rows`.
pub const MOST_ROWS: usize = 8;

/// Promises the limits as numbers, so that changing a constant alone breaks a proof.
pub fn games_are_limited()
    ensures objects { MOST_OBJECTS ≡ 512 }
    ensures layers { MOST_LAYERS ≡ 100 }
    ensures side { MOST_SIDE ≡ 255 }
    ensures cells { MOST_CELLS ≡ 16_384 }
    ensures row_cells { MOST_ROW_CELLS ≡ 64 }
    ensures rows { MOST_ROWS ≡ 8 }
{}
