//! Pieces: objects that stand somewhere.

ghost use Rattle.std.specs.Prelude.{◌≡◌};
ghost use Rattle.pz_cells.specs.Cell.{still_piece};

use pz_game::direction::Dir;

/// An object in a cell, by its number, and where it heads. `None`: it is still.
#[derive(Clone, Copy)]
pub struct Piece {
    pub object: u16,
    pub heading: Option<Dir>,
}

/// A piece that heads somewhere, and its layer.
#[derive(Clone, Copy)]
pub struct Mover {
    pub layer: usize,
    pub object: u16,
    pub dir: Dir,
}

impl Piece {
    /// The object, still.
    pub fn still(object: u16) -> Piece
        ensures { result ≡ still_piece object }
    {
        Piece {
            object,
            heading: None,
        }
    }
}
