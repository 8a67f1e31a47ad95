//! The entries of LEVELS.

ghost use Rattle.std.specs.Prelude.{◌≡◌};
ghost use Rattle.pz_game.specs.Drawing.{IsDrawing};

use pz_base::listed::Listed;
use std::marker::Model;

/// A level as its rows draw it: for each cell, row by row, the number of its glyph's name.
#[derive(Drop)]
pub struct DrawnLevel {
    width: u32,
    height: u32,
    cells: Listed<usize>,
}

impl Model for DrawnLevel {
    ghost use Rattle.pz_game.specs.Drawing.{Drawing, IsDrawing};

    ghost Value = { Drawing };

    ghost view = { λ d. record { width = d.width; height = d.height; cells = d.cells } };

    ghost invariant = { λ d. IsDrawing (record { width = d.width; height = d.height; cells = d.cells }) };
}

impl DrawnLevel {
    pub fn new(width: u32, height: u32, cells: Listed<usize>) -> DrawnLevel
        requires { IsDrawing (record { width = width; height = height; cells = cells }) }
        ensures { result ≡ record { width = width; height = height; cells = cells } }
    {
        DrawnLevel {
            width,
            height,
            cells,
        }
    }

    pub fn width(&self) -> u32
        ensures width { result ≡ self.now.width }
        ensures drawing { IsDrawing self.now }
    {
        self.width
    }

    pub fn height(&self) -> u32
        ensures height { result ≡ self.now.height }
        ensures drawing { IsDrawing self.now }
    {
        self.height
    }

    /// The numbers of the glyphs' names, row by row.
    pub fn cells(&self) -> &[usize]
        ensures cells { result.now ≡ self.now.cells }
        ensures drawing { IsDrawing self.now }
    {
        self.cells.items()
    }
}

/// An entry of LEVELS: a message, which is not played, or a level.
#[derive(Drop)]
pub enum LevelEntry {
    Message,
    Level(DrawnLevel),
}

impl LevelEntry {
    ghost use Rattle.pz_game.specs.Level.{is_playable};

    /// Whether the entry is a level.
    pub fn playable(&self) -> bool
        ensures { result ≡ is_playable self.now }
    {
        match self {
            LevelEntry::Message => false,
            LevelEntry::Level(_) => true,
        }
    }
}
