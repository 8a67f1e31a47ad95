//! Draws levels and fills their background.

ghost use Rattle.std.specs.Prelude.{◌≡◌, ◌≤◌, ◌<◌, IfOk, All, length, slice_index};
ghost use Rattle.pz_sheet.specs.Grid.{IsLawful};
ghost use Rattle.pz_sheet.specs.Loading.{IsRoomFor, drawn_level, with_piece_everywhere};

use crate::Sheet;
use crate::noting::{note_all, noted, renew_notes};
use pz_cells::drawing::{fill_cells, glyph_cells};
use pz_cells::layers::Layers;
use pz_cells::piece::Piece;
use pz_game::game::Game;
use pz_game::level::DrawnLevel;
use std::alloc::{AllocError, Global};

impl<const N: usize> Sheet<N> {
    /// The level of a drawing, before its background is filled. `N` words must be enough for the game. Err: memory was refused.
    pub fn drawn(alloc: Global, game: &Game, drawing: &DrawnLevel) -> Result<Sheet<N>, AllocError>
        requires short { N ≤ 4 }
        requires room { IsRoomFor N game.now }
        requires numbers { All (λ number. number < length game.now.values) drawing.now.cells }
        ensures { IfOk result (λ sheet. sheet.grid ≡ drawn_level game.now drawing.now) }
    {
        let layers = Layers::of_game(alloc, game)?;
        let cells = glyph_cells(alloc, game, &layers, drawing.cells())?;
        let width = drawing.width();
        let height = drawing.height();
        let (notes, planes) = noted(alloc, &layers, width as usize, height as usize, &cells)?;
        Ok(Sheet {
            width,
            height,
            layers,
            cells,
            notes,
            planes,
        })
    }

    /// Puts a piece on a layer, in each cell where nothing stands on it.
    pub fn fill(&mut self, layer: usize, piece: Piece)
        requires on_layer { (piece.object < length self.old.grid.layers) ×
            (slice_index self.old.grid.layers piece.object ≡ layer) }
        ensures filled { self.new.grid ≡ with_piece_everywhere layer piece self.old.grid }
        ensures lawful { IsLawful self.new.grid }
    {
        fill_cells(&mut self.cells, &self.layers, layer, piece);
        renew_notes(&mut self.notes, &self.layers, &self.cells);
        note_all(&mut self.planes, &self.cells);
    }
}
