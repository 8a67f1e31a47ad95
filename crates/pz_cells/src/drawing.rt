//! Draws and fills lists of cells.

ghost use Rattle.std.specs.Prelude.{◌≡◌, ◌<◌, IfOk, All, length, map, Some};
ghost use Rattle.pz_cells.specs.Cell.{IsOnLayer};
ghost use Rattle.pz_cells.specs.Drawing.{glyph_cell, filled_cell};
ghost use Rattle.pz_cells.specs.Layering.{layering_of};
ghost use Rattle.pz_cells.specs.Lists.{pieces_of_cell, IsSound, AreMapped};

use crate::cell::Cell;
use crate::layers::Layers;
use crate::piece::Piece;
use pz_game::game::Game;
use std::alloc::{AllocError, Global};

/// The cells that the glyphs of these numbers draw, in order. Err: memory was refused.
pub fn glyph_cells<const N: usize>(
    alloc: Global,
    game: &Game,
    layers: &Layers<N>,
    numbers: &[usize],
) -> Result<Vec<Cell<N>>, AllocError>
    requires of_game { layers.now ≡ layering_of game.now }
    requires numbers { All (λ number. number < length game.now.values) numbers.now }
    ensures sound { IfOk result (λ cells. All (IsSound layers.now) cells.items) }
    ensures cells { IfOk result (λ cells. map (pieces_of_cell layers.now) cells.items ≡ map (glyph_cell game.now) numbers.now) }
{
    // (brings the proof the law of the layers)
    let _ = layers.depth();
    let mut cells = Vec::with_capacity(alloc, numbers.len())?;
    for number in numbers {
        cells.push(glyph_cell(game, layers, *number))?;
    }
    Ok(cells)
}

/// The cell that the glyph of this number draws: its objects in order, each still on its layer. A later one replaces one of its layer.
/// Rule `load.glyphs`.
fn glyph_cell<const N: usize>(game: &Game, layers: &Layers<N>, number: usize) -> Cell<N>
    requires of_game { layers.now ≡ layering_of game.now }
    requires number { number < length game.now.values }
    ensures sound { IsSound layers.now result }
    ensures cell { pieces_of_cell layers.now result ≡ glyph_cell game.now number }
{
    let mut cell = Cell::empty(layers);
    for object in game.values()[number].members.items() {
        let layer = layers.layer_of(*object);
        cell.put(layers, layer, Some(Piece::still(*object as u16)));
    }
    cell
}

/// Puts a piece on a layer, in each cell where nothing stands on it.
pub fn fill_cells<const N: usize>(
    cells: &mut Vec<Cell<N>>,
    layers: &Layers<N>,
    layer: usize,
    piece: Piece,
)
    requires low { layer < layers.now.depth }
    requires on_layer { IsOnLayer layers.now.layers layer (Some piece) }
    requires sound { All (IsSound layers.now) cells.old.items }
    ensures { AreMapped layers.now (filled_cell layer piece) cells.old.items cells.new.items }
{
    // (brings the proof the law of the layers)
    let _ = layers.depth();
    for index in 0..cells.len() {
        cells[index].fill(layers, layer, piece);
    }
}
