//! Loads levels from their drawings.

ghost use Rattle.std.specs.Prelude.{◌≡◌, ◌<◌, ◌≤◌, IfOk, All, length, slice_index, true};
ghost use Rattle.pz_game.specs.Level.{is_playable, entry_at};
ghost use Rattle.pz_game.specs.Game.{background_of};
ghost use Rattle.pz_cells.specs.Cell.{IsOnLayer};
ghost use Rattle.pz_sheet.specs.Grid.{IsLawful};
ghost use Rattle.pz_sheet.specs.Loading.{IsRoomFor, drawn_level};
ghost use Rattle.pz_bare.specs.AnySheet.{state_in, IsFitting};
ghost use Rattle.pz_bare.specs.Loading.{first_in_column, first_on, with_background, loaded_from, level_of_entry};

use crate::{AnySheet, BareLevel};
use pz_cells::piece::Piece;
use pz_game::game::Game;
use pz_game::level::{DrawnLevel, LevelEntry};
use pz_sheet::Sheet;
use std::alloc::{AllocError, Global};

impl BareLevel {
    /// Loads the entry of LEVELS of this number, which must be a level. Entries are numbered from 0. Err: memory was refused.
    /// Rules `load.glyphs`, `load.background`.
    pub fn load(alloc: Global, game: &Game, index: usize) -> Result<BareLevel, AllocError>
        requires { is_playable (entry_at game.now index) ≡ true }
        ensures loaded { IfOk result (λ bare. bare.grid ≡ level_of_entry game.now index) }
        ensures lawful { IfOk result (λ bare. IsLawful bare.grid) }
    {
        match &game.levels()[index] {
            LevelEntry::Message => unreachable!(),
            LevelEntry::Level(drawing) => {
                let sheet = any_sheet_from(alloc, game, drawing)?;
                Ok(BareLevel {
                    sheet: Box::new(alloc, sheet)?,
                })
            }
        }
    }
}

/// The level of a drawing, with as many words a cell as the game needs.
fn any_sheet_from(alloc: Global, game: &Game, drawing: &DrawnLevel) -> Result<AnySheet, AllocError>
    requires { All (λ number. number < length game.now.values) drawing.now.cells }
    ensures loaded { IfOk result (λ any. (state_in any).grid ≡ loaded_from game.now drawing.now) }
    ensures lawful { IfOk result (λ any. IsLawful (state_in any).grid) }
    ensures fitting { IfOk result IsFitting }
{
    let objects = game.layers().len();
    let depth = game.depth();
    if objects <= 128 && depth <= 25 {
        return sheet_from(alloc, game, drawing).map(AnySheet::Small);
    }
    if objects <= 256 && depth <= 50 {
        return sheet_from(alloc, game, drawing).map(AnySheet::Middle);
    }
    sheet_from(alloc, game, drawing).map(AnySheet::Large)
}

/// The level of a drawing, with N words a cell.
fn sheet_from<const N: usize>(
    alloc: Global,
    game: &Game,
    drawing: &DrawnLevel,
) -> Result<Sheet<N>, AllocError>
    requires short { N ≤ 4 }
    requires room { IsRoomFor N game.now }
    requires numbers { All (λ number. number < length game.now.values) drawing.now.cells }
    ensures loaded { IfOk result (λ sheet. sheet.grid ≡ loaded_from game.now drawing.now) }
    ensures lawful { IfOk result (λ sheet. IsLawful sheet.grid) }
{
    let object = background(game);
    let layer = game.layers()[object];
    let mut sheet = Sheet::drawn(alloc, game, drawing)?;
    lay_background(&mut sheet, layer, object as u16);
    Ok(sheet)
}

/// Fills the background layer in each cell that has nothing on it. Such a cell gets what the first cell with something there has, or else
/// the background's first object. Rule `load.background`.
fn lay_background<const N: usize>(sheet: &mut Sheet<N>, layer: usize, object: u16)
    requires layer_in { layer < sheet.old.grid.depth }
    requires on_layer { (object < length sheet.old.grid.layers) × (slice_index sheet.old.grid.layers object ≡ layer) }
    ensures laid { sheet.new.grid ≡ with_background layer object sheet.old.grid }
    ensures lawful { IsLawful sheet.new.grid }
{
    match first_on(sheet, layer) {
        Some(piece) => sheet.fill(layer, piece),
        None => sheet.fill(layer, Piece::still(object)),
    }
}

/// What stands on a layer in the first cell with something there: columns from the left, each from the top.
fn first_on<const N: usize>(sheet: &Sheet<N>, layer: usize) -> Option<Piece>
    requires layer_in { layer < sheet.now.grid.depth }
    ensures first { result ≡ first_on sheet.now.grid layer }
    ensures on_layer { IsOnLayer sheet.now.grid.layers layer result }
{
    for x in 0..sheet.width() {
        match first_in_column(sheet, layer, x) {
            Some(piece) => return Some(piece),
            None => {}
        }
    }
    None
}

fn first_in_column<const N: usize>(sheet: &Sheet<N>, layer: usize, x: u32) -> Option<Piece>
    requires layer_in { layer < sheet.now.grid.depth }
    requires x_in { x < sheet.now.grid.width }
    ensures first { result ≡ first_in_column sheet.now.grid layer x }
    ensures on_layer { IsOnLayer sheet.now.grid.layers layer result }
{
    for y in 0..sheet.height() {
        match sheet.place(x, y, layer) {
            Some(piece) => return Some(piece),
            None => {}
        }
    }
    None
}

/// The first object of the background.
fn background(game: &Game) -> usize
    ensures background { result ≡ background_of game.now }
    ensures object { result < length game.now.layers }
{
    match game.members("background") {
        Some(members) => members[0],
        None => unreachable!(),
    }
}
