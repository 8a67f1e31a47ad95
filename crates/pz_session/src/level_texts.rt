//! The text of a level by itself, and whether a level equals a recorded one.

ghost use Rattle.std.specs.Prelude.{◌≡◌, IfOk, Some, string_bytes};
ghost use Rattle.pz_level_text.specs.Equality.{equals_recorded};
ghost use Rattle.pz_level_text.specs.LevelNames.{sets_in};
ghost use Rattle.pz_level_text.specs.LevelText.{text_of_level, HasNoComma};
ghost use Rattle.pz_entries.specs.Reading.{reading};

use pz_game::game::Game;
use pz_grid::Level;
use pz_level_text::equality;
use pz_level_text::text_writer::TextWriter;
use pz_record::order::Order;
use pz_record::recorded::Recorded;
use std::alloc::{AllocError, Global};

/// The text of a level, as frames have it but not quoted. If no object has a comma in its name, reading it gives the names of each cell.
/// Err: memory was refused.
pub fn level_text(
    alloc: Global,
    game: &Game,
    order: Order,
    level: &Level,
) -> Result<String, AllocError>
    ensures text { IfOk result (λ text. string_bytes text ≡ text_of_level game.now order level.now.grid) }
    ensures reads_back { IfOk result
        (λ text. HasNoComma game.now → reading (string_bytes text) ≡ Some (sets_in game.now order level.now.grid)) }
{
    // (brings the proof the laws of games and of levels)
    let _objects = game.objects();
    let _height = level.height();
    let mut writer = TextWriter::new(alloc, game, order);
    let text = writer.write_plain(level.bare())?;
    Ok(text)
}

/// Whether the level has as many cells as were recorded, and each, in this order, exactly the recorded names. Neither the width nor
/// headings are compared.
pub fn equals(game: &Game, level: &Level, recorded: &Recorded, order: Order) -> bool
    ensures { result ≡ equals_recorded game.now order level.now.grid recorded.now }
{
    equality::equals(game, level.bare(), recorded, order)
}
