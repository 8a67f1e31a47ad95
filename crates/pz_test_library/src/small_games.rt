//! The texts of sources, the games that they are, and their levels.

ghost use Rattle.std.specs.Prelude.{IfOk};
ghost use Rattle.pz_sheet.specs.Grid.{IsOfGame};

use pz_base::fault::SourceFault;
use pz_game::game::Game;
use pz_grid::Level;
use pz_source::reading::read_game;
use std::alloc::{AllocError, Global};
use std::test::Fail;

/// These lines, with one replaced (none at 0).
pub(crate) fn joined(
    alloc: Global,
    lines: &[&str],
    number: usize,
    line: &str,
) -> Result<String, AllocError> {
    let mut text = String::new(alloc);
    for (place, kept) in lines.iter().enumerate() {
        let shown = if place == number.wrapping_sub(1) {
            line
        } else {
            *kept
        };
        text.push_str(shown)?;
        text.push('\n')?;
    }
    Ok(text)
}

/// Reads a text. It promises nothing, so that its callers' proofs needn't speak of the meaning of a source.
pub(crate) fn read(alloc: Global, text: &str) -> Result<Game, SourceFault> {
    read_game(alloc, text)
}

pub(crate) fn game_of(alloc: Global, text: &str) -> Result<Game, Fail> {
    match read(alloc, text) {
        Ok(game) => Ok(game),
        Err(_) => Err(Fail::new("refused")),
    }
}

/// The level of the first entry of LEVELS.
pub(crate) fn loaded(alloc: Global, game: &Game) -> Result<Level, Fail>
    ensures { IfOk result (λ level. IsOfGame game.now level.grid) }
{
    match game.levels() {
        [entry, ..] if entry.playable() => {
            Level::load(alloc, game, 0).map_err(|_| Fail::new("no memory"))
        }
        _ => Err(Fail::new("no level")),
    }
}
