//! The game that tests of the doors play: its objects are always the same; rules, win lines and levels are the case's.

ghost use Rattle.std.specs.Prelude.{IfOk};
ghost use Rattle.pz_rules.specs.Instance.{IsProgramOf};
ghost use Rattle.pz_grid.specs.Grid.{IsOfGame};

use pz_grid::Level;
use pz_rules::{Program, expand};
use pz_session::{Order, level_text};
use pz_source::{Game, read_game};
use std::alloc::{AllocError, Global};
use std::test::Fail;

/// The game up to its rules, the first of which stands on line 26.
const HEAD: &str =
    "title B\nOBJECTS\nBackground .\nblack\nTarget o\nblue\nPlayer p\nwhite\nWall #\ngrey\nCrate c\nbrown\nSpike s\nred\nMark m\npink\nLEGEND\n@ = Crate and Target\nThing = Crate or Wall\nCOLLISIONLAYERS\nBackground\nTarget\nPlayer, Wall, Crate, Spike\nMark\nRULES\n";

/// What is read of a text. It promises nothing, so that its callers' proofs needn't speak of the meaning of a source.
fn read(alloc: Global, text: &str) -> Result<Game, Fail> {
    read_game(alloc, text).map_err(|_| Fail::new("a refused source"))
}

/// The game with these rules, win lines and levels, whose lines are ended.
pub fn game_of(alloc: Global, rules: &str, wins: &str, levels: &str) -> Result<Game, Fail> {
    let text = source_of(alloc, rules, wins, levels)?;
    read(alloc, text.as_str())
}

/// The source of that game.
pub fn source_of(
    alloc: Global,
    rules: &str,
    wins: &str,
    levels: &str,
) -> Result<String, AllocError> {
    format!(in alloc; "{HEAD}{rules}WINCONDITIONS\n{wins}LEVELS\n{levels}")
}

/// The program of its rules.
pub fn program_of(alloc: Global, game: &Game) -> Result<Program, Fail>
    ensures { IfOk result (λ program. IsProgramOf game.now.layers program) }
{
    match expand(alloc, game) {
        Ok(program) => Ok(program),
        Err(_) => Err(Fail::new("refused rules")),
    }
}

/// The level of the first entry of LEVELS.
pub fn loaded(alloc: Global, game: &Game) -> Result<Level, Fail>
    ensures { IfOk result (λ level. IsOfGame game.now level.grid) }
{
    match game.levels() {
        [entry, ..] if entry.playable() => {
            Level::load(alloc, game, 0).map_err(|_| Fail::new("no memory"))
        }
        _ => Err(Fail::new("no level")),
    }
}

/// Fails a test if a level has another text, row by row.
pub fn expect_level(alloc: Global, game: &Game, level: &Level, text: &str) -> Result<(), Fail> {
    let found = level_text(alloc, game, Order::Rows, level)?;
    expect(found.as_str(), text)
}

/// Fails a test if another text was found. One function compares for all tests, because each comparison is expensive to prove.
pub fn expect(found: &str, wanted: &str) -> Result<(), Fail> {
    if found == wanted {
        Ok(())
    } else {
        Err(Fail::new(format_args!("{found} and not {wanted}")))
    }
}
