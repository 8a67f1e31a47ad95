//! Three presses of a small game, played by calls of the library.
#![tactic(auto)]

ghost use Rattle.std.specs.Prelude.{IfOk};
ghost use Rattle.pz_grid.specs.Grid.{IsOfGame};
ghost use Rattle.pz_rules.specs.Instance.{IsProgramOf};

use pz_grid::Level;
use pz_rules::{Program, expand};
use pz_session::{Order, level_text};
use pz_source::{Dir, Game, read_game};
use pz_turn::{step, won};
use std::alloc::Global;
use std::process::ExitCode;

const SOURCE: &str =
    "title push\nOBJECTS\nBackground .\nblack\nTarget o\nblue\nPlayer p\nwhite\nWall #\ngrey\nCrate c\nbrown\nLEGEND\nCOLLISIONLAYERS\nBackground\nTarget\nPlayer, Wall, Crate\nRULES\n[ > Player | Crate ] -> [ > Player | > Crate ]\nWINCONDITIONS\nAll Target on Crate\nLEVELS\n######\n#pc.o#\n######\n";

/// The program of the game's rules.
fn program_of(alloc: Global, game: &Game) -> Result<Program, &'static str>
    ensures { IfOk result (λ program. IsProgramOf game.now.layers program) }
{
    match expand(alloc, game) {
        Ok(program) => Ok(program),
        Err(_) => Err("a refused rule"),
    }
}

/// The first level of the game.
fn first_level(alloc: Global, game: &Game) -> Result<Level, &'static str>
    ensures { IfOk result (λ level. IsOfGame game.now level.grid) }
{
    match game.levels() {
        [entry, ..] if entry.playable() => Level::load(alloc, game, 0).map_err(|_| "no memory"),
        _ => Err("no level"),
    }
}

/// The level after a press.
fn pressed(
    alloc: Global,
    game: &Game,
    program: &Program,
    level: &Level,
    press: Dir,
) -> Result<Level, &'static str>
    requires level_of { IsOfGame game.now level.now.grid }
    requires program_of { IsProgramOf game.now.layers program.now }
    ensures { IfOk result (λ level. IsOfGame game.now level.grid) }
{
    match step(alloc, game, program, level, Some(press)) {
        Ok(end) => Ok(end.level),
        Err(_) => Err("no end of the step"),
    }
}

/// The text of the level after three presses, and whether it is won then.
fn played(alloc: Global) -> Result<(String, bool), &'static str> {
    let game = read_game(alloc, SOURCE).map_err(|_| "a refused source")?;
    let program = program_of(alloc, &game)?;
    let level = first_level(alloc, &game)?;
    let level = pressed(alloc, &game, &program, &level, Dir::Right)?;
    let level = pressed(alloc, &game, &program, &level, Dir::Right)?;
    let level = pressed(alloc, &game, &program, &level, Dir::Right)?;
    let text = level_text(alloc, &game, Order::Rows, &level).map_err(|_| "no memory")?;
    Ok((text, won(&game, &level)))
}

fn main(rt: HostRuntime) -> ExitCode {
    let told = match played(rt.alloc()) {
        Ok((text, is_won)) => println!(rt; "{}won: {is_won}", text.as_str()),
        Err(why) => println!(rt; "{why}"),
    };
    ExitCode::from(told.is_err() as u8)
}
