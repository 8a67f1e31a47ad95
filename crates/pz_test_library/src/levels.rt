//! A level, loaded, pushed and moved. No test owns a game or a level, and no function owns both, because that is expensive to
//! prove.

ghost use Rattle.std.specs.Prelude.{IfOk};
ghost use Rattle.pz_sheet.specs.Grid.{IsOfGame};

use crate::small_games::{game_of, joined, loaded};
use pz_bare::past::Past;
use pz_game::direction::Dir;
use pz_game::game::Game;
use pz_grid::{Level, push_players, resolve};
use std::alloc::Global;
use std::test::Fail;

/// A game with the level `p.#`.
const GAME: [&str; 13] = [
    "OBJECTS",
    "Background .",
    "black",
    "Player p",
    "white",
    "Wall #",
    "grey",
    "LEGEND",
    "COLLISIONLAYERS",
    "Background",
    "Player, Wall",
    "LEVELS",
    "p.#",
];

pub(crate) fn small_game(alloc: Global) -> Result<Game, Fail> {
    let text = joined(alloc, &GAME, 0, "")?;
    game_of(alloc, text.as_str())
}

/// The same game with a level of three rows and two players, of which the lower one can't move to the right.
pub(crate) fn square_game(alloc: Global) -> Result<Game, Fail> {
    let text = joined(alloc, &GAME, 13, "p.#\n...\n#.p")?;
    game_of(alloc, text.as_str())
}

/// The level after the player was pushed to the right.
fn pushed(alloc: Global, game: &Game) -> Result<Level, Fail>
    ensures { IfOk result (λ level. IsOfGame game.now level.grid) }
{
    let mut level = loaded(alloc, game)?;
    push_players(game, &mut level, Dir::Right);
    Ok(level)
}

/// The level after that movement.
pub(crate) fn moved(alloc: Global, game: &Game) -> Result<Level, Fail> {
    let mut level = pushed(alloc, game)?;
    resolve(game, &mut level);
    Ok(level)
}

fn size_in(alloc: Global, game: &Game) -> Result<(u32, u32), Fail> {
    let level = loaded(alloc, game)?;
    Ok((level.width(), level.height()))
}

fn size(alloc: Global) -> Result<(u32, u32), Fail> {
    let game = small_game(alloc)?;
    size_in(alloc, &game)
}

#[test]
fn tells_the_size(rt: HostRuntime) -> Result<(), Fail> {
    let found = size(rt.alloc())?;
    assert_eq!(rt; found, (3, 1));
    Ok(())
}

fn heads_right_in(alloc: Global, game: &Game) -> Result<bool, Fail> {
    let level = pushed(alloc, game)?;
    Ok(matches!(level.dir_of(0, 0, 1), Some(Dir::Right)))
}

fn heads_right(alloc: Global) -> Result<bool, Fail> {
    let game = small_game(alloc)?;
    heads_right_in(alloc, &game)
}

#[test]
fn tells_where_the_player_heads(rt: HostRuntime) -> Result<(), Fail> {
    let found = heads_right(rt.alloc())?;
    assert_eq!(rt; found, true);
    Ok(())
}

fn is_stilled_in(alloc: Global, game: &Game) -> Result<bool, Fail> {
    let level = moved(alloc, game)?;
    Ok(level.dir_of(1, 0, 1).is_none())
}

fn is_stilled(alloc: Global) -> Result<bool, Fail> {
    let game = small_game(alloc)?;
    is_stilled_in(alloc, &game)
}

#[test]
fn stills_the_player(rt: HostRuntime) -> Result<(), Fail> {
    let found = is_stilled(rt.alloc())?;
    assert_eq!(rt; found, true);
    Ok(())
}

/// Whether the pushed level differs from this one.
fn differs(alloc: Global, game: &Game, before: &Level) -> Result<bool, Fail> {
    let after = pushed(alloc, game)?;
    Ok(!after.same(before))
}

fn is_changed_in(alloc: Global, game: &Game) -> Result<bool, Fail> {
    let before = loaded(alloc, game)?;
    differs(alloc, game, &before)
}

fn is_changed(alloc: Global) -> Result<bool, Fail> {
    let game = small_game(alloc)?;
    is_changed_in(alloc, &game)
}

#[test]
fn tells_levels_apart(rt: HostRuntime) -> Result<(), Fail> {
    let found = is_changed(rt.alloc())?;
    assert_eq!(rt; found, true);
    Ok(())
}

/// Whether the player stands where it stood, whether it stands beside, and whether the wall is there.
fn standing_in(alloc: Global, game: &Game) -> Result<(bool, bool, bool), Fail> {
    let level = moved(alloc, game)?;
    Ok((level.has(0, 0, 1), level.has(1, 0, 1), level.has(2, 0, 2)))
}

fn standing(alloc: Global) -> Result<(bool, bool, bool), Fail> {
    let game = small_game(alloc)?;
    standing_in(alloc, &game)
}

#[test]
fn moves_the_player(rt: HostRuntime) -> Result<(), Fail> {
    let found = standing(rt.alloc())?;
    assert_eq!(rt; found, (false, true, true));
    Ok(())
}

/// Keeps a level, which a call drops.
fn keep(past: &mut Past, level: Level) -> Result<(), Fail> {
    let kept = past.push(level.bare());
    drop(level);
    Ok(kept?)
}

/// The level as it is loaded, pushed and moved, kept one after another.
fn kept(alloc: Global, game: &Game) -> Result<Past, Fail> {
    let mut past = Past::new(alloc);
    keep(&mut past, loaded(alloc, game)?)?;
    keep(&mut past, pushed(alloc, game)?)?;
    keep(&mut past, moved(alloc, game)?)?;
    Ok(past)
}

/// Of the newest level, whether the player heads where it was loaded, and whether it stands beside; None: no level is left.
fn newest(past: &Past) -> Option<(bool, bool)> {
    let level = past.newest()?;
    let heads = match level.piece(0, 0, 1) {
        Some(piece) => piece.heading.is_some(),
        None => false,
    };
    Some((heads, level.piece(1, 0, 1).is_some()))
}

/// The same, and then it is forgotten.
fn taken(past: &mut Past) -> Option<(bool, bool)> {
    let found = newest(past);
    past.forget();
    found
}

fn all_taken_in(alloc: Global, game: &Game) -> Result<[Option<(bool, bool)>; 4], Fail> {
    let mut past = kept(alloc, game)?;
    let moved = taken(&mut past);
    let pushed = taken(&mut past);
    let loaded = taken(&mut past);
    let none = taken(&mut past);
    Ok([moved, pushed, loaded, none])
}

fn all_taken(alloc: Global) -> Result<[Option<(bool, bool)>; 4], Fail> {
    let game = small_game(alloc)?;
    all_taken_in(alloc, &game)
}

#[test]
fn takes_the_newest_level_back_first(rt: HostRuntime) -> Result<(), Fail> {
    let found = all_taken(rt.alloc())?;
    let levels = [
        Some((false, true)),
        Some((true, false)),
        Some((false, false)),
        None,
    ];
    assert_eq!(rt; found, levels);
    Ok(())
}
