//! The texts of levels: written in both orders, read, and compared.

use crate::sample::{expect, expect_level, game_of, loaded};
use pz_grid::Level;
use pz_session::{Order, Recorded, equals, level_text, read_level_text};
use pz_source::Game;
use std::alloc::{AllocError, Global};
use std::test::Fail;

const BY_ROWS: &str = "background:0,background player:1,\n0,0,\n0,0,\n";

const BY_COLUMNS: &str = "background:0,0,\n0,background player:1,\n0,0,\n";

/// The names of the game that a cell has, and how many it has in all.
fn add_cell(text: &mut String, recorded: &Recorded, number: usize) -> Result<(), AllocError> {
    if number >= recorded.len() {
        return Ok(());
    }
    let names = recorded.names(number);
    for name in ["background", "player", "wall", "crate"] {
        if names.contains(name.as_bytes()) {
            text.push_str(name)?;
            text.push(' ')?;
        }
    }
    Ok(())
}

fn recorded_text(alloc: Global, recorded: &Recorded) -> Result<String, AllocError> {
    let mut text = String::new(alloc);
    for number in 0..recorded.len() {
        add_cell(&mut text, recorded, number)?;
        text.push(';')?;
    }
    Ok(text)
}

/// The cells of a level text that is read; `none`: it is no level text.
fn read_cells(alloc: Global, text: &str) -> Result<String, AllocError> {
    match read_level_text(alloc, text)? {
        Some(recorded) => recorded_text(alloc, &recorded),
        None => String::from_str(alloc, "none"),
    }
}

fn expect_read(alloc: Global, text: &str, cells: &str) -> Result<(), Fail> {
    let found = read_cells(alloc, text)?;
    expect(found.as_str(), cells)
}

#[test]
fn reads_the_cells_of_a_text(rt: HostRuntime) -> Result<(), Fail> {
    let alloc = rt.alloc();
    expect_read(
        alloc,
        "background wall:0,background:1,background player:2,0,\n",
        "background wall ;background ;background player ;background wall ;",
    )?;
    expect_read(
        alloc,
        "background wall:0,background:1,background player:2,",
        "background wall ;background ;background player ;",
    )?;
    expect_read(
        alloc,
        "  crate   player crate :0,\r\n0\n0,",
        "player crate ;player crate ;",
    )?;
    expect_read(alloc, "", "")
}

#[test]
fn refuses_what_is_no_level_text(rt: HostRuntime) -> Result<(), Fail> {
    let alloc = rt.alloc();
    expect_read(alloc, "x", "none")?;
    expect_read(alloc, "background:1,", "none")?;
    expect_read(alloc, "0,", "none")?;
    expect_read(alloc, "background:0,0", "none")?;
    expect_read(alloc, "background:0,1,", "none")
}

fn expect_texts(alloc: Global, game: &Game) -> Result<(), Fail> {
    let level = loaded(alloc, game)?;
    expect_level(alloc, game, &level, BY_ROWS)?;
    let found = level_text(alloc, game, Order::Columns, &level)?;
    expect(found.as_str(), BY_COLUMNS)
}

#[test]
fn writes_both_orders(rt: HostRuntime) -> Result<(), Fail> {
    let game = game_of(rt.alloc(), "", "", ".p\n..\n..\n")?;
    expect_texts(rt.alloc(), &game)
}

/// Whether a level equals what is recorded of it, first by rows and then by columns.
fn equal_to(alloc: Global, game: &Game, level: &Level, text: &str) -> Result<(bool, bool), Fail> {
    match read_level_text(alloc, text)? {
        Some(recorded) => Ok((
            equals(game, level, &recorded, Order::Rows),
            equals(game, level, &recorded, Order::Columns),
        )),
        None => Err(Fail::new("no level text")),
    }
}

fn equal_in(alloc: Global, game: &Game) -> Result<[(bool, bool); 3], Fail> {
    let level = loaded(alloc, game)?;
    Ok([
        equal_to(alloc, game, &level, BY_ROWS)?,
        equal_to(alloc, game, &level, BY_COLUMNS)?,
        equal_to(
            alloc,
            game,
            &level,
            "background:0,background player:1,0,0,0,",
        )?,
    ])
}

fn equal(alloc: Global) -> Result<[(bool, bool); 3], Fail> {
    let game = game_of(alloc, "", "", ".p\n..\n..\n")?;
    equal_in(alloc, &game)
}

#[test]
fn equals_what_is_recorded_in_its_order(rt: HostRuntime) -> Result<(), Fail> {
    let found = equal(rt.alloc())?;
    assert_eq!(rt; found, [(true, false), (false, true), (false, false)]);
    Ok(())
}
