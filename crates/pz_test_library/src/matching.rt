//! The places of rows, and instances rewritten at them.

ghost use Rattle.std.specs.Prelude.{IfOk};
ghost use Rattle.pz_rules.specs.Instance.{IsInstanceOf, IsGroupOf, IsBlockOf, IsProgramOf};
ghost use Rattle.pz_grid.specs.Grid.{IsOfGame};

use crate::sample::{expect, expect_level, game_of, loaded, program_of};
use pz_grid::{Level, Place, places, rewrite, same, still_matches};
use pz_rules::{Block, Group, Instance, Program};
use pz_source::{Dir, Game};
use std::alloc::{AllocError, Global};
use std::test::Fail;

fn first_of<'a>(game: &Game, group: &'a Group) -> Result<&'a Instance, Fail>
    requires { IsGroupOf game.now.layers group.now }
    ensures { IfOk result (λ instance. IsInstanceOf game.now.layers instance.now) }
{
    match group.instances() {
        [instance, ..] => Ok(instance),
        _ => Err(Fail::new("no instance")),
    }
}

/// The first block before the movement.
fn first_block<'a>(game: &Game, program: &'a Program) -> Result<&'a Block, Fail>
    requires { IsProgramOf game.now.layers program.now }
    ensures { IfOk result (λ block. IsBlockOf game.now.layers block.now) }
{
    match program.early() {
        [block, ..] => Ok(block),
        _ => Err(Fail::new("no block")),
    }
}

/// The first instance of the first group.
pub(crate) fn first_instance<'a>(game: &Game, program: &'a Program) -> Result<&'a Instance, Fail>
    requires { IsProgramOf game.now.layers program.now }
    ensures { IfOk result (λ instance. IsInstanceOf game.now.layers instance.now) }
{
    match first_block(game, program)? {
        Block::One(group) => first_of(game, group),
        Block::Loop(_) => Err(Fail::new("no group")),
    }
}

fn written(alloc: Global, found: &[Place]) -> Result<String, AllocError> {
    let mut text = String::new(alloc);
    for place in found {
        let Place { x, y, gap } = *place;
        text.push_str(format!(in alloc; "({x},{y},{gap})")?.as_str())?;
    }
    Ok(text)
}

/// The places of the instance's first row.
fn found_for(
    alloc: Global,
    game: &Game,
    level: &Level,
    instance: &Instance,
    dir: Dir,
) -> Result<Vec<Place>, Fail>
    requires level_of { IsOfGame game.now level.now.grid }
    requires instance_of { IsInstanceOf game.now.layers instance.now }
{
    match instance.left.items() {
        [row, ..] => match places(alloc, level, row, dir) {
            Ok(found) => Ok(found),
            Err(_) => Err(Fail::new("no places")),
        },
        _ => Err(Fail::new("no row")),
    }
}

fn expect_found(
    alloc: Global,
    game: &Game,
    level: &Level,
    dir: Dir,
    wanted: &str,
) -> Result<(), Fail>
    requires level_of { IsOfGame game.now level.now.grid }
{
    let program = program_of(alloc, game)?;
    let instance = first_instance(game, &program)?;
    let found = found_for(alloc, game, level, instance, dir)?;
    let text = written(alloc, found.as_slice())?;
    expect(text.as_str(), wanted)
}

fn expect_in(alloc: Global, game: &Game, dir: Dir, wanted: &str) -> Result<(), Fail> {
    let level = loaded(alloc, game)?;
    expect_found(alloc, game, &level, dir, wanted)
}

/// Fails a test if the first row of a rule has other places on a level.
fn expect_places(
    alloc: Global,
    rule: &str,
    level: &str,
    dir: Dir,
    wanted: &str,
) -> Result<(), Fail> {
    let game = game_of(alloc, rule, "", level)?;
    expect_in(alloc, &game, dir, wanted)
}

#[test]
fn finds_a_cell_in_the_order_of_the_scan(rt: HostRuntime) -> Result<(), Fail> {
    let alloc = rt.alloc();
    let rule = "[ Crate ] -> [ Crate ]\n";
    let by_rows = "(0,0,0)(2,0,0)(0,1,0)(1,1,0)";
    let by_columns = "(0,0,0)(0,1,0)(1,1,0)(2,0,0)";
    expect_places(alloc, rule, "c.c\ncc.\n", Dir::Right, by_rows)?;
    expect_places(alloc, rule, "c.c\ncc.\n", Dir::Left, by_rows)?;
    expect_places(alloc, rule, "c.c\ncc.\n", Dir::Up, by_columns)?;
    expect_places(alloc, rule, "c.c\ncc.\n", Dir::Down, by_columns)
}

#[test]
fn finds_neighbours_in_four_directions(rt: HostRuntime) -> Result<(), Fail> {
    let alloc = rt.alloc();
    let rule = "[ Crate | Crate ] -> [ Crate | Crate ]\n";
    expect_places(alloc, rule, "c.c\ncc.\n", Dir::Right, "(0,1,0)")?;
    expect_places(alloc, rule, "c.c\ncc.\n", Dir::Left, "(1,1,0)")?;
    expect_places(alloc, rule, "c.c\ncc.\n", Dir::Up, "(0,1,0)")?;
    expect_places(alloc, rule, "c.c\ncc.\n", Dir::Down, "(0,0,0)")
}

#[test]
fn finds_what_stands_behind_a_gap(rt: HostRuntime) -> Result<(), Fail> {
    let alloc = rt.alloc();
    let rule = "[ Crate | ... | Crate ] -> [ Crate | ... | Crate ]\n";
    expect_places(alloc, rule, "c.c\ncc.\n", Dir::Right, "(0,0,1)(0,1,0)")?;
    let rule = "right [ Player | ... | Wall ] -> [ Player | ... | Wall Mark ]\n";
    expect_places(alloc, rule, "p#\n", Dir::Right, "(0,0,0)")?;
    expect_places(alloc, rule, "p#.#\n", Dir::Right, "(0,0,0)(0,0,2)")
}

/// A rule whose second place no longer holds once the first is rewritten.
const ONCE: &str = "right [ Player no Mark | ... | Wall ] -> [ Player Mark | ... | Crate ]\n";

const NEAR: Place = Place { x: 0, y: 0, gap: 0 };

const FAR: Place = Place { x: 0, y: 0, gap: 2 };

const OFF: Place = Place { x: 0, y: 0, gap: 3 };

/// What is told of an instance at three places, at no place and at two, before and after it is rewritten at the first.
fn told(game: &Game, level: &mut Level, instance: &Instance) -> ([bool; 5], bool, [bool; 2], bool)
    requires level_of { IsOfGame game.now level.old.grid }
    requires instance_of { IsInstanceOf game.now.layers instance.now }
{
    let before = [
        still_matches(level, instance, &[NEAR]),
        still_matches(level, instance, &[FAR]),
        still_matches(level, instance, &[OFF]),
        still_matches(level, instance, &[]),
        still_matches(level, instance, &[NEAR, FAR]),
    ];
    let changed = rewrite(game, level, instance, &[NEAR]);
    let after = [
        still_matches(level, instance, &[NEAR]),
        still_matches(level, instance, &[FAR]),
    ];
    let again = rewrite(game, level, instance, &[NEAR]);
    (before, changed, after, again)
}

fn is_told(alloc: Global, game: &Game, level: &mut Level) -> Result<bool, Fail>
    requires level_of { IsOfGame game.now level.old.grid }
{
    let program = program_of(alloc, game)?;
    let instance = first_instance(game, &program)?;
    let found = told(game, level, instance);
    Ok(
        found
            == (
                [true, true, false, false, false],
                true,
                [false, false],
                false,
            ),
    )
}

fn rewrites_once_in(alloc: Global, game: &Game) -> Result<bool, Fail> {
    let mut level = loaded(alloc, game)?;
    let holds = is_told(alloc, game, &mut level)?;
    expect_level(
        alloc,
        game,
        &level,
        "background mark player:0,background crate:1,background:2,background wall:3,\n",
    )?;
    Ok(holds)
}

fn rewrites_once(alloc: Global) -> Result<bool, Fail> {
    let game = game_of(alloc, ONCE, "", "p#.#\n")?;
    rewrites_once_in(alloc, &game)
}

#[test]
fn rewrites_a_place_that_then_no_longer_holds(rt: HostRuntime) -> Result<(), Fail> {
    let holds = rewrites_once(rt.alloc())?;
    assert_eq!(rt; holds, true);
    Ok(())
}

fn same_as_copy(alloc: Global, game: &Game, level: &Level) -> Result<bool, Fail> {
    let copy = level.copy().map_err(|_| Fail::new("no memory"))?;
    expect_level(
        alloc,
        game,
        &copy,
        "background crate target:0,background player:1,\n",
    )?;
    Ok(same(&copy, level))
}

fn copies_in(alloc: Global, game: &Game) -> Result<bool, Fail> {
    let level = loaded(alloc, game)?;
    same_as_copy(alloc, game, &level)
}

fn copies(alloc: Global) -> Result<bool, Fail> {
    let game = game_of(alloc, "", "", "@p\n")?;
    copies_in(alloc, &game)
}

#[test]
fn copies_what_is_the_same(rt: HostRuntime) -> Result<(), Fail> {
    let same = copies(rt.alloc())?;
    assert_eq!(rt; same, true);
    Ok(())
}
