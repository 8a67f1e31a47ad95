//! Rows of one cell, rewritten at their place.

ghost use Rattle.std.specs.Prelude.{IfOk};
ghost use Rattle.pz_rules.specs.Pattern.{AreOf, AreRowsOf};
ghost use Rattle.pz_rules.specs.Instance.{IsInstanceOf};
ghost use Rattle.pz_grid.specs.Grid.{IsOfGame};

use crate::matching::first_instance;
use crate::sample::{expect_level, game_of, loaded, program_of};
use pz_grid::{Level, Place};
use pz_rules::{Instance, Pattern, Rows};
use pz_source::{Dir, Game};
use std::alloc::Global;
use std::test::Fail;

fn first_cell<'a>(game: &Game, rows: &'a Rows) -> Result<&'a Pattern, Fail>
    requires { AreRowsOf game.now.layers rows.now }
    ensures { IfOk result (λ cell. AreOf game.now.layers cell.now) }
{
    match rows.items() {
        [row, ..] => match row.cells() {
            [cell, ..] => Ok(cell),
            _ => Err(Fail::new("no cell")),
        },
        _ => Err(Fail::new("no row")),
    }
}

/// Rewrites the player's cell, once more, and once more behind a change; a cell without the player, whatever gap its place has; and cells
/// off the map.
fn told(game: &Game, level: &mut Level, left: &Pattern, right: &Pattern) -> [bool; 6]
    requires level_of { IsOfGame game.now level.old.grid }
    requires left_of { AreOf game.now.layers left.now }
    requires right_of { AreOf game.now.layers right.now }
{
    let at = |x, y, gap| Place { x, y, gap };
    [
        level.rewrite_cell(Dir::Right, at(0, 0, 0), left, right, false),
        level.rewrite_cell(Dir::Right, at(0, 0, 0), left, right, false),
        level.rewrite_cell(Dir::Right, at(0, 0, 0), left, right, true),
        level.rewrite_cell(Dir::Right, at(2, 0, 3), left, right, false),
        level.rewrite_cell(Dir::Right, at(4, 0, 0), left, right, false),
        level.rewrite_cell(Dir::Right, at(0, 1, 0), left, right, false),
    ]
}

fn told_of(game: &Game, level: &mut Level, instance: &Instance) -> Result<[bool; 6], Fail>
    requires level_of { IsOfGame game.now level.old.grid }
    requires instance_of { IsInstanceOf game.now.layers instance.now }
{
    let left = first_cell(game, &instance.left)?;
    let right = first_cell(game, &instance.right)?;
    Ok(told(game, level, left, right))
}

fn told_in(alloc: Global, game: &Game, level: &mut Level) -> Result<[bool; 6], Fail>
    requires { IsOfGame game.now level.old.grid }
{
    let program = program_of(alloc, game)?;
    let instance = first_instance(game, &program)?;
    told_of(game, level, instance)
}

fn rewritten_in(alloc: Global, game: &Game) -> Result<[bool; 6], Fail> {
    let mut level = loaded(alloc, game)?;
    let found = told_in(alloc, game, &mut level)?;
    let text = "background mark player:0,background wall:1,0,1,\n";
    expect_level(alloc, game, &level, text)?;
    Ok(found)
}

fn rewritten(alloc: Global) -> Result<[bool; 6], Fail> {
    let rule = "right [ Player no Mark ] -> [ Player Mark ]\n";
    let game = game_of(alloc, rule, "", "p#.#\n")?;
    rewritten_in(alloc, &game)
}

#[test]
fn rewrites_a_cell_without_asking_what_stands_there(rt: HostRuntime) -> Result<(), Fail> {
    let found = rewritten(rt.alloc())?;
    assert_eq!(rt; found, [true, false, true, true, false, false]);
    Ok(())
}
