//! Groups and loops of rules, run to rest.

ghost use Rattle.std.specs.Prelude.{IfOk};
ghost use Rattle.pz_rules.specs.Instance.{IsBlockOf, IsProgramOf};
ghost use Rattle.pz_grid.specs.Grid.{IsOfGame};

use crate::sample::{expect_level, game_of, loaded, program_of};
use pz_grid::{Level, push_players, resolve};
use pz_rules::{Block, Commands, Flags, Program};
use pz_source::{Dir, Game};
use pz_turn::{StepFault, rest, rest_loop};
use std::alloc::Global;
use std::test::Fail;

/// What a run gave, with its commands as a number.
type Rested = Result<(u8, bool), StepFault>;

fn in_bits(given: Result<(Commands, bool), StepFault>) -> Rested {
    match given {
        Ok((commands, changed)) => Ok((commands.bits(), changed)),
        Err(fault) => Err(fault),
    }
}

/// Runs a block to rest.
fn rest_block(alloc: Global, game: &Game, block: &Block, level: &mut Level) -> Rested
    requires level_of { IsOfGame game.now level.old.grid }
    requires block_of { IsBlockOf game.now.layers block.now }
    ensures { IsOfGame game.now level.new.grid }
{
    match block {
        Block::One(group) => in_bits(rest(alloc, game, group, level)),
        Block::Loop(groups) => in_bits(rest_loop(alloc, game, groups, level)),
    }
}

/// Runs each block before the movement to rest, and gives what they gave together.
fn rest_early(alloc: Global, game: &Game, program: &Program, level: &mut Level) -> Rested
    requires level_of { IsOfGame game.now level.old.grid }
    requires program_of { IsProgramOf game.now.layers program.now }
    ensures { IsOfGame game.now level.new.grid }
{
    let mut commands = 0;
    let mut changed = false;
    for block in program.early() {
        let (given, is_changed) = rest_block(alloc, game, block, level)?;
        commands |= given;
        changed |= is_changed;
    }
    Ok((commands, changed))
}

/// Pushes the players, runs each early block to rest, and moves all.
fn play(alloc: Global, game: &Game, level: &mut Level, dir: Dir) -> Result<Rested, Fail>
    requires level_of { IsOfGame game.now level.old.grid }
{
    let program = program_of(alloc, game)?;
    push_players(game, level, dir);
    let rested = rest_early(alloc, game, &program, level);
    resolve(game, level);
    Ok(rested)
}

fn played_in(alloc: Global, game: &Game, dir: Dir, text: &str) -> Result<Rested, Fail> {
    let mut level = loaded(alloc, game)?;
    let rested = play(alloc, game, &mut level, dir)?;
    if rested.is_ok() {
        expect_level(alloc, game, &level, text)?;
    }
    Ok(rested)
}

/// What the early blocks give after a push, if the level is then so.
fn played(alloc: Global, rules: &str, level: &str, dir: Dir, text: &str) -> Result<Rested, Fail> {
    let game = game_of(alloc, rules, "", level)?;
    played_in(alloc, &game, dir, text)
}

fn expect_rest(
    alloc: Global,
    rules: &str,
    level: &str,
    dir: Dir,
    text: &str,
    wanted: Rested,
) -> Result<(), Fail> {
    let found = played(alloc, rules, level, dir, text)?;
    if found == wanted {
        Ok(())
    } else {
        Err(Fail::new(format_args!("{rules}: {found:?}")))
    }
}

#[test]
fn pushes_three_crates(rt: HostRuntime) -> Result<(), Fail> {
    expect_rest(
        rt.alloc(),
        "[ > Player | Crate ] -> [ > Player | > Crate ]\n+ [ > Crate | Crate ] -> [ > Crate | > Crate ]\n",
        "pccc.\n",
        Dir::Right,
        "background:0,background player:1,background crate:2,2,2,\n",
        Ok((0, true)),
    )
}

#[test]
fn leaves_what_no_rule_names(rt: HostRuntime) -> Result<(), Fail> {
    expect_rest(
        rt.alloc(),
        "[ > Player | Crate ] -> [ > Player | > Crate ]\n",
        "p.#\n",
        Dir::Right,
        "background:0,background player:1,background wall:2,\n",
        Ok((0, false)),
    )
}

#[test]
fn gives_commands_and_changes_nothing(rt: HostRuntime) -> Result<(), Fail> {
    expect_rest(
        rt.alloc(),
        "[ > Player | Spike ] -> cancel\n+ [ > Player | Spike ] -> again win\n",
        "ps\n",
        Dir::Right,
        "background player:0,background spike:1,\n",
        Ok((19, false)),
    )
}

#[test]
fn stops_two_rules_that_undo_each_other(rt: HostRuntime) -> Result<(), Fail> {
    expect_rest(
        rt.alloc(),
        "[ action Player | Mark ] -> [ action Player | Target ]\n+ [ action Player | Target ] -> [ action Player | Mark ]\n",
        ".pm\n",
        Dir::Action,
        "",
        Err(StepFault::LoopLimit),
    )
}

/// A level that is changed, without a command.
fn expect_changed(
    alloc: Global,
    rules: &str,
    level: &str,
    dir: Dir,
    text: &str,
) -> Result<(), Fail> {
    expect_rest(alloc, rules, level, dir, text, Ok((0, true)))
}

#[test]
fn moves_one_of_two_that_head_for_a_cell(rt: HostRuntime) -> Result<(), Fail> {
    let alloc = rt.alloc();
    expect_changed(
        alloc,
        "[ stationary Crate ] -> [ right Crate ]\n[ stationary Spike ] -> [ left Spike ]\n",
        "c.sp\n",
        Dir::Action,
        "background:0,background crate:1,background spike:2,background player:3,\n",
    )?;
    expect_changed(
        alloc,
        "[ stationary Crate ] -> [ right Crate ]\n[ stationary Spike ] -> [ up Spike ]\n",
        "cc.\n.sp\n",
        Dir::Action,
        "background crate:0,background spike:1,0,\nbackground:2,2,background player:3,\n",
    )
}

#[test]
fn rewrites_a_later_place_only_if_it_still_holds(rt: HostRuntime) -> Result<(), Fail> {
    let alloc = rt.alloc();
    expect_changed(
        alloc,
        "right [ Player | ... | Wall ] -> [ Player | ... | Wall Mark ]\n",
        "p#\n",
        Dir::Action,
        "background player:0,background mark wall:1,\n",
    )?;
    expect_changed(
        alloc,
        "right [ Player no Mark | ... | Wall ] -> [ Player Mark | ... | Crate ]\n",
        "p#.#\n",
        Dir::Action,
        "background mark player:0,background crate:1,background:2,background wall:3,\n",
    )
}

#[test]
fn keeps_a_heading_only_where_a_piece_takes_the_place(rt: HostRuntime) -> Result<(), Fail> {
    let alloc = rt.alloc();
    expect_changed(
        alloc,
        "right [ down Player | Spike ] -> [ | Spike ]\nright [ no Crate | Spike ] -> [ Crate | Spike ]\n",
        "ps\n..\n",
        Dir::Down,
        "background crate:0,background spike:1,\nbackground:2,2,\n",
    )?;
    expect_changed(
        alloc,
        "[ Player ] -> [ Crate ]\n",
        "p.\n",
        Dir::Right,
        "background:0,background crate:1,\n",
    )
}

/// A level of so many columns and rows of the background.
fn empty_level(alloc: Global, columns: usize, rows: usize) -> Result<String, Fail> {
    let mut text = String::new(alloc);
    for _ in 0..rows {
        add_columns(&mut text, columns)?;
        text.push('\n')?;
    }
    Ok(text)
}

fn add_columns(text: &mut String, columns: usize) -> Result<(), Fail> {
    for _ in 0..columns {
        text.push('.')?;
    }
    Ok(())
}

/// What a rule with a combination for each two cells gives.
fn rested_everywhere(alloc: Global, columns: usize, rows: usize) -> Result<Rested, Fail> {
    let level = empty_level(alloc, columns, rows)?;
    let game = game_of(alloc, "[ ] [ ] -> [ ] [ ]\n", "", level.as_str())?;
    rested_in(alloc, &game)
}

fn rested_in(alloc: Global, game: &Game) -> Result<Rested, Fail> {
    let mut level = loaded(alloc, game)?;
    play(alloc, game, &mut level, Dir::Action)
}

#[test]
fn stops_beyond_the_limit_of_combinations(rt: HostRuntime) -> Result<(), Fail> {
    let within = rested_everywhere(rt.alloc(), 32, 32)?;
    let beyond = rested_everywhere(rt.alloc(), 41, 25)?;
    assert_eq!(rt; within, Ok((0, false)));
    assert_eq!(rt; beyond, Err(StepFault::MatchLimit));
    Ok(())
}

#[test]
fn runs_a_loop_until_it_has_spread(rt: HostRuntime) -> Result<(), Fail> {
    expect_rest(
        rt.alloc(),
        "startloop\n[ Mark ] -> [ Target ]\nright [ Target | no Target no Mark ] -> [ Target | Mark ]\nendloop\n",
        "m..\n",
        Dir::Action,
        "background target:0,0,0,\n",
        Ok((0, true)),
    )
}

#[test]
fn stops_a_loop_that_undoes_itself(rt: HostRuntime) -> Result<(), Fail> {
    expect_rest(
        rt.alloc(),
        "startloop\n[ Mark ] -> [ Target ]\n[ Target ] -> [ Mark ]\nendloop\n",
        "m\n",
        Dir::Action,
        "",
        Err(StepFault::LoopLimit),
    )
}
