//! Whole steps of a game, and wins.

ghost use Rattle.pz_grid.specs.Grid.{IsOfGame};

use crate::sample::{expect_level, game_of, loaded, program_of};
use pz_grid::Level;
use pz_rules::Flags;
use pz_source::{Dir, Game};
use pz_turn::stepping::step_on;
use pz_turn::{StepEnd, StepFault, step, won};
use std::alloc::Global;
use std::test::Fail;

/// What a step gave, with its commands as a number.
type Stepped = Result<(u8, bool), StepFault>;

fn told(alloc: Global, game: &Game, end: StepEnd, text: &str) -> Result<Stepped, Fail> {
    expect_level(alloc, game, &end.level, text)?;
    Ok(Ok((end.commands.bits(), end.changed)))
}

fn step_from(
    alloc: Global,
    game: &Game,
    level: &Level,
    input: Option<Dir>,
    text: &str,
) -> Result<Stepped, Fail>
    requires { IsOfGame game.now level.now.grid }
{
    let program = program_of(alloc, game)?;
    match step(alloc, game, &program, level, input) {
        Ok(end) => told(alloc, game, end, text),
        Err(fault) => Ok(Err(fault)),
    }
}

fn step_in(alloc: Global, game: &Game, input: Option<Dir>, text: &str) -> Result<Stepped, Fail> {
    let level = loaded(alloc, game)?;
    step_from(alloc, game, &level, input, text)
}

/// Plays a press to the right in a copy of the level.
fn press_in_copy(alloc: Global, game: &Game, text: &str) -> Result<Stepped, Fail> {
    let level = loaded(alloc, game)?;
    let copy = level.copy().map_err(|_| Fail::new("no memory"))?;
    let program = program_of(alloc, game)?;
    match step_on(alloc, game, &program, &level, copy, Dir::Right) {
        Ok(end) => told(alloc, game, end, text),
        Err(fault) => Ok(Err(fault)),
    }
}

/// Fails a test if a step gives another answer, or ends with another level.
fn expect_step(
    alloc: Global,
    rules: &str,
    level: &str,
    input: Option<Dir>,
    text: &str,
    wanted: Stepped,
) -> Result<(), Fail> {
    let game = game_of(alloc, rules, "", level)?;
    let found = step_in(alloc, &game, input, text)?;
    if found == wanted {
        Ok(())
    } else {
        Err(Fail::new(format_args!("{rules}: {found:?}")))
    }
}

#[test]
fn pushes_a_crate(rt: HostRuntime) -> Result<(), Fail> {
    expect_step(
        rt.alloc(),
        "[ > Player | Crate ] -> [ > Player | > Crate ]\n",
        "pc.\n",
        Some(Dir::Right),
        "background:0,background player:1,background crate:2,\n",
        Ok((0, true)),
    )
}

#[test]
fn plays_a_press_in_a_copy(rt: HostRuntime) -> Result<(), Fail> {
    let rules = "[ > Player | Crate ] -> [ > Player | > Crate ]\n";
    let game = game_of(rt.alloc(), rules, "", "pc.\n")?;
    let found = press_in_copy(
        rt.alloc(),
        &game,
        "background:0,background player:1,background crate:2,\n",
    )?;
    assert_eq!(rt; found, Ok((0, true)));
    Ok(())
}

#[test]
fn moves_nothing_against_a_wall(rt: HostRuntime) -> Result<(), Fail> {
    expect_step(
        rt.alloc(),
        "[ > Player | Crate ] -> [ > Player | > Crate ]\n",
        ".pc#\n",
        Some(Dir::Right),
        "background:0,background player:1,background crate:2,background wall:3,\n",
        Ok((0, false)),
    )
}

#[test]
fn leaves_the_level_where_it_is_cancelled(rt: HostRuntime) -> Result<(), Fail> {
    expect_step(
        rt.alloc(),
        "[ > Player | Spike ] -> [ > Player | ] cancel\n",
        "ps\n",
        Some(Dir::Right),
        "background player:0,background spike:1,\n",
        Ok((2, false)),
    )
}

#[test]
fn ticks_without_an_input(rt: HostRuntime) -> Result<(), Fail> {
    expect_step(
        rt.alloc(),
        "[ Crate ] -> [ down Crate ] again\nlate [ Player ] -> [ Player Mark ] checkpoint\n",
        "cp\n..\n",
        None,
        "background:0,background mark player:1,\nbackground crate:2,0,\n",
        Ok((5, true)),
    )
}

#[test]
fn stops_at_the_limit_of_passes(rt: HostRuntime) -> Result<(), Fail> {
    expect_step(
        rt.alloc(),
        "[ Mark ] -> [ Target ]\n+ [ Target ] -> [ Mark ]\n",
        "pm\n",
        Some(Dir::Right),
        "",
        Err(StepFault::LoopLimit),
    )
}

fn won_in(alloc: Global, game: &Game) -> Result<bool, Fail> {
    let level = loaded(alloc, game)?;
    Ok(won(game, &level))
}

/// Whether a level is won at once, with these win lines.
fn is_won(alloc: Global, wins: &str, level: &str) -> Result<bool, Fail> {
    let game = game_of(alloc, "", wins, level)?;
    won_in(alloc, &game)
}

#[test]
fn wins_where_all_lines_hold(rt: HostRuntime) -> Result<(), Fail> {
    let alloc = rt.alloc();
    let found = [
        is_won(alloc, "", "@p\n")?,
        is_won(alloc, "All Crate on Target\n", "@p\n")?,
        is_won(alloc, "All Crate on Target\n", "c@p\n")?,
        is_won(alloc, "All Crate\n", "c@p\n")?,
        is_won(alloc, "Some Crate on Target\n", "c@p\n")?,
        is_won(alloc, "No Crate on Target\n", "cop\n")?,
        is_won(alloc, "Some Crate on Target\nNo Spike\n", "c@s\n")?,
    ];
    assert_eq!(rt; found, [false, true, false, true, true, true, false]);
    Ok(())
}
