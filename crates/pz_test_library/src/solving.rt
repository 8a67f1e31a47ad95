//! What a search answers.

use crate::sample::{expect, game_of, loaded, program_of};
use pz_grid::Level;
use pz_solve::{Answer, Bounds, SolveFault, solve};
use pz_source::{Dir, Game};
use std::alloc::{AllocError, Global};
use std::fmt::Write;
use std::test::Fail;

/// A rule by which the player pushes crates.
const PUSHING: &str = "[ > Player | Crate ] -> [ > Player | > Crate ]\n";

/// The win line of crates on targets.
const FILLED: &str = "All Target on Crate\n";

/// The first letter of a press, or `a` for the action.
fn letter(input: Dir) -> &'static str {
    match input {
        Dir::Up => "u",
        Dir::Down => "d",
        Dir::Left => "l",
        Dir::Right => "r",
        Dir::Action => "a",
    }
}

/// The letters of presses.
fn letters(alloc: Global, inputs: &[Dir]) -> Result<String, AllocError> {
    let mut text = String::new(alloc);
    for input in inputs {
        text.push_str(letter(*input))?;
    }
    Ok(text)
}

/// An answer as a text.
fn said(alloc: Global, answer: Result<Answer, SolveFault>) -> Result<String, AllocError> {
    match answer {
        Ok(Answer::Solved(inputs)) => letters(alloc, &inputs),
        Ok(Answer::Unsolvable) => format!(in alloc; "unsolvable"),
        Ok(Answer::OutOfBounds { levels, inputs }) => {
            format!(in alloc; "{levels} levels, {inputs} inputs")
        }
        Err(SolveFault::Memory) => Err(AllocError),
    }
}

fn answer(alloc: Global, game: &Game, bounds: Bounds) -> Result<String, Fail> {
    let level = loaded(alloc, game)?;
    let program = program_of(alloc, game)?;
    Ok(said(alloc, solve(alloc, game, &program, &level, bounds))?)
}

/// Fails a test if a level has another answer.
fn expect_answer(
    alloc: Global,
    rules: &str,
    wins: &str,
    level: &str,
    levels: usize,
    wanted: &str,
) -> Result<(), Fail> {
    let game = game_of(alloc, rules, wins, level)?;
    let bounds = Bounds {
        levels,
        bytes: 1000000,
    };
    let found = answer(alloc, &game, bounds)?;
    expect(found.as_str(), wanted)
}

/// Fails a test if the level of a crate that can be pushed has another answer within so many bytes.
fn expect_within(alloc: Global, bytes: usize, wanted: &str) -> Result<(), Fail> {
    let game = game_of(alloc, PUSHING, FILLED, "p.c.o\n.....\n")?;
    let bounds = Bounds {
        levels: 1000,
        bytes,
    };
    let found = answer(alloc, &game, bounds)?;
    expect(found.as_str(), wanted)
}

#[test]
fn solves_in_the_fewest_presses(rt: HostRuntime) -> Result<(), Fail> {
    expect_answer(rt.alloc(), PUSHING, FILLED, "p.c.o\n.....\n", 1000, "rrr")
}

#[test]
fn goes_round_a_crate(rt: HostRuntime) -> Result<(), Fail> {
    expect_answer(
        rt.alloc(),
        PUSHING,
        FILLED,
        "#######\n#op.c.#\n#.....#\n#######\n",
        1000,
        "drrrulll",
    )
}

#[test]
fn says_that_no_list_wins(rt: HostRuntime) -> Result<(), Fail> {
    expect_answer(rt.alloc(), PUSHING, FILLED, "pc#o\n", 1000, "unsolvable")
}

#[test]
fn says_how_far_it_came(rt: HostRuntime) -> Result<(), Fail> {
    expect_answer(
        rt.alloc(),
        PUSHING,
        FILLED,
        "p.c.o\n.....\n",
        2,
        "2 levels, 0 inputs",
    )
}

#[test]
fn keeps_what_has_room(rt: HostRuntime) -> Result<(), Fail> {
    expect_within(rt.alloc(), 0, "1 levels, 0 inputs")?;
    expect_within(rt.alloc(), 207, "1 levels, 0 inputs")?;
    expect_within(rt.alloc(), 208, "2 levels, 0 inputs")?;
    expect_within(rt.alloc(), 10400, "rrr")
}

#[test]
fn wins_by_a_command(rt: HostRuntime) -> Result<(), Fail> {
    expect_answer(
        rt.alloc(),
        "[ action Player ] -> [ Player ] win\n",
        "",
        "p\n",
        1,
        "a",
    )
}

#[test]
fn wins_by_a_tick(rt: HostRuntime) -> Result<(), Fail> {
    expect_answer(
        rt.alloc(),
        "[ > Player | Crate ] -> [ > Player | > Crate ] again\n[ stationary Player | | Crate ] -> [ stationary Player | | Crate ] win\n",
        "",
        "pc..\n",
        100,
        "unsolvable",
    )
}

#[test]
fn takes_a_chain_that_stops_for_a_dead_end(rt: HostRuntime) -> Result<(), Fail> {
    expect_answer(
        rt.alloc(),
        "[ > Player | Mark ] -> [ > Player | Target ]\n[ Player | Mark ] -> [ Player | Target ]\n+ [ Player | Target ] -> [ Player | Mark ]\n",
        "All Mark on Player\n",
        "p.m\n",
        100,
        "unsolvable",
    )
}

#[test]
fn takes_a_restart_for_a_dead_end(rt: HostRuntime) -> Result<(), Fail> {
    expect_answer(
        rt.alloc(),
        "[ > Player | Spike ] -> [ > Player | ] restart\n",
        "Some Player on Target\n",
        "pso\n",
        100,
        "unsolvable",
    )
}
