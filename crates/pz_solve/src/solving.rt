//! The search, breadth first.

ghost use Rattle.std.specs.Prelude.{◌≡◌, ◌+◌, ◌<◌, ◌≤◌, ℕ, length, max, IfOk, OnOk, Some, slice_get};
ghost use Rattle.pz_game.specs.declared.direction.Dir.{Dir};
ghost use Rattle.pz_program.specs.Instance.{IsProgramOf};
ghost use Rattle.pz_sheet.specs.Grid.{Grid, IsOfGame};
ghost use Rattle.pz_solve.specs.Answers.{IsAnswer, most_kept};
ghost use Rattle.pz_solve.specs.Found.{Found, IsSearch};
ghost use Rattle.pz_solve.specs.Moves.{move_of};
ghost use Rattle.pz_solve.specs.Trying.{AreOfGame, HasExpanded, HasTried, input_of, tried_by};

use crate::answer::{Answer, BYTES_OF_CELL, BYTES_OF_LEVEL, Bounds, SolveFault};
use crate::moves::Move;
use crate::path::inputs_to;
use crate::search::{Noted, Search};
use pz_game::direction::Dir;
use pz_game::game::Game;
use pz_grid::Level;
use pz_program::instance::Program;
use std::alloc::{AllocError, Global};

/// How many presses there are. Each is tried from each level, `Action` too: `noaction` changes nothing.
const PRESSES: usize = 5;

/// What trying presses has come to.
#[derive(Clone, Copy)]
pub enum Tried {
    /// Nothing won.
    Nothing,
    /// This press wins.
    Wins(Dir),
    /// There is a level more than there is room for.
    NoRoom,
}

/// The press of a number.
fn input_of(number: usize) -> Dir
    ensures { result ≡ input_of number }
{
    if number == 0 {
        Dir::Up
    } else if number == 1 {
        Dir::Down
    } else if number == 2 {
        Dir::Left
    } else if number == 3 {
        Dir::Right
    } else {
        Dir::Action
    }
}

/// What noting a level has come to.
fn tried_by(noted: Noted) -> Tried
    ensures { result ≡ tried_by noted }
{
    match noted {
        Noted::NoRoom => Tried::NoRoom,
        _ => Tried::Nothing,
    }
}

/// Tries a press from a level that was found. The level that it leads to is added, if it is new.
fn try_press(
    alloc: Global,
    game: &Game,
    program: &Program,
    search: &mut Search,
    index: usize,
    input: Dir,
    most: usize,
) -> Result<Tried, AllocError>
    requires within { index < length search.old }
    requires level_of { AreOfGame game.now search.old }
    requires program_of { IsProgramOf game.now.layers program.now }
    ensures level_of { OnOk result (AreOfGame game.now search.new) }
    ensures longer { OnOk result (length search.old ≤ length search.new) }
    ensures room { OnOk result (length search.new ≤ max (length search.old) most) }
    ensures tried { IfOk result (λ tried. (start : Grid) (here : Found) →
        IsSearch (move_of game.now program.now) start search.old index → slice_get search.old index ≡ Some here →
        HasTried (move_of game.now program.now) start search.old search.new index here most input tried) }
{
    match search.play(alloc, game, program, index, input)? {
        Move::Stands(next) => {
            let link = search.link_behind(index, input)?;
            Ok(tried_by(search.note(next, link, most)?))
        }
        Move::Wins => Ok(Tried::Wins(input)),
        Move::DeadEnd => Ok(Tried::Nothing),
    }
}

/// Tries each press from a level that was found, up to the first that wins or has no room.
fn expand(
    alloc: Global,
    game: &Game,
    program: &Program,
    search: &mut Search,
    index: usize,
    most: usize,
) -> Result<Tried, AllocError>
    requires within { index < length search.old }
    requires level_of { AreOfGame game.now search.old }
    requires program_of { IsProgramOf game.now.layers program.now }
    ensures level_of { OnOk result (AreOfGame game.now search.new) }
    ensures longer { OnOk result (length search.old ≤ length search.new) }
    ensures room { OnOk result (length search.new ≤ max (length search.old) most) }
    ensures tried { IfOk result (λ tried. (start : Grid) (here : Found) →
        IsSearch (move_of game.now program.now) start search.old index → slice_get search.old index ≡ Some here →
        HasExpanded (move_of game.now program.now) start search.old search.new index here most tried) }
{
    for number in 0..PRESSES {
        match try_press(alloc, game, program, search, index, input_of(number), most)? {
            Tried::Nothing => {}
            tried => return Ok(tried),
        }
    }
    Ok(Tried::Nothing)
}

/// The most levels that a search from a level keeps.
fn most_kept(bounds: Bounds, level: &Level) -> usize
    ensures { result ≡ most_kept bounds level.now.grid }
{
    // (brings the proof the law of the level)
    let _ = level.width();
    let bytes = level.cell_count() * BYTES_OF_CELL + BYTES_OF_LEVEL;
    bounds.levels.min(bounds.bytes / bytes)
}

/// Solves a level: plays presses from it, breadth first, each level once. Err: memory was refused.
pub fn solve(
    alloc: Global,
    game: &Game,
    program: &Program,
    level: &Level,
    bounds: Bounds,
) -> Result<Answer, SolveFault>
    requires level_of { IsOfGame game.now level.now.grid }
    requires program_of { IsProgramOf game.now.layers program.now }
    ensures { IfOk result (IsAnswer (move_of game.now program.now) level.now.grid bounds) }
{
    let most = most_kept(bounds, level);
    let mut search = Search::new(alloc, level, game.layers().len())?;
    let mut index = 0;
    'levels: while index < search.len() {
        match expand(alloc, game, program, &mut search, index, most)? {
            Tried::Nothing => index += 1,
            Tried::Wins(last) => {
                return Ok(Answer::Solved(inputs_to(alloc, &search, index, last)?));
            }
            Tried::NoRoom => {
                return Ok(Answer::OutOfBounds {
                    levels: search.len(),
                    inputs: search.link(index).depth as usize,
                });
            }
        }
    }
    Ok(Answer::Unsolvable)
}
