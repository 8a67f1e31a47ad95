//! The search that skips: how many lines it goes through for a row, how many start cells it tests there, and which places it
//! finds.

ghost use Rattle.std.specs.Prelude.{IfOk};
ghost use Rattle.pz_rules.specs.Instance.{IsInstanceOf};
ghost use Rattle.pz_grid.specs.Grid.{IsOfGame};

use crate::matching::first_instance;
use crate::sample::{game_of, loaded, program_of};
use pz_grid::{Level, Place, admitted, places_counted, push_players, resolve};
use pz_rules::Instance;
use pz_source::{Dir, Game};
use std::alloc::{AllocError, Global};
use std::test::Fail;

/// What a search tells.
#[derive(Clone, Copy, PartialEq, Eq, Debug)]
struct Search {
    lines: u32,
    tested: u64,
    starts: u32,
    places: usize,
    last: Option<Place>,
}

/// What a search may tell: lines from one number to another, and just so many tested start cells and these places. Tested are the cells
/// that are left once the positions of the objects that a row's cells name have been joined.
#[derive(Clone, Copy)]
struct Wanted {
    lines: (u32, u32),
    tested: u64,
    starts: u32,
    places: usize,
    last: Option<Place>,
}

impl Wanted {
    fn admits(self, told: Search) -> bool {
        self.lines.0 <= told.lines
            && told.lines <= self.lines.1
            && self.tested == told.tested
            && self.starts == told.starts
            && self.places == told.places
            && self.last == told.last
    }
}

/// The number of start cells of places. The places of one start cell stand together.
fn start_count(found: &[Place]) -> u32 {
    let mut count = 0_u32;
    let mut last = None;
    for place in found {
        let start = Some((place.x, place.y));
        if start != last {
            count = count.saturating_add(1);
        }
        last = start;
    }
    count
}

/// The search for the first row of an instance.
fn search_for(
    alloc: Global,
    game: &Game,
    level: &Level,
    instance: &Instance,
    dir: Dir,
) -> Result<Search, Fail>
    requires level_of { IsOfGame game.now level.now.grid }
    requires instance_of { IsInstanceOf game.now.layers instance.now }
{
    let [row, ..] = instance.left.items() else {
        return Err(Fail::new("no row"));
    };
    let Ok((found, tested)) = places_counted(alloc, level, row, dir) else {
        return Err(Fail::new("no places"));
    };
    Ok(Search {
        lines: admitted(level, row, dir),
        tested,
        starts: start_count(found.as_slice()),
        places: found.len(),
        last: found.last().copied(),
    })
}

/// Fails a test if the search for the first row of the game's first rule tells something else.
fn expect_told(
    alloc: Global,
    game: &Game,
    level: &Level,
    dir: Dir,
    wanted: Wanted,
) -> Result<(), Fail>
    requires level_of { IsOfGame game.now level.now.grid }
{
    let program = program_of(alloc, game)?;
    let instance = first_instance(game, &program)?;
    let told = search_for(alloc, game, level, instance, dir)?;
    if wanted.admits(told) {
        Ok(())
    } else {
        Err(Fail::new(format_args!("{told:?}")))
    }
}

fn expect_in(alloc: Global, game: &Game, dir: Dir, wanted: Wanted) -> Result<(), Fail> {
    let level = loaded(alloc, game)?;
    expect_told(alloc, game, &level, dir, wanted)
}

fn expect_search(
    alloc: Global,
    rule: &str,
    level: &str,
    dir: Dir,
    wanted: Wanted,
) -> Result<(), Fail> {
    let game = game_of(alloc, rule, "", level)?;
    expect_in(alloc, &game, dir, wanted)
}

/// The first level after the player was pushed down and moved.
fn moved_down(alloc: Global, game: &Game) -> Result<Level, Fail>
    ensures { IfOk result (λ level. IsOfGame game.now level.grid) }
{
    let mut level = loaded(alloc, game)?;
    push_players(game, &mut level, Dir::Down);
    resolve(game, &mut level);
    Ok(level)
}

fn expect_moved(alloc: Global, game: &Game, dir: Dir, wanted: Wanted) -> Result<(), Fail> {
    let level = moved_down(alloc, game)?;
    expect_told(alloc, game, &level, dir, wanted)
}

/// A square level of the background, except for what stands in its first cell.
fn square(alloc: Global, first: char, side: usize) -> Result<String, AllocError> {
    let mut rows = String::new(alloc);
    for y in 0..side {
        for x in 0..side {
            rows.push(if x == 0 && y == 0 { first } else { '.' })?;
        }
        rows.push('\n')?;
    }
    Ok(rows)
}

const ANYTHING: &str = "[ ] -> [ Mark ]\n";

const PLAYER: &str = "[ Player ] -> [ Player Mark ]\n";

#[test]
fn a_cell_without_items_is_tested_everywhere(rt: HostRuntime) -> Result<(), Fail> {
    let alloc = rt.alloc();
    let level = square(alloc, '.', 32)?;
    let (x, y, gap) = (31, 31, 0);
    let wanted = Wanted {
        lines: (32, 32),
        tested: 1024,
        starts: 1024,
        places: 1024,
        last: Some(Place { x, y, gap }),
    };
    for dir in [Dir::Up, Dir::Down, Dir::Left, Dir::Right] {
        expect_search(alloc, ANYTHING, level.as_str(), dir, wanted)?;
    }
    Ok(())
}

#[test]
fn two_places_have_one_start_cell(rt: HostRuntime) -> Result<(), Fail> {
    let rule = "right [ Player no Mark | ... | Wall ] -> [ Player Mark | ... | Wall ]\n";
    let (x, y, gap) = (0, 0, 2);
    let wanted = Wanted {
        lines: (1, 1),
        tested: 1,
        starts: 1,
        places: 2,
        last: Some(Place { x, y, gap }),
    };
    expect_search(rt.alloc(), rule, "p#.#\n", Dir::Right, wanted)
}

#[test]
fn one_line_of_many_is_searched(rt: HostRuntime) -> Result<(), Fail> {
    let alloc = rt.alloc();
    let level = square(alloc, 'p', 128)?;
    let (x, y, gap) = (0, 0, 0);
    let wanted = Wanted {
        lines: (1, 1),
        tested: 1,
        starts: 1,
        places: 1,
        last: Some(Place { x, y, gap }),
    };
    expect_search(alloc, PLAYER, level.as_str(), Dir::Right, wanted)
}

#[test]
fn nothing_is_tested_for_what_is_not_there(rt: HostRuntime) -> Result<(), Fail> {
    let alloc = rt.alloc();
    let level = square(alloc, 'p', 128)?;
    let wanted = Wanted {
        lines: (0, 0),
        tested: 0,
        starts: 0,
        places: 0,
        last: None,
    };
    let rule = "[ Crate ] -> [ Crate Mark ]\n";
    expect_search(alloc, rule, level.as_str(), Dir::Right, wanted)
}

#[test]
fn the_player_is_found_where_it_went(rt: HostRuntime) -> Result<(), Fail> {
    let alloc = rt.alloc();
    let game = game_of(alloc, PLAYER, "", "p..\n...\n")?;
    let (x, y, gap) = (0, 1, 0);
    let wanted = Wanted {
        lines: (1, 2),
        tested: 1,
        starts: 1,
        places: 1,
        last: Some(Place { x, y, gap }),
    };
    expect_moved(alloc, &game, Dir::Right, wanted)
}
