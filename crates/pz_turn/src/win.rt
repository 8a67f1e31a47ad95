//! When a level is won.

ghost use Rattle.std.specs.Prelude.{◌≡◌, ◌<◌, List, Option, IfSome, length};
ghost use Rattle.std.specs.List.{list_any, list_all};
ghost use Rattle.pz_cells.specs.declared.piece.Piece.{Piece};
ghost use Rattle.pz_sheet.specs.Presence.{cell_of, holds_one};
ghost use Rattle.pz_turn.specs.Win.{fits_kind, fits, fits_on, fits_both, fits_if, line_holds, has_won, AreAsked};

use pz_game::denotation::{Denotation, Kind};
use pz_game::game::Game;
use pz_game::win_line::{Quantifier, WinLine};
use pz_grid::Level;

/// Whether the cell of this number fits what a name denotes: an object or a property if it holds a member, an aggregate if it holds all.
/// Rule `wins.fit`.
fn fits_kind(level: &Level, index: usize, denotation: &Denotation) -> bool
    requires { index < length level.now.grid.cells }
    ensures { result ≡ fits_kind denotation.now.kind denotation.now.members (cell_of level.now.grid index) }
{
    let members = denotation.members.items();
    match denotation.kind {
        Kind::Aggregate => level.holds_each(index, members),
        Kind::Object | Kind::Property => level.holds_one(index, members),
    }
}

fn fits(game: &Game, level: &Level, index: usize, number: usize) -> bool
    requires { index < length level.now.grid.cells }
    ensures { result ≡ fits game.now number (cell_of level.now.grid index) }
{
    match game.values().get(number) {
        None => false,
        Some(denotation) => fits_kind(level, index, denotation),
    }
}

fn fits_on(game: &Game, level: &Level, index: usize, on: Option<usize>) -> bool
    requires { index < length level.now.grid.cells }
    ensures { result ≡ fits_on game.now on (cell_of level.now.grid index) }
{
    match on {
        None => true,
        Some(number) => fits(game, level, index, number),
    }
}

fn fits_both(game: &Game, level: &Level, index: usize, line: WinLine) -> bool
    requires { index < length level.now.grid.cells }
    ensures { result ≡ fits_both game.now line (cell_of level.now.grid index) }
{
    fits(game, level, index, line.subject) && fits_on(game, level, index, line.on)
}

fn fits_if(game: &Game, level: &Level, index: usize, line: WinLine) -> bool
    requires { index < length level.now.grid.cells }
    ensures { result ≡ fits_if game.now line (cell_of level.now.grid index) }
{
    !fits(game, level, index, line.subject) || fits_on(game, level, index, line.on)
}

fn all_fit(game: &Game, level: &Level, line: WinLine) -> bool
    ensures { result ≡ list_all (fits_if game.now line) level.now.grid.cells }
{
    for index in 0..level.cell_count() {
        if !fits_if(game, level, index, line) {
            return false;
        }
    }
    true
}

fn some_fits(game: &Game, level: &Level, line: WinLine) -> bool
    ensures { result ≡ list_any (fits_both game.now line) level.now.grid.cells }
{
    for index in 0..level.cell_count() {
        if fits_both(game, level, index, line) {
            return true;
        }
    }
    false
}

/// Whether a win line holds, tested cell by cell.
fn line_holds_by_cell(game: &Game, level: &Level, line: WinLine) -> bool
    ensures { result ≡ line_holds game.now level.now.grid line }
{
    match line.quantifier {
        Quantifier::All => all_fit(game, level, line),
        Quantifier::Some => some_fits(game, level, line),
        Quantifier::No => !some_fits(game, level, line),
    }
}

/// The members of the name of this number, if a cell fits the name by holding one of them. `None`: it is an aggregate, or there is no such
/// name.
fn members_of(game: &Game, number: usize) -> Option<&[usize]>
    ensures { IfSome result (λ members. (cell : List (Option Piece)) →
        fits game.now number cell ≡ holds_one members.now cell) }
{
    match game.values().get(number) {
        None => None,
        Some(denotation) => match denotation.kind {
            Kind::Aggregate => None,
            Kind::Object | Kind::Property => Some(denotation.members.items()),
        },
    }
}

/// The members of the name after `on`, if a cell fits that name by holding one of them. Without `on` they are those of the first name,
/// because then each cell that fits the first name fits both.
fn others_of<'a>(game: &'a Game, line: WinLine, objects: &'a [usize]) -> Option<&'a [usize]>
    requires { (cell : List (Option Piece)) → fits game.now line.subject cell ≡ holds_one objects.now cell }
    ensures { IfSome result (λ others. AreAsked game.now line objects.now others.now) }
{
    match line.on {
        None => Some(objects),
        Some(number) => members_of(game, number),
    }
}

/// Whether a win line holds. A cell fits its first name by holding one of `objects`, and its second by holding one of `others`.
fn line_holds_of(
    game: &Game,
    level: &Level,
    line: WinLine,
    objects: &[usize],
    others: &[usize],
) -> bool
    requires { AreAsked game.now line objects.now others.now }
    ensures { result ≡ line_holds game.now level.now.grid line }
{
    match line.quantifier {
        Quantifier::All => level.all_hold(objects, others),
        Quantifier::Some => level.some_holds(objects, others),
        Quantifier::No => !level.some_holds(objects, others),
    }
}

/// Rule `wins.hold`.
fn line_holds(game: &Game, level: &Level, line: WinLine) -> bool
    ensures { result ≡ line_holds game.now level.now.grid line }
{
    if let Some(objects) = members_of(game, line.subject) {
        if let Some(others) = others_of(game, line, objects) {
            return line_holds_of(game, level, line, objects, others);
        }
    }
    line_holds_by_cell(game, level, line)
}

fn all_hold(game: &Game, level: &Level, lines: &[WinLine]) -> bool
    ensures { result ≡ list_all (line_holds game.now level.now.grid) lines.now }
{
    for line in lines {
        if !line_holds(game, level, *line) {
            return false;
        }
    }
    true
}

/// Whether the level is won: the game has win lines, and all of them hold. Rule `wins.step`.
#[tactic(auto, unfolding(crate::specs::Win::has_won))]
pub fn won(game: &Game, level: &Level) -> bool
    ensures { result ≡ has_won game.now level.now.grid }
{
    let wins = game.wins();
    !wins.is_empty() && all_hold(game, level, wins)
}
