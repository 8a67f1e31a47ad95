//! Items that can't stand in one cell.
#![tactic(auto, unfolding(crate::specs::Exclusion::excludes, crate::specs::Exclusion::excludes_some, crate::specs::Exclusion::is_impossible, crate::specs::Exclusion::has_impossible))]

ghost use Rattle.std.specs.Prelude.{◌≡◌};
ghost use Rattle.std.specs.List.{list_any};
ghost use Rattle.pz_instances.specs.Exclusion.{is_absent, is_present, at_odds, excludes, excludes_some, is_impossible, has_impossible};

use crate::equal::same_meaning;
use pz_game::pattern::{Item, Row, Word};

/// What the items of a cell are for: a left asks for them, a right places them.
#[derive(Clone, Copy)]
pub enum Role {
    Asked,
    Placed,
}

fn is_absent(word: Word) -> bool
    ensures { result ≡ is_absent word }
{
    matches!(word, Word::Absent)
}

fn is_present(word: Word) -> bool
    ensures { result ≡ is_present word }
{
    matches!(word, Word::Present)
}

/// Whether two words contradict each other on one object.
fn at_odds(role: Role, a: Word, b: Word) -> bool
    ensures { result ≡ at_odds role a b }
{
    match role {
        Role::Asked => {
            if is_absent(a) || is_absent(b) {
                !(is_absent(a) && is_absent(b))
            } else {
                !(is_present(a) || is_present(b) || same_meaning(a, b))
            }
        }
        Role::Placed => !(is_absent(a) || is_absent(b)) && !same_meaning(a, b),
    }
}

/// Whether no cell can be as both items say. Rule `expand.dropped`.
fn excludes(role: Role, a: &Item, b: &Item) -> bool
    ensures { result ≡ excludes role a.now b.now }
{
    if a.object == b.object {
        at_odds(role, a.word, b.word)
    } else {
        !(is_absent(a.word) || is_absent(b.word)) && a.layer == b.layer
    }
}

fn excludes_some(role: Role, cell: &[Item], a: &Item) -> bool
    ensures { result ≡ excludes_some role cell.now a.now }
{
    cell.iter().any(|b| excludes(role, a, b))
}

/// Whether no cell of a level can be as all items say.
fn is_impossible(role: Role, cell: &[Item]) -> bool
    ensures { result ≡ is_impossible role cell.now }
{
    cell.iter().any(|a| excludes_some(role, cell, a))
}

/// Whether a row has an impossible cell.
fn has_impossible(role: Role, row: &Row) -> bool
    ensures { result ≡ has_impossible role row.now }
{
    row.cells()
        .iter()
        .any(|cell| is_impossible(role, cell.items()))
}

/// Whether one of these rows has an impossible cell.
pub fn have_impossible(role: Role, rows: &[Row]) -> bool
    ensures { result ≡ list_any (has_impossible role) rows.now }
{
    rows.iter().any(|row| has_impossible(role, row))
}
