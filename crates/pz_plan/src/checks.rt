//! What may be wrong with what is written in a rule.
#![tactic(auto, unfolding(crate::specs::Checks::has_more_gaps, crate::specs::Checks::is_long, crate::specs::Checks::is_large, crate::specs::Checks::is_unknown, crate::specs::Checks::is_mixed, crate::specs::Checks::is_moving, crate::specs::Checks::in_cell, crate::specs::Checks::in_row, crate::specs::Checks::in_rows, crate::specs::Checks::in_rule, crate::specs::Checks::has_loose_gap, crate::specs::Checks::same_shape, crate::specs::Checks::shapes_agree, crate::specs::Checks::is_other_shape, crate::specs::Checks::is_misshapen, crate::specs::Checks::fault_of))]

ghost use Rattle.std.specs.Prelude.{◌≡◌};
ghost use Rattle.std.specs.List.{list_any};
ghost use Rattle.pz_plan.specs.Checks.{has_more_gaps, is_long, is_large, is_unknown, is_mixed, is_moving, in_cell, in_row, in_rows, in_rule, has_gap_at, has_loose_gap, same_place, same_shape, shapes_agree, is_other_shape, is_misshapen, fault_of, found_by};

use crate::fault::RuleFault;
use crate::spelling::{denoted, gap_of, is_gap};
use pz_base::listed::Listed;
use pz_game::denotation::{Denotation, Kind};
use pz_game::limits::{MOST_ROW_CELLS, MOST_ROWS};
use pz_grammar::rule::{Cell, Phrase, Rule};
use pz_grammar::token::Lead;

/// Rule `checks.gaps`.
fn has_more_gaps(row: &[Cell]) -> bool
    ensures { result ≡ has_more_gaps row.now }
{
    row.iter().filter(|cell| is_gap(cell)).count() > 1
}

fn is_long(row: &[Cell]) -> bool
    ensures { result ≡ is_long row.now }
{
    row.len() > MOST_ROW_CELLS
}

fn has_long(rows: &[Listed<Cell>]) -> bool
    ensures { result ≡ list_any is_long rows.now }
{
    rows.iter().any(|row| is_long(row.items()))
}

/// Rule `checks.too-large`.
fn is_large(rows: &[Listed<Cell>]) -> bool
    ensures { result ≡ is_large rows.now }
{
    rows.len() > MOST_ROWS || has_long(rows)
}

fn has_many_gaps(rows: &[Listed<Cell>]) -> bool
    ensures { result ≡ list_any has_more_gaps rows.now }
{
    rows.iter().any(|row| has_more_gaps(row.items()))
}

/// What phrases are looked through for.
#[derive(Clone, Copy)]
enum Found {
    Unknown,
    Mixed,
    Moving,
}

/// Rule `checks.unknown`.
fn is_unknown(table: &[Denotation], phrase: &Phrase) -> bool
    ensures { result ≡ is_unknown table.now phrase.now }
{
    denoted(table, phrase.name).is_none()
}

/// Rule `checks.no-aggregate`.
fn is_mixed(table: &[Denotation], phrase: &Phrase) -> bool
    ensures { result ≡ is_mixed table.now phrase.now }
{
    match denoted(table, phrase.name) {
        Some(denotation) => matches!(phrase.lead, Some(Lead::No))
            && matches!(denotation.kind, Kind::Aggregate),
        None => false,
    }
}

fn is_moving(phrase: &Phrase) -> bool
    ensures { result ≡ is_moving phrase.now }
{
    !matches!(phrase.lead, None | Some(Lead::No))
}

fn is_found(table: &[Denotation], by: Found, phrase: &Phrase) -> bool
    ensures { result ≡ found_by table.now by phrase.now }
{
    match by {
        Found::Unknown => is_unknown(table, phrase),
        Found::Mixed => is_mixed(table, phrase),
        Found::Moving => is_moving(phrase),
    }
}

fn among(table: &[Denotation], by: Found, phrases: &[Phrase]) -> bool
    ensures { result ≡ list_any (found_by table.now by) phrases.now }
{
    phrases.iter().any(|phrase| is_found(table, by, phrase))
}

fn in_cell(table: &[Denotation], by: Found, cell: &Cell) -> bool
    ensures { result ≡ in_cell (found_by table.now by) cell.now }
{
    match cell {
        Cell::Gap => false,
        Cell::Items(phrases) => among(table, by, phrases.items()),
    }
}

fn in_row(table: &[Denotation], by: Found, row: &[Cell]) -> bool
    ensures { result ≡ in_row (found_by table.now by) row.now }
{
    row.iter().any(|cell| in_cell(table, by, cell))
}

fn in_rows(table: &[Denotation], by: Found, rows: &[Listed<Cell>]) -> bool
    ensures { result ≡ in_rows (found_by table.now by) rows.now }
{
    rows.iter().any(|row| in_row(table, by, row.items()))
}

/// Whether some phrase of a rule is found by this.
fn in_rule(table: &[Denotation], by: Found, rule: &Rule) -> bool
    ensures { result ≡ in_rule (found_by table.now by) rule.now }
{
    in_rows(table, by, rule.left.items()) || in_rows(table, by, rule.right.items())
}

fn has_gap_at(row: &[Cell], place: usize) -> bool
    ensures { result ≡ has_gap_at row.now place }
{
    match row.get(place) {
        Some(cell) => is_gap(cell),
        None => false,
    }
}

fn has_loose_gap(row: &[Cell]) -> bool
    ensures { result ≡ has_loose_gap row.now }
{
    has_gap_at(row, 0) || has_gap_at(row, row.len().saturating_sub(1))
}

fn has_loose(rows: &[Listed<Cell>]) -> bool
    ensures { result ≡ list_any has_loose_gap rows.now }
{
    rows.iter().any(|row| has_loose_gap(row.items()))
}

fn same_place(a: Option<usize>, b: Option<usize>) -> bool
    ensures { result ≡ same_place a b }
{
    match (a, b) {
        (None, None) => true,
        (Some(a), Some(b)) => a == b,
        _ => false,
    }
}

fn same_shape(a: &[Cell], b: &[Cell]) -> bool
    ensures { result ≡ same_shape a.now b.now }
{
    a.len() == b.len() && same_place(gap_of(a), gap_of(b))
}

fn shapes_agree(left: &[Listed<Cell>], right: &[Listed<Cell>]) -> bool
    ensures { result ≡ shapes_agree left.now right.now }
{
    left.iter()
        .zip(right)
        .all(|(a, b)| same_shape(a.items(), b.items()))
}

fn is_other_shape(left: &[Listed<Cell>], right: &[Listed<Cell>]) -> bool
    ensures { result ≡ is_other_shape left.now right.now }
{
    right.len() != 0 && !(left.len() == right.len() && shapes_agree(left, right))
}

/// Rule `checks.shape`.
fn is_misshapen(rule: &Rule) -> bool
    ensures { result ≡ is_misshapen rule.now }
{
    has_loose(rule.left.items())
        || has_loose(rule.right.items())
        || is_other_shape(rule.left.items(), rule.right.items())
}

/// The first fault in what a rule says. Rule `checks.late-movement`.
pub fn fault_of(table: &[Denotation], is_late: bool, rule: &Rule) -> Option<RuleFault>
    ensures { result ≡ fault_of table.now is_late rule.now }
{
    if has_many_gaps(rule.left.items()) || has_many_gaps(rule.right.items()) {
        Some(RuleFault::OutsideProfile)
    } else if is_large(rule.left.items()) || is_large(rule.right.items()) {
        Some(RuleFault::TooLarge)
    } else if in_rule(table, Found::Unknown, rule) {
        Some(RuleFault::Unknown)
    } else if in_rule(table, Found::Mixed, rule) {
        Some(RuleFault::Mixed)
    } else if is_misshapen(rule) {
        Some(RuleFault::Shape)
    } else if is_late && in_rule(table, Found::Moving, rule) {
        Some(RuleFault::LateMovement)
    } else {
        None
    }
}
