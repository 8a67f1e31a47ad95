//! Rows, token by token.
#![tactic(auto, unfolding(crate::specs::Parsed::led, crate::specs::Parsed::inside))]

ghost use Rattle.std.specs.Prelude.{◌≡◌, ◌≤◌, ◌<◌, ◌∷◌, [], Option, Some, None, true, IfOk, IfSome, MatchOption, length};
ghost use Rattle.pz_grammar.specs.Parsed.{inside, led, outside, with_phrase, with_gap, with_bar, with_close};
ghost use Rattle.pz_grammar.specs.Written.{has_cells};
ghost use Rattle.pz_grammar.specs.Steps.{before, row_before, StepIs, StepFits, after_open};

use crate::rule::{Cell, Phrase};
use crate::token::{Class, Lead, Token};
use pz_base::listed::Listed;
use pz_base::listing::pushed;
use std::alloc::{AllocError, Global};

/// The finished cells of a row, and the one that is being read.
#[derive(Drop)]
struct OpenRow {
    cells: Listed<Cell>,
    cell: Cell,
}

/// What a token does inside a row.
#[derive(Drop)]
enum Step<'a> {
    Going(OpenRow, &'a [Token]),
    Ended(Listed<Cell>, &'a [Token]),
    Refused,
}

/// Rule `rules.cells`.
#[tactic(auto, using(crate::proofs::Stepping::stepping))]
fn phrase_added<'a>(row: OpenRow, phrase: Phrase, rest: &'a [Token]) -> Result<Step<'a>, AllocError>
    ensures step { IfOk result (StepIs (before row.cells row.cell (with_phrase phrase (inside rest.now)))) }
    ensures shorter { IfOk result (StepFits (length rest.now)) }
{
    let OpenRow { cells, cell } = row;
    match cell {
        Cell::Gap => Ok(Step::Refused),
        Cell::Items(items) => Ok(Step::Going(
            OpenRow {
                cells,
                cell: Cell::Items(pushed(items, phrase)?),
            },
            rest,
        )),
    }
}

#[tactic(auto, using(crate::proofs::Stepping::stepping))]
fn gap_added<'a>(row: OpenRow, rest: &'a [Token]) -> Step<'a>
    ensures step { StepIs (before row.cells row.cell (with_gap (inside rest.now))) result }
    ensures shorter { StepFits (length rest.now) result }
{
    let OpenRow { cells, cell } = row;
    match cell {
        Cell::Gap => Step::Refused,
        Cell::Items(items) => match items.items().first() {
            Some(_) => Step::Refused,
            None => Step::Going(
                OpenRow {
                    cells,
                    cell: Cell::Gap,
                },
                rest,
            ),
        },
    }
}

#[tactic(auto, using(crate::proofs::Stepping::stepping))]
fn bar_added<'a>(alloc: Global, row: OpenRow, rest: &'a [Token]) -> Result<Step<'a>, AllocError>
    ensures step { IfOk result (StepIs (before row.cells row.cell (with_bar (inside rest.now)))) }
    ensures shorter { IfOk result (StepFits (length rest.now)) }
{
    let OpenRow { cells, cell } = row;
    let cells = pushed(cells, cell)?;
    Ok(Step::Going(
        OpenRow {
            cells,
            cell: Cell::Items(Listed::new(Vec::new(alloc))),
        },
        rest,
    ))
}

#[tactic(auto, using(crate::proofs::Stepping::stepping))]
fn close_added<'a>(row: OpenRow, rest: &'a [Token]) -> Result<Step<'a>, AllocError>
    ensures step { IfOk result (StepIs (before row.cells row.cell (with_close (outside rest.now)))) }
    ensures shorter { IfOk result (StepFits (length rest.now)) }
{
    let OpenRow { cells, cell } = row;
    Ok(Step::Ended(pushed(cells, cell)?, rest))
}

/// A name, after the word before it.
fn lead_added<'a>(
    row: OpenRow,
    lead: Lead<Class>,
    rest: &'a [Token],
) -> Result<Step<'a>, AllocError>
    ensures step { IfOk result (StepIs (before row.cells row.cell (led lead rest.now))) }
    ensures shorter { IfOk result (StepFits (length rest.now)) }
{
    match rest.split_first() {
        Some((Token::Name(name), after)) => phrase_added(
            row,
            Phrase {
                lead: Some(lead),
                name: *name,
            },
            after,
        ),
        _ => Ok(Step::Refused),
    }
}

/// What a token does inside a row.
fn token_added<'a>(
    alloc: Global,
    row: OpenRow,
    token: Token,
    rest: &'a [Token],
) -> Result<Step<'a>, AllocError>
    ensures step { IfOk result (StepIs (before row.cells row.cell (inside (token ∷ rest.now)))) }
    ensures shorter { IfOk result (StepFits (length rest.now)) }
{
    match token {
        Token::Name(name) => phrase_added(row, Phrase { lead: None, name }, rest),
        Token::Lead(lead) => lead_added(row, lead, rest),
        Token::Gap => Ok(gap_added(row, rest)),
        Token::Bar => bar_added(alloc, row, rest),
        Token::Close => close_added(row, rest),
        Token::Open
        | Token::Arrow
        | Token::Plus
        | Token::Late
        | Token::StartLoop
        | Token::EndLoop
        | Token::Command(_) => Ok(Step::Refused),
    }
}

/// The cells of a row after its bracket, and what follows the row.
#[tactic(auto, using(crate::proofs::Stepping::stepping), unfolding(crate::specs::Parsed::inside))]
fn read_row<'a>(
    alloc: Global,
    tokens: &'a [Token],
) -> Result<Option<(Listed<Cell>, &'a [Token])>, AllocError>
    ensures row { IfOk result
        (λ found. MatchOption found (inside tokens.now ≡ None)
        (λ p. inside tokens.now ≡ row_before p.0 (outside p.1.now))) }
    ensures shorter { IfOk result
        (λ found. IfSome found (λ p. (length p.1.now ≤ length tokens.now) × (has_cells p.0 ≡ true))) }
{
    let mut row = OpenRow {
        cells: Listed::new(Vec::new(alloc)),
        cell: Cell::Items(Listed::new(Vec::new(alloc))),
    };
    let mut rest = tokens;
    while let Some((token, more)) = rest.split_first() {
        match token_added(alloc, row, *token, more)? {
            Step::Going(next, after) => {
                row = next;
                rest = after;
            }
            Step::Ended(cells, after) => return Ok(Some((cells, after))),
            Step::Refused => return Ok(None),
        }
    }
    Ok(None)
}

/// What follows a bracket that opens a row, if there is one.
fn after_open(tokens: &[Token]) -> Option<&[Token]>
    ensures rest { MatchOption result (after_open tokens.now ≡ None) (λ rest. after_open tokens.now ≡ Some rest.now) }
    ensures shorter { IfSome result (λ rest. length rest.now < length tokens.now) }
{
    match tokens {
        [Token::Open, rest @ ..] => Some(rest),
        _ => None,
    }
}

/// The rows that tokens begin with, and what follows them.
#[tactic(auto, using(crate::proofs::Stepping::rowing))]
pub fn read_rows<'a>(
    alloc: Global,
    tokens: &'a [Token],
) -> Result<Option<(Listed<Listed<Cell>>, &'a [Token])>, AllocError>
    ensures { IfOk result (λ found.
        MatchOption found (outside tokens.now ≡ None)
        (λ p. outside tokens.now ≡ Some (record { rows = p.0; rest = p.1.now }))) }
{
    let mut rows = Vec::new(alloc);
    let mut rest = tokens;
    while let Some(inner) = after_open(rest) {
        let Some((row, more)) = read_row(alloc, inner)? else {
            return Ok(None)
        };
        rows.push(row)?;
        rest = more;
    }
    Ok(Some((Listed::new(rows), rest)))
}
