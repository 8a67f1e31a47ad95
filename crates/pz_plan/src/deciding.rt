//! Which choice of the left decides an item of the right.
#![tactic(auto, unfolding(crate::specs::Deciding::is_member, crate::specs::Deciding::is_direction, crate::specs::Deciding::is_direction_on, crate::specs::Deciding::is_here, crate::specs::Deciding::the_only, crate::specs::Deciding::member_choice, crate::specs::Deciding::direction_choice, crate::specs::Deciding::decided_lead, crate::specs::Deciding::decided_name, crate::specs::Deciding::decided_term, crate::specs::Deciding::decided_terms, crate::specs::Deciding::decided_cells, crate::specs::Deciding::decided_row, crate::specs::Deciding::decided_rows))]

ghost use Rattle.std.specs.Prelude.{◌≡◌, Option, IfOk};
ghost use Rattle.pz_plan.specs.Deciding.{is_member, is_direction, is_direction_on, is_here, the_only, member_choice, direction_choice, decided_lead, decided_name, decided_term, decided_terms, decided_cells, decided_row, decided_rows, fits, fits_within};

use crate::numbering::{lead_of, name_of};
use crate::plan::{Asked, Choice, Mention, PlanRow, Spot, Subject, Term, TermName};
use pz_base::listed::Listed;
use pz_grammar::token::{Class, Lead};
use std::alloc::{AllocError, Global};

/// Which choice is looked for.
#[derive(Clone, Copy)]
enum Wanted {
    Member(usize),
    Direction(Class),
    DirectionOn(Class, Subject),
}

/// Whether a choice is the one looked for.
fn fits(wanted: Wanted, choice: &Choice) -> bool
    ensures { result ≡ fits wanted choice.now }
{
    match (wanted, choice.asked) {
        (Wanted::Member(property), Asked::Member(own)) => own == property,
        (Wanted::Direction(class), Asked::Direction(other, _)) => other == class,
        (Wanted::DirectionOn(class, name), Asked::Direction(other, on)) => other == class
            && on == name,
        _ => false,
    }
}

/// Whether a choice is the one looked for and stands in the cell, if one is given.
fn fits_within(wanted: Wanted, within: Option<Spot>, choice: &Choice) -> bool
    ensures { result ≡ fits_within wanted within choice.now }
{
    match within {
        Some(spot) => choice.spot == spot && fits(wanted, choice),
        None => fits(wanted, choice),
    }
}

/// The number of the choice that is looked for, if there is exactly one.
fn the_only(wanted: Wanted, within: Option<Spot>, choices: &[Choice]) -> Option<usize>
    ensures { result ≡ the_only (fits_within wanted within) choices.now }
{
    let mut found = None;
    for (number, choice) in choices.iter().enumerate() {
        if fits_within(wanted, within, choice) {
            if found.is_some() {
                return None;
            }
            found = Some(number);
        }
    }
    found
}

/// The choice that decides a property of the right. Rule `expand.right-property`.
fn member_choice(choices: &[Choice], spot: Spot, property: usize) -> Option<usize>
    ensures { result ≡ member_choice choices.now spot property }
{
    let wanted = Wanted::Member(property);
    the_only(wanted, Some(spot), choices).or(the_only(wanted, None, choices))
}

/// The choice that decides a word of the right. Rule `expand.right-word`.
fn direction_choice(choices: &[Choice], spot: Spot, class: Class, on: Subject) -> Option<usize>
    ensures { result ≡ direction_choice choices.now spot class on }
{
    let wanted = Wanted::Direction(class);
    the_only(Wanted::DirectionOn(class, on), Some(spot), choices)
        .or(the_only(wanted, Some(spot), choices))
        .or(the_only(wanted, None, choices))
}

fn decided_lead(
    choices: &[Choice],
    spot: Spot,
    lead: Option<Lead<Class>>,
    subject: Subject,
) -> Option<Option<Lead<usize>>>
    ensures { result ≡ decided_lead choices.now spot lead subject }
{
    match lead {
        Some(Lead::OneOf(class)) => match direction_choice(choices, spot, class, subject) {
            Some(number) => Some(Some(Lead::OneOf(number))),
            None => None,
        },
        other => Some(lead_of(0, other)),
    }
}

fn decided_name(choices: &[Choice], spot: Spot, subject: Subject) -> Option<TermName>
    ensures { result ≡ decided_name choices.now spot subject }
{
    match subject {
        Subject::Property(property) => match member_choice(choices, spot, property) {
            Some(number) => Some(TermName::Chosen(number)),
            None => None,
        },
        other => Some(name_of(0, other)),
    }
}

/// The term of an item of the right, if it isn't ambiguous.
fn decided_term(choices: &[Choice], spot: Spot, mention: &Mention) -> Option<Term>
    ensures { result ≡ decided_term choices.now spot mention.now }
{
    let lead = decided_lead(choices, spot, mention.lead, mention.subject)?;
    let name = decided_name(choices, spot, mention.subject)?;
    Some(Term { lead, name })
}

/// The terms of a cell of the right, if none is ambiguous.
fn decided_terms(
    alloc: Global,
    choices: &[Choice],
    spot: Spot,
    mentions: &[Mention],
) -> Result<Option<Listed<Term>>, AllocError>
    ensures { IfOk result (λ terms. terms ≡ decided_terms choices.now spot mentions.now) }
{
    let mut terms = Vec::new(alloc);
    for mention in mentions {
        let Some(term) = decided_term(choices, spot, mention) else {
            return Ok(None)
        };
        terms.push(term)?;
    }
    Ok(Some(Listed::new(terms)))
}

fn decided_cells(
    alloc: Global,
    choices: &[Choice],
    row: usize,
    cells: &[Listed<Mention>],
) -> Result<Option<Listed<Listed<Term>>>, AllocError>
    ensures { IfOk result (λ out. out ≡ decided_cells choices.now row 0 cells.now) }
{
    let mut out = Vec::new(alloc);
    for (cell, mentions) in cells.iter().enumerate() {
        let Some(terms) = decided_terms(alloc, choices, Spot { row, cell }, mentions.items())?
        else {
            return Ok(None)
        };
        out.push(terms)?;
    }
    Ok(Some(Listed::new(out)))
}

fn decided_row(
    alloc: Global,
    choices: &[Choice],
    number: usize,
    row: &PlanRow<Mention>,
) -> Result<Option<PlanRow<Term>>, AllocError>
    ensures { IfOk result (λ out. out ≡ decided_row choices.now number row.now) }
{
    match decided_cells(alloc, choices, number, row.cells.items())? {
        Some(cells) => Ok(Some(PlanRow {
            cells,
            gap_at: row.gap_at,
        })),
        None => Ok(None),
    }
}

/// The rows of terms of a right side, if nothing in it is ambiguous. Rule `expand.ambiguous`.
pub fn decided_rows(
    alloc: Global,
    choices: &[Choice],
    rows: &[PlanRow<Mention>],
) -> Result<Option<Listed<PlanRow<Term>>>, AllocError>
    ensures { IfOk result (λ out. out ≡ decided_rows choices.now 0 rows.now) }
{
    let mut out = Vec::new(alloc);
    for (number, row) in rows.iter().enumerate() {
        let Some(terms) = decided_row(alloc, choices, number, row)? else {
            return Ok(None)
        };
        out.push(terms)?;
    }
    Ok(Some(Listed::new(out)))
}
