//! The choices of a left side, numbered in the order of its text.
#![tactic(auto, unfolding(crate::specs::Numbering::term_of, crate::specs::Numbering::asked_by, crate::specs::Numbering::terms_of, crate::specs::Numbering::asked_in, crate::specs::Numbering::choices_at, crate::specs::Numbering::cells_of, crate::specs::Numbering::asked_count, crate::specs::Numbering::choices_in_row, crate::specs::Numbering::rows_of, crate::specs::Numbering::choices_in_rows))]

ghost use Rattle.std.specs.Prelude.{◌≡◌, ◌++◌, ◌+◌, OnOk, IfOk, map, length};
ghost use Rattle.pz_plan.specs.Numbering.{asked_by_mark, asked_by_subject, asked_by, choices_at, choices_in_row, choices_in_rows, lead_of, name_of, term_of, terms_of, cells_of, asked_in, asked_count, rows_of};

use crate::plan::{Asked, Choice, Mention, PlanRow, Spot, Subject, Term, TermName};
use pz_base::listed::Listed;
use pz_grammar::token::{Class, Lead};
use std::alloc::{AllocError, Global};

/// The word of a term, if the choice of its direction has this number.
pub fn lead_of(number: usize, lead: Option<Lead<Class>>) -> Option<Lead<usize>>
    ensures { result ≡ lead_of number lead }
{
    match lead {
        None => None,
        Some(Lead::No) => Some(Lead::No),
        Some(Lead::Stationary) => Some(Lead::Stationary),
        Some(Lead::Toward(direction)) => Some(Lead::Toward(direction)),
        Some(Lead::Turned(turn)) => Some(Lead::Turned(turn)),
        Some(Lead::OneOf(_)) => Some(Lead::OneOf(number)),
    }
}

/// The name of a term, if the choice of its member has this number.
pub fn name_of(number: usize, subject: Subject) -> TermName
    ensures { result ≡ name_of number subject }
{
    match subject {
        Subject::Object(object) => TermName::Object(object),
        Subject::Property(_) => TermName::Chosen(number),
    }
}

/// Adds the choice of a word for several directions.
fn add_mark(
    spot: Spot,
    lead: Option<Lead<Class>>,
    subject: Subject,
    choices: &mut Vec<Choice>,
) -> Result<(), AllocError>
    ensures { OnOk result (choices.new.items ≡
        choices.old.items ++ map (λ what. record { spot = spot; asked = what }) (asked_by_mark lead subject)) }
{
    if let Some(Lead::OneOf(class)) = lead {
        choices.push(Choice {
            spot,
            asked: Asked::Direction(class, subject),
        })?;
    }
    Ok(())
}

/// Adds the choice of a member.
fn add_subject(spot: Spot, subject: Subject, choices: &mut Vec<Choice>) -> Result<(), AllocError>
    ensures { OnOk result (choices.new.items ≡
        choices.old.items ++ map (λ what. record { spot = spot; asked = what }) (asked_by_subject subject)) }
{
    if let Subject::Property(property) = subject {
        choices.push(Choice {
            spot,
            asked: Asked::Member(property),
        })?;
    }
    Ok(())
}

/// The term of a mention, whose choices are added.
fn number_term(spot: Spot, mention: &Mention, choices: &mut Vec<Choice>) -> Result<Term, AllocError>
    ensures term { IfOk result (λ term. term ≡ term_of (length choices.old.items) mention.now) }
    ensures choices { OnOk result
        (choices.new.items ≡ choices.old.items ++ map (λ what. record { spot = spot; asked = what })
        (asked_by mention.now)) }
{
    let lead = lead_of(choices.len(), mention.lead);
    add_mark(spot, mention.lead, mention.subject, choices)?;
    let name = name_of(choices.len(), mention.subject);
    add_subject(spot, mention.subject, choices)?;
    Ok(Term { lead, name })
}

/// The terms of a cell, whose choices are added.
fn number_terms(
    alloc: Global,
    spot: Spot,
    mentions: &[Mention],
    choices: &mut Vec<Choice>,
) -> Result<Listed<Term>, AllocError>
    ensures terms { IfOk result (λ terms. terms ≡ terms_of (length choices.old.items) mentions.now) }
    ensures choices { OnOk result (choices.new.items ≡ choices.old.items ++ choices_at spot mentions.now) }
    ensures count { OnOk result (length choices.new.items ≡ length choices.old.items + asked_in mentions.now) }
{
    let mut terms = Vec::new(alloc);
    for mention in mentions {
        terms.push(number_term(spot, mention, choices)?)?;
    }
    Ok(Listed::new(terms))
}

/// The terms of the cells of a row, whose choices are added.
fn number_cells(
    alloc: Global,
    row: usize,
    cells: &[Listed<Mention>],
    choices: &mut Vec<Choice>,
) -> Result<Listed<Listed<Term>>, AllocError>
    ensures cells { IfOk result (λ out. out ≡ cells_of (length choices.old.items) cells.now) }
    ensures choices { OnOk result (choices.new.items ≡ choices.old.items ++ choices_in_row row cells.now) }
    ensures count { OnOk result (length choices.new.items ≡ length choices.old.items + asked_count cells.now) }
{
    let mut out = Vec::new(alloc);
    for (cell, mentions) in cells.iter().enumerate() {
        out.push(number_terms(alloc, Spot { row, cell }, mentions.items(), choices)?)?;
    }
    Ok(Listed::new(out))
}

/// The rows of terms of a left side, whose choices are added. Rule `expand.choices`.
pub fn number_rows(
    alloc: Global,
    rows: &[PlanRow<Mention>],
    choices: &mut Vec<Choice>,
) -> Result<Listed<PlanRow<Term>>, AllocError>
    ensures rows { IfOk result (λ out. out ≡ rows_of (length choices.old.items) rows.now) }
    ensures choices { OnOk result (choices.new.items ≡ choices.old.items ++ choices_in_rows rows.now) }
{
    let mut out = Vec::new(alloc);
    for (number, row) in rows.iter().enumerate() {
        let cells = number_cells(alloc, number, row.cells.items(), choices)?;
        out.push(PlanRow {
            cells,
            gap_at: row.gap_at,
        })?;
    }
    Ok(Listed::new(out))
}
