//! What the names of a rule stand for: aggregates and synonyms are replaced, and what a cell says twice counts once.
#![tactic(auto, unfolding(crate::specs::Same::same_mention, crate::specs::Same::says_the_same, crate::specs::Spelling::mentions_of, crate::specs::Spelling::denotation_if_any, crate::specs::Spelling::mentions_at, crate::specs::Spelling::cell_of, crate::specs::Spelling::is_gap, crate::specs::Spelling::gap_of, crate::specs::Spelling::row_spelled_out, crate::specs::Spelling::rows_spelled_out))]

ghost use Rattle.std.specs.Prelude.{◌≡◌, ◌<◌, ◌≤◌, ◌||◌, ◌++◌, OnOk, IfOk, IfSome, option_copied, slice_get, length};
ghost use Rattle.std.specs.List.{flat_map, list_any};
ghost use Rattle.pz_base.specs.Lists.{with_new, added_all};
ghost use Rattle.pz_plan.specs.Shape.{AreShort};
ghost use Rattle.pz_plan.specs.Same.{is_class, is_some_member, same_word, same_lead, same_subject, same_mention, says_the_same};
ghost use Rattle.pz_plan.specs.Spelling.{is_chosen, mentions_of, mentions_at, denotation_if_any, spelled_out, cell_of, is_gap, gap_of, row_spelled_out, rows_spelled_out};

use crate::plan::{Mention, PlanRow, Subject};
use pz_base::listed::Listed;
use pz_game::denotation::{Denotation, Kind};
use pz_game::limits::MOST_ROW_CELLS;
use pz_grammar::rule::{Cell, Phrase};
use pz_grammar::token::{Class, Lead};
use std::alloc::{AllocError, Global};

/// A side of a rule.
#[derive(Clone, Copy)]
pub enum Side {
    Left,
    Right,
}

fn same_word(a: Lead<Class>, b: Lead<Class>) -> bool
    ensures { result ≡ same_word a b }
{
    match (a, b) {
        (Lead::No, Lead::No) | (Lead::Stationary, Lead::Stationary) => true,
        (Lead::Toward(a), Lead::Toward(b)) => a == b,
        (Lead::Turned(a), Lead::Turned(b)) => a == b,
        (Lead::OneOf(a), Lead::OneOf(b)) => a == b,
        _ => false,
    }
}

fn same_lead(a: Option<Lead<Class>>, b: Option<Lead<Class>>) -> bool
    ensures { result ≡ same_lead a b }
{
    match (a, b) {
        (None, None) => true,
        (Some(a), Some(b)) => same_word(a, b),
        _ => false,
    }
}

fn same_subject(a: Subject, b: Subject) -> bool
    ensures { result ≡ same_subject a b }
{
    a == b
}

fn same_mention(a: &Mention, b: &Mention) -> bool
    ensures { result ≡ same_mention a.now b.now }
{
    same_lead(a.lead, b.lead) && same_subject(a.subject, b.subject)
}

/// Whether a mention has a choice.
fn has_choice(mention: &Mention) -> bool
    ensures { result ≡ is_class mention.now.lead || is_some_member mention.now.subject }
{
    matches!(mention.lead, Some(Lead::OneOf(_))) || matches!(mention.subject, Subject::Property(_))
}

/// Whether a mention repeats one before it.
fn says_the_same(side: Side, a: &Mention, b: &Mention) -> bool
    ensures { result ≡ says_the_same side a.now b.now }
{
    match side {
        Side::Left => !has_choice(a) && same_mention(a, b),
        Side::Right => same_mention(a, b),
    }
}

fn is_said(side: Side, mentions: &[Mention], mention: &Mention) -> bool
    ensures { result ≡ list_any (λ other. says_the_same side other mention.now) mentions.now }
{
    mentions
        .iter()
        .any(|other| says_the_same(side, other, mention))
}

/// Adds a mention, unless it repeats one that is there.
fn add_mention(side: Side, mention: Mention, mentions: &mut Vec<Mention>) -> Result<(), AllocError>
    ensures { OnOk result (mentions.new.items ≡ with_new (says_the_same side) mentions.old.items mention) }
{
    if !is_said(side, mentions, &mention) {
        mentions.push(mention)?;
    }
    Ok(())
}

/// Whether the name stands for one of its members: under `no` it stands for each. Rule `expand.no-property`.
fn is_chosen(lead: Option<Lead<Class>>, denotation: &Denotation) -> bool
    ensures { result ≡ is_chosen lead denotation.now }
{
    matches!(denotation.kind, Kind::Property)
        && !matches!(lead, Some(Lead::No))
        && denotation.members.items().len() != 1
}

/// Adds what a name stands for, with the word before it: of an aggregate each member, with the word.
/// Rules `expand.names`, `expand.no-property`.
fn add_mentions(
    side: Side,
    lead: Option<Lead<Class>>,
    denotation: &Denotation,
    mentions: &mut Vec<Mention>,
) -> Result<(), AllocError>
    ensures { OnOk result (mentions.new.items ≡
        added_all (says_the_same side) mentions.old.items (mentions_of lead denotation.now)) }
{
    if is_chosen(lead, denotation) {
        return add_mention(
            side,
            Mention {
                lead,
                subject: Subject::Property(denotation.number),
            },
            mentions,
        );
    }
    for object in denotation.members.items() {
        add_mention(
            side,
            Mention {
                lead,
                subject: Subject::Object(*object),
            },
            mentions,
        )?;
    }
    Ok(())
}

/// What the name of this number denotes.
fn denotation_at(table: &[Denotation], number: usize) -> Option<&Denotation>
    ensures { option_copied result ≡ slice_get table.now number }
{
    table.get(number)
}

/// What a name denotes, if there is such a name. Rule `legend.one-member`.
pub fn denoted(table: &[Denotation], name: Option<usize>) -> Option<&Denotation>
    ensures { option_copied result ≡ denotation_if_any table.now name }
{
    match name {
        Some(number) => denotation_at(table, number),
        None => None,
    }
}

fn add_phrase(
    side: Side,
    table: &[Denotation],
    phrase: &Phrase,
    mentions: &mut Vec<Mention>,
) -> Result<(), AllocError>
    ensures { OnOk result (mentions.new.items ≡
        added_all (says_the_same side) mentions.old.items (mentions_at table.now phrase.now)) }
{
    match denoted(table, phrase.name) {
        Some(denotation) => add_mentions(side, phrase.lead, denotation, mentions),
        None => Ok(()),
    }
}

/// What the phrases of a cell stand for.
#[tactic(auto, using(crate::proofs::Mentions::mentioning), unfolding(crate::specs::Spelling::spelled_out))]
fn spelled_out(
    alloc: Global,
    side: Side,
    table: &[Denotation],
    phrases: &Listed<Phrase>,
) -> Result<Listed<Mention>, AllocError>
    ensures { IfOk result (λ mentions. mentions ≡ spelled_out side table.now phrases.now) }
{
    let mut mentions = Vec::new(alloc);
    for phrase in phrases.items() {
        add_phrase(side, table, phrase, &mut mentions)?;
    }
    Ok(Listed::new(mentions))
}

/// Adds what a cell says; a gap is no cell.
fn add_cell(
    alloc: Global,
    side: Side,
    table: &[Denotation],
    cell: &Cell,
    cells: &mut Vec<Listed<Mention>>,
) -> Result<(), AllocError>
    ensures { OnOk result (cells.new.items ≡ cells.old.items ++ cell_of side table.now cell.now) }
{
    match cell {
        Cell::Gap => Ok(()),
        Cell::Items(phrases) => {
            let mentions = spelled_out(alloc, side, table, phrases)?;
            cells.push(mentions)?;
            Ok(())
        }
    }
}

fn cells_spelled_out(
    alloc: Global,
    side: Side,
    table: &[Denotation],
    row: &[Cell],
) -> Result<Listed<Listed<Mention>>, AllocError>
    ensures { IfOk result (λ out. out ≡ flat_map (cell_of side table.now) row.now) }
{
    let mut out = Vec::new(alloc);
    for cell in row {
        add_cell(alloc, side, table, cell, &mut out)?;
    }
    Ok(Listed::new(out))
}

/// Whether this is the gap.
pub fn is_gap(cell: &Cell) -> bool
    ensures { result ≡ is_gap cell.now }
{
    matches!(cell, Cell::Gap)
}

/// How many cells stand before the gap of a row.
pub fn gap_of(row: &[Cell]) -> Option<usize>
    ensures gap { result ≡ gap_of row.now }
    ensures within { IfSome result (λ at. at < length row.now) }
{
    row.iter().position(|cell| is_gap(cell))
}

/// The same for a row that isn't too long.
fn gap_at(row: &[Cell]) -> Option<u32>
    requires { length row.now ≤ MOST_ROW_CELLS }
    ensures { result ≡ gap_of row.now }
{
    match gap_of(row) {
        Some(at) => Some(at as u32),
        None => None,
    }
}

fn row_spelled_out(
    alloc: Global,
    side: Side,
    table: &[Denotation],
    row: &[Cell],
) -> Result<PlanRow<Mention>, AllocError>
    requires { length row.now ≤ MOST_ROW_CELLS }
    ensures { IfOk result (λ out. out ≡ row_spelled_out side table.now row.now) }
{
    Ok(PlanRow {
        cells: cells_spelled_out(alloc, side, table, row)?,
        gap_at: gap_at(row),
    })
}

/// The rows with each name replaced by what it stands for. Rule `expand.names`.
pub(crate) fn rows_spelled_out(
    alloc: Global,
    side: Side,
    table: &[Denotation],
    rows: &[Listed<Cell>],
) -> Result<Listed<PlanRow<Mention>>, AllocError>
    requires { AreShort rows.now }
    ensures { IfOk result (λ out. out ≡ rows_spelled_out side table.now rows.now) }
{
    let mut out = Vec::new(alloc);
    for row in rows {
        out.push(row_spelled_out(alloc, side, table, row.items())?)?;
    }
    Ok(Listed::new(out))
}
