//! The instances of a plan.
#![tactic(auto, unfolding(crate::specs::PlanInstances::options_of, crate::specs::PlanInstances::item_of, crate::specs::PlanInstances::cell_of, crate::specs::PlanInstances::row_of, crate::specs::PlanInstances::rows_of, crate::specs::PlanInstances::scan_of, crate::specs::PlanInstances::kept_after, crate::specs::PlanInstances::instance_of, crate::specs::PlanInstances::is_possible, crate::specs::PlanInstances::picks_of, crate::specs::PlanInstances::instances_of))]

ghost use Rattle.std.specs.Prelude.{◌≡◌, ◌++◌, [], IfOk, OnOk, map, fold};
ghost use Rattle.std.specs.List.{list_all};
ghost use Rattle.pz_base.specs.Lists.{product};
ghost use Rattle.pz_plan.specs.Shape.{IsShaped, AreShaped};
ghost use Rattle.pz_rules.specs.PlanInstances.{members_at, options_of, object_of, meaning_of, layer_of, item_of, cell_of, row_of, rows_of, is_one_cell, scan_of, picks_of, instances_of, kept_after};

use crate::kept::Kept;
use crate::patterns::Patterns;
use crate::turning::{class_directions, turned};
use pz_base::listed::Listed;
use pz_game::denotation::Denotation;
use pz_game::direction::Dir;
use pz_game::pattern::{Item, Pattern, Row, Rows, Word};
use pz_grammar::token::Lead;
use pz_instances::exclusion::{Role, have_impossible};
use pz_plan::plan::{Asked, Choice, Plan, PlanRow, Term, TermName};
use pz_program::instance::Instance;
use std::alloc::{AllocError, Global};

/// What a choice gives.
#[derive(Clone, Copy)]
pub enum Pick {
    Object(usize),
    Toward(Dir),
}

/// A plan in one of its directions, the layer of each object, and how many lines of RULES stand below the rule.
#[derive(Drop)]
struct DirectedPlan<'a> {
    layers: &'a [usize],
    below: usize,
    plan: &'a Plan,
    direction: Dir,
}

/// The members of the name of this number.
fn members_at(table: &[Denotation], property: usize) -> &[usize]
    ensures { result.now ≡ members_at table.now property }
{
    match table.get(property) {
        Some(denotation) => denotation.members.items(),
        None => &[],
    }
}

fn member_picks(alloc: Global, objects: &[usize]) -> Result<Vec<Pick>, AllocError>
    ensures { IfOk result (λ picks. picks.items ≡ map (λ object. Pick.Object object) objects.now) }
{
    objects
        .iter()
        .map(|object| Pick::Object(*object))
        .collect(alloc)
}

fn direction_picks(alloc: Global, directions: &[Dir]) -> Result<Vec<Pick>, AllocError>
    ensures { IfOk result (λ picks. picks.items ≡ map (λ toward. Pick.Toward toward) directions.now) }
{
    directions
        .iter()
        .map(|toward| Pick::Toward(*toward))
        .collect(alloc)
}

/// What may be picked at a choice.
fn options_of(
    alloc: Global,
    table: &[Denotation],
    direction: Dir,
    choice: &Choice,
) -> Result<Listed<Pick>, AllocError>
    ensures { IfOk result (λ options. options ≡ options_of table.now direction choice.now) }
{
    let picks = match choice.asked {
        Asked::Member(property) => member_picks(alloc, members_at(table, property))?,
        Asked::Direction(class, _) => direction_picks(alloc, class_directions(direction, class))?,
    };
    Ok(Listed::new(picks))
}

fn object_of(picks: &[Pick], name: TermName) -> usize
    ensures { result ≡ object_of picks.now name }
{
    match name {
        TermName::Object(object) => object,
        TermName::Chosen(k) => match picks.get(k) {
            Some(Pick::Object(object)) => *object,
            _ => 0,
        },
    }
}

/// What a word says of its object in a rule of this direction.
fn meaning_of(direction: Dir, picks: &[Pick], lead: Option<Lead<usize>>) -> Word
    ensures { result ≡ meaning_of direction picks.now lead }
{
    match lead {
        None => Word::Present,
        Some(Lead::No) => Word::Absent,
        Some(Lead::Stationary) => Word::Still,
        Some(Lead::Toward(toward)) => Word::Toward(toward),
        Some(Lead::Turned(turn)) => Word::Toward(turned(direction, turn)),
        Some(Lead::OneOf(k)) => match picks.get(k) {
            Some(Pick::Toward(toward)) => Word::Toward(*toward),
            _ => Word::Present,
        },
    }
}

fn layer_of(layers: &[usize], object: usize) -> usize
    ensures { result ≡ layer_of layers.now object }
{
    layers.get(object).copied().unwrap_or(0)
}

fn item_of(directed: &DirectedPlan, picks: &[Pick], term: &Term) -> Item
    ensures { result ≡ item_of directed.now.layers.now directed.now.direction picks.now term.now }
{
    let object = object_of(picks, term.name);
    Item {
        object,
        layer: layer_of(directed.layers, object),
        word: meaning_of(directed.direction, picks, term.lead),
    }
}

/// Adds the items of a cell.
fn add_items(
    items: &mut Vec<Item>,
    directed: &DirectedPlan,
    picks: &[Pick],
    terms: &[Term],
) -> Result<(), AllocError>
    requires { items.old.items ≡ [] }
    ensures { OnOk result (items.new.items ≡
        map (item_of directed.now.layers.now directed.now.direction picks.now) terms.now) }
{
    for term in terms {
        items.push(item_of(directed, picks, term))?;
    }
    Ok(())
}

fn cell_of(
    patterns: &mut Patterns,
    directed: &DirectedPlan,
    picks: &[Pick],
    terms: &Listed<Term>,
) -> Result<Pattern, AllocError>
    ensures { IfOk result (λ cell. cell ≡ cell_of directed.now.layers.now directed.now.direction picks.now terms.now) }
{
    let mut items = patterns.take_room();
    add_items(&mut items, directed, picks, terms.items())?;
    patterns.pattern_of(items)
}

fn cells_of(
    patterns: &mut Patterns,
    directed: &DirectedPlan,
    picks: &[Pick],
    cells: &[Listed<Term>],
) -> Result<Vec<Pattern>, AllocError>
    ensures { IfOk result (λ out. out.items ≡
        map (cell_of directed.now.layers.now directed.now.direction picks.now) cells.now) }
{
    let mut out = Vec::with_capacity(patterns.alloc(), cells.len())?;
    for terms in cells {
        out.push(cell_of(patterns, directed, picks, terms)?)?;
    }
    Ok(out)
}

fn row_of(
    patterns: &mut Patterns,
    directed: &DirectedPlan,
    picks: &[Pick],
    row: &PlanRow<Term>,
) -> Result<Row, AllocError>
    requires { IsShaped row.now }
    ensures { IfOk result (λ out. out ≡ row_of directed.now.layers.now directed.now.direction picks.now row.now) }
{
    let cells = cells_of(patterns, directed, picks, row.cells.items())?;
    Ok(Row::new(cells, row.gap_at))
}

fn rows_of(
    patterns: &mut Patterns,
    directed: &DirectedPlan,
    picks: &[Pick],
    rows: &[PlanRow<Term>],
) -> Result<Rows, AllocError>
    requires { AreShaped rows.now }
    ensures { IfOk result (λ out. out ≡ rows_of directed.now.layers.now directed.now.direction picks.now rows.now) }
{
    let mut out = Vec::with_capacity(patterns.alloc(), rows.len())?;
    for row in rows {
        out.push(row_of(patterns, directed, picks, row)?)?;
    }
    Ok(Listed::new(out))
}

fn is_one_cell(row: &PlanRow<Term>) -> bool
    ensures { result ≡ is_one_cell row.now }
{
    row.cells.items().len() == 1
}

fn all_one_cell(rows: &[PlanRow<Term>]) -> bool
    ensures { result ≡ list_all is_one_cell rows.now }
{
    rows.iter().all(|row| is_one_cell(row))
}

/// The direction in which an instance is looked for: a rule whose rows all have one cell is scanned upwards. Rule `expand.scan`.
fn scan_of(plan: &Plan, direction: Dir) -> Dir
    ensures { result ≡ scan_of plan.now direction }
{
    if all_one_cell(plan.left.items()) {
        Dir::Up
    } else {
        direction
    }
}

/// Adds the instance of these picks, unless it is impossible or already there. The right of an impossible instance isn't made.
/// Rule `expand.dropped`.
fn consider(
    patterns: &mut Patterns,
    directed: &DirectedPlan,
    picks: &[Pick],
    kept: &mut Kept,
) -> Result<(), AllocError>
    requires left { AreShaped directed.now.plan.now.left }
    requires right { AreShaped directed.now.plan.now.right }
    ensures { OnOk result (kept.new ≡ kept_after directed.now.layers.now directed.now.below directed.now.plan.now
        directed.now.direction kept.old picks.now) }
{
    let plan = directed.plan;
    let left = rows_of(patterns, directed, picks, plan.left.items())?;
    if have_impossible(Role::Asked, left.items()) {
        return Ok(());
    }
    kept.add(Instance {
        scan: scan_of(plan, directed.direction),
        left,
        right: rows_of(patterns, directed, picks, plan.right.items())?,
        commands: plan.commands,
        below: directed.below,
    })
}

/// Considers every list of picks that begins with these. Rule `expand.pairs`.
fn consider_all(
    patterns: &mut Patterns,
    directed: &DirectedPlan,
    options: &[Listed<Pick>],
    picks: &mut Vec<Pick>,
    kept: &mut Kept,
) -> Result<(), AllocError>
    requires left { AreShaped directed.now.plan.now.left }
    requires right { AreShaped directed.now.plan.now.right }
    ensures kept { OnOk result
        (kept.new ≡ fold (kept_after directed.now.layers.now directed.now.below directed.now.plan.now
        directed.now.direction) kept.old
        (map (λ rest. picks.old.items ++ rest) (product options.now))) }
    ensures picks { OnOk result (picks.new.items ≡ picks.old.items) }
{
    let Some((first, others)) = options.split_first() else {
        return consider(patterns, directed, picks, kept);
    };
    'options: for pick in first.items() {
        picks.push(*pick)?;
        consider_all(patterns, directed, others, picks, kept)?;
        let _ = picks.pop();
    }
    Ok(())
}

/// What may be picked at each choice of a plan.
fn all_options(
    alloc: Global,
    table: &[Denotation],
    direction: Dir,
    choices: &[Choice],
) -> Result<Vec<Listed<Pick>>, AllocError>
    ensures { IfOk result (λ options. options.items ≡ map (options_of table.now direction) choices.now) }
{
    let mut options = Vec::new(alloc);
    for choice in choices {
        options.push(options_of(alloc, table, direction, choice)?)?;
    }
    Ok(options)
}

/// Considers every list of picks for one direction.
fn consider_direction(
    patterns: &mut Patterns,
    table: &[Denotation],
    directed: &DirectedPlan,
    kept: &mut Kept,
) -> Result<(), AllocError>
    requires left { AreShaped directed.now.plan.now.left }
    requires right { AreShaped directed.now.plan.now.right }
    ensures { OnOk result
        (kept.new ≡ fold (kept_after directed.now.layers.now directed.now.below directed.now.plan.now
        directed.now.direction) kept.old
        (picks_of table.now directed.now.plan.now directed.now.direction)) }
{
    let alloc = patterns.alloc();
    let choices = directed.plan.choices.items();
    let options = all_options(alloc, table, directed.direction, choices)?;
    let mut picks = Vec::new(alloc);
    consider_all(patterns, directed, &options, &mut picks, kept)?;
    Ok(())
}

/// Considers every direction of a plan. Rule `expand.pairs`.
fn consider_directions(
    patterns: &mut Patterns,
    table: &[Denotation],
    layers: &[usize],
    below: usize,
    plan: &Plan,
    kept: &mut Kept,
) -> Result<(), AllocError>
    requires none { kept.old ≡ [] }
    requires left { AreShaped plan.now.left }
    requires right { AreShaped plan.now.right }
    ensures { OnOk result (kept.new ≡ instances_of table.now layers.now below plan.now) }
{
    for direction in plan.directions.items() {
        let directed = DirectedPlan {
            layers,
            below,
            plan,
            direction: *direction,
        };
        consider_direction(patterns, table, &directed, kept)?;
    }
    Ok(())
}

/// The instances of a plan: the possible ones in order, and of equal ones the first. So many lines of RULES stand below the rule.
pub fn instances_of(
    patterns: &mut Patterns,
    table: &[Denotation],
    layers: &[usize],
    below: usize,
    plan: &Plan,
) -> Result<Vec<Instance>, AllocError>
    requires left { AreShaped plan.now.left }
    requires right { AreShaped plan.now.right }
    ensures { IfOk result (λ instances. instances.items ≡ instances_of table.now layers.now below plan.now) }
{
    let alloc = patterns.alloc();
    let mut kept = Kept::new(alloc);
    consider_directions(patterns, table, layers, below, plan, &mut kept)?;
    kept.into_instances(alloc)
}
