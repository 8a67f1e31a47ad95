//! How many pairs of a direction and a list of picks a plan has.
#![tactic(auto, unfolding(crate::specs::Counting::size_of, crate::specs::Counting::pair_count))]

ghost use Rattle.std.specs.Prelude.{◌≡◌, ◌≤◌, ◌*◌, ◌==◌, All, map};
ghost use Rattle.std.specs.List.{list_any};
ghost use Rattle.std.specs.Option.{SomeIff};
ghost use Rattle.pz_base.specs.Lists.{product_of};
ghost use Rattle.pz_rules.specs.Counting.{class_size, size_of, pair_count};

use pz_game::denotation::Denotation;
use pz_grammar::token::Class;
use pz_plan::plan::{Asked, Choice, Plan};

fn class_size(class: Class) -> u64
    ensures { result ≡ class_size class }
{
    match class {
        Class::Moving => 5,
        Class::Orthogonal => 4,
        Class::Horizontal | Class::Vertical | Class::Parallel | Class::Perpendicular => 2,
    }
}

fn size_of(table: &[Denotation], choice: &Choice) -> u64
    ensures { result ≡ size_of table.now choice.now }
{
    match choice.asked {
        Asked::Member(property) => match table.get(property) {
            Some(denotation) => denotation.members.items().len() as u64,
            None => 0,
        },
        Asked::Direction(class, _) => class_size(class),
    }
}

fn has_empty(table: &[Denotation], choices: &[Choice]) -> bool
    ensures { result ≡ list_any (λ choice. size_of table.now choice == 0) choices.now }
{
    choices.iter().any(|choice| size_of(table, choice) == 0)
}

/// The product of the start and the sizes, if it is at most the limit.
fn product_within(start: u64, table: &[Denotation], choices: &[Choice], limit: u64) -> Option<u64>
    requires sizes { All (λ choice. 1 ≤ size_of table.now choice) choices.now }
    ensures { SomeIff result (start * product_of (map (size_of table.now) choices.now) ≤ limit)
        (start * product_of (map (size_of table.now) choices.now)) }
{
    let mut count = start;
    'choices: for choice in choices {
        if count > limit {
            return None;
        }
        count = match count.checked_mul(size_of(table, choice)) {
            Some(product) => product,
            None => return None,
        };
    }
    if count > limit { None } else { Some(count) }
}

/// The product of the start and the sizes, if it is at most the limit, even if a choice is empty.
fn pairs_within(table: &[Denotation], start: u64, choices: &[Choice], limit: u64) -> Option<u64>
    ensures { SomeIff result (start * product_of (map (size_of table.now) choices.now) ≤ limit)
        (start * product_of (map (size_of table.now) choices.now)) }
{
    if has_empty(table, choices) {
        return Some(0);
    }
    product_within(start, table, choices, limit)
}

/// How many pairs a plan has, if that is at most the limit. Rule `checks.too-many-rules`.
pub fn count_within(table: &[Denotation], plan: &Plan, limit: u64) -> Option<u64>
    ensures { SomeIff result (pair_count table.now plan.now ≤ limit) (pair_count table.now plan.now) }
{
    pairs_within(
        table,
        plan.directions.items().len() as u64,
        plan.choices.items(),
        limit,
    )
}
