//! Equal instances of a rule.
#![tactic(auto, unfolding(crate::specs::Equal::same_item, crate::specs::Equal::has_item, crate::specs::Equal::within_cell, crate::specs::Equal::same_cell, crate::specs::Equal::same_row, crate::specs::Equal::same_instance))]

ghost use Rattle.std.specs.Prelude.{◌≡◌};
ghost use Rattle.std.specs.List.{list_all, zip};
ghost use lib.Pointwise.{pointwise};
ghost use Rattle.pz_instances.specs.Equal.{same_meaning, same_item, has_item, within_cell, same_cell, same_row, same_instance};

use pz_game::pattern::{Item, Pattern, Row, Word};
use pz_program::instance::Instance;

/// Whether two words say the same of their object.
pub fn same_meaning(a: Word, b: Word) -> bool
    ensures { result ≡ same_meaning a b }
{
    a == b
}

/// Whether two items are the same.
fn same_item(a: &Item, b: &Item) -> bool
    ensures { result ≡ same_item a.now b.now }
{
    a == b
}

/// Whether an item is among those of a cell.
pub fn has_item(items: &[Item], item: &Item) -> bool
    ensures { result ≡ has_item items.now item.now }
{
    items.iter().any(|x| same_item(x, item))
}

/// Whether a cell has each item of another.
fn within_cell(a: &Pattern, b: &Pattern) -> bool
    ensures { result ≡ within_cell a.now b.now }
{
    a.items().iter().all(|x| has_item(b.items(), x))
}

/// Whether two cells have the same set of items.
fn same_cell(a: &Pattern, b: &Pattern) -> bool
    ensures { result ≡ same_cell a.now b.now }
{
    within_cell(a, b) && within_cell(b, a)
}

/// Whether the cells of two rows agree, as far as both go.
fn cells_agree(a: &[Pattern], b: &[Pattern]) -> bool
    ensures { result ≡ list_all (λ pair. same_cell pair.0 pair.1) (zip a.now b.now) }
{
    a.iter().zip(b).all(|(x, y)| same_cell(x, y))
}

/// Whether two rows have the same cells.
fn same_row(a: &Row, b: &Row) -> bool
    ensures { result ≡ same_row a.now b.now }
{
    a.cells().len() == b.cells().len() && cells_agree(a.cells(), b.cells())
}

/// Whether the rows of two sides agree, as far as both go.
fn rows_agree(a: &[Row], b: &[Row]) -> bool
    ensures { result ≡ list_all (λ pair. same_row pair.0 pair.1) (zip a.now b.now) }
{
    a.iter().zip(b).all(|(x, y)| same_row(x, y))
}

/// Whether two sides have the same rows.
fn same_rows(a: &[Row], b: &[Row]) -> bool
    ensures { result ≡ pointwise same_row a.now b.now }
{
    a.len() == b.len() && rows_agree(a, b)
}

/// Whether two instances of one rule are equal. Rule `expand.equal`.
pub fn same_instance(a: &Instance, b: &Instance) -> bool
    ensures { result ≡ same_instance a.now b.now }
{
    a.scan == b.scan
        && same_rows(a.left.items(), b.left.items())
        && same_rows(a.right.items(), b.right.items())
}
