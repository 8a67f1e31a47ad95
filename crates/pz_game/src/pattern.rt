//! The rows of rules: cells with items.

ghost use Rattle.std.specs.Prelude.{◌≡◌, All, IfOk};
ghost use Rattle.pz_game.specs.Masks.{IsLow, AreMasksOf};
ghost use Rattle.pz_game.specs.Pattern.{IsRow, AreNamed, AreRequired};

use crate::direction::Dir;
use crate::masks::Masks;
use pz_base::listed::Listed;
use pz_sets::set::NumberSet;
use std::alloc::{AllocError, Global};
use std::marker::Model;
use std::sync::Arc;

/// What an item says of its object: it is there, however it moves; it is there and still; it is there and moves so; it isn't there.
#[derive(Clone, Copy, PartialEq, Eq)]
pub enum Word {
    Present,
    Still,
    Toward(Dir),
    Absent,
}

/// An object, with its layer, and what is said of it.
#[derive(Clone, Copy, PartialEq, Eq)]
pub struct Item {
    pub object: usize,
    pub layer: usize,
    pub word: Word,
}

/// The items of a cell, with what they say as sets.
#[derive(Drop)]
struct Contents {
    items: Vec<Item>,
    masks: Masks,
}

/// A cell of a rule's row, with its items as sets: it holds where all its items hold. Equal cells may share their contents,
/// because the rules of a game have few different ones.
#[derive(Drop)]
pub struct Pattern {
    contents: Arc<Contents>,
}

impl Model for Pattern {
    ghost use Rattle.std.specs.Prelude.{List, All};
    ghost use Rattle.std.specs.Arc.{arc_value};
    ghost use Rattle.pz_game.specs.declared.pattern.Item.{Item};
    ghost use Rattle.pz_game.specs.Masks.{IsLow, AreMasksOf};

    ghost Value = { List Item };

    ghost view = { λ p. (arc_value p.contents).items.items };

    ghost invariant = { λ p. All IsLow (arc_value p.contents).items.items →
        AreMasksOf (arc_value p.contents).items.items (arc_value p.contents).masks };
}

impl Pattern {
    pub fn new(alloc: Global, items: Vec<Item>) -> Result<Pattern, AllocError>
        ensures { IfOk result (λ pattern. pattern ≡ items.items) }
    {
        let masks = Masks::of(&items);
        let contents = Arc::new(alloc, Contents { items, masks })?;
        Ok(Pattern { contents })
    }

    /// Another cell with the same contents.
    pub fn share(&self) -> Result<Pattern, AllocError>
        ensures { IfOk result (λ shared. shared ≡ self.now) }
    {
        let contents = Arc::try_clone(&self.contents)?;
        Ok(Pattern { contents })
    }

    /// What the items say, as sets, if their objects and layers are within the limits of games.
    pub fn masks(&self) -> &Masks
        ensures { All IsLow self.now → AreMasksOf self.now result.now }
    {
        &self.contents.masks
    }

    pub fn items(&self) -> &[Item]
        ensures { result.now ≡ self.now }
    {
        self.contents.items.as_slice()
    }
}

/// A row of a rule, with the objects that its cells name as present and the directions in which they ask these to head. Its gap, if it has one, stands before the cell of that number.
#[derive(Drop)]
pub struct Row {
    cells: Vec<Pattern>,
    gap_at: Option<u32>,
    named: NumberSet,
    required: NumberSet,
}

impl Model for Row {
    ghost use Rattle.std.specs.Prelude.{All};
    ghost use Rattle.pz_game.specs.Masks.{IsLow};
    ghost use Rattle.pz_game.specs.Pattern.{RuleRow, IsRow, AreNamed, AreRequired};

    ghost Value = { RuleRow };

    ghost view = { λ r. record { cells = r.cells.items; gap_at = r.gap_at } };

    ghost invariant = { λ r. IsRow (record { cells = r.cells.items; gap_at = r.gap_at }) ×
        (All (All IsLow) r.cells.items → AreNamed r.cells.items r.named × AreRequired r.cells.items r.required) };
}

/// The objects that cells name as present.
fn named_by(cells: &[Pattern]) -> NumberSet
    ensures { All (All IsLow) cells.now → AreNamed cells.now result }
{
    let mut named = NumberSet::empty();
    for cell in cells {
        named = named.union(&cell.masks().present);
    }
    named
}

/// The directions in which cells ask layers to head.
fn required_by(cells: &[Pattern]) -> NumberSet
    ensures { All (All IsLow) cells.now → AreRequired cells.now result }
{
    let mut required = NumberSet::empty();
    for cell in cells {
        required = required.union(&cell.masks().required);
    }
    required
}

impl Row {
    pub fn new(cells: Vec<Pattern>, gap_at: Option<u32>) -> Row
        requires { IsRow (record { cells = cells.items; gap_at = gap_at }) }
        ensures { result ≡ record { cells = cells.items; gap_at = gap_at } }
    {
        let named = named_by(&cells);
        let required = required_by(&cells);
        Row {
            cells,
            gap_at,
            named,
            required,
        }
    }

    /// The objects that the cells name as present, if the objects and the layers of their items are within the limits of games.
    pub fn named(&self) -> &NumberSet
        ensures { All (All IsLow) self.now.cells → AreNamed self.now.cells result.now }
    {
        &self.named
    }

    /// The directions in which the cells ask layers to head, under the same condition.
    pub fn required(&self) -> &NumberSet
        ensures { All (All IsLow) self.now.cells → AreRequired self.now.cells result.now }
    {
        &self.required
    }

    pub fn cells(&self) -> &[Pattern]
        ensures cells { result.now ≡ self.now.cells }
        ensures row { IsRow self.now }
    {
        self.cells.as_slice()
    }

    /// The number of the cell before which the gap stands.
    pub fn gap_at(&self) -> Option<u32>
        ensures { result ≡ self.now.gap_at }
    {
        self.gap_at
    }
}

/// The rows of one side of a rule.
pub type Rows = Listed<Row>;
