//! The marks of a level: the objects that each row, each column and the whole may have.

ghost use Rattle.std.specs.Prelude.{◌≡◌, ℕ, ◌<◌, ◌&&◌, All, IfErr, IfOk, OnOk, OnErr, true, length, nat_eq, []};
ghost use Rattle.std.specs.List.{list_any};
ghost use Rattle.pz_sets.specs.Sets.{member};
ghost use Rattle.pz_sets.specs.declared.set.TheConstants.{CAPACITY};
ghost use Rattle.pz_sheet.specs.Grid.{IsOnMap, IsLawful};
ghost use Rattle.pz_sheet.specs.Presence.{in_row, in_column};
ghost use Rattle.pz_game.specs.Items.{names, names_object};
ghost use Rattle.pz_game.specs.Level.{is_playable, entry_at};
ghost use Rattle.pz_bare.specs.Loading.{level_of_entry};
ghost use Rattle.pz_grid.specs.Marks.{is_marked, IsExact, IsMore};
ghost use Rattle.pz_grid.specs.declared.placing.GridFault.TheVariants.{Memory};

use crate::Level;
use crate::placing::GridFault;
use pz_bare::BareLevel;
use pz_game::game::Game;
use pz_game::masks::names;
use pz_game::pattern::{Item, Pattern};
use pz_sets::set::NumberSet;
use pz_sheet::line::Axis;
use std::alloc::{AllocError, Global};

impl Level {
    /// Loads the entry of LEVELS of this number, which must be a level. Entries are numbered from 0. Err: memory was refused.
    pub fn load(alloc: Global, game: &Game, index: usize) -> Result<Level, GridFault>
        requires { is_playable (entry_at game.now index) ≡ true }
        ensures loaded { IfOk result (λ level. level.grid ≡ level_of_entry game.now index) }
        ensures lawful { IfOk result (λ level. IsLawful level.grid) }
        ensures exact { IfOk result IsExact }
        ensures memory { IfErr result (λ fault. fault ≡ Memory) }
    {
        let bare = BareLevel::load(alloc, game, index)?;
        let level = Level::marked(alloc, bare)?;
        Ok(level)
    }

    /// A copy of the level. The marks of the copy are exactly what stands in each line. Err: memory was refused.
    pub fn copy(&self) -> Result<Level, GridFault>
        ensures copied { IfOk result (λ level. level.grid ≡ self.now.grid) }
        ensures lawful { IfOk result (λ level. IsLawful level.grid) }
        ensures exact { IfOk result IsExact }
        ensures memory { IfErr result (λ fault. fault ≡ Memory) }
    {
        let level = self.copied()?;
        Ok(level)
    }

    /// Like `copy`, for callers whose only fault is want of memory.
    pub fn copied(&self) -> Result<Level, AllocError>
        ensures copied { IfOk result (λ level. level.grid ≡ self.now.grid) }
        ensures lawful { IfOk result (λ level. IsLawful level.grid) }
        ensures exact { IfOk result IsExact }
    {
        Level::marked(*self.row_marks.allocator(), self.bare.copy()?)
    }

    /// Makes this level equal to another, and its marks exactly what stands in each line. It reuses its memory if both have one size. Err:
    /// memory was refused, and the cells are unchanged.
    pub fn copy_from(&mut self, other: &Level) -> Result<(), AllocError>
        ensures copied { OnOk result (self.new.grid ≡ other.now.grid) }
        ensures exact { OnOk result (IsExact self.new) }
        ensures kept { OnErr result (self.new.grid ≡ self.old.grid) }
    {
        if !self.bare.same_size(&other.bare) {
            *self = other.copied()?;
            return Ok(());
        }
        self.bare.copy_from(&other.bare)?;
        self.level_marks = mark_lines(&self.bare, &mut self.row_marks, &mut self.column_marks);
        Ok(())
    }

    /// Adds marks to a level: exactly what stands in each line. Err: memory was refused.
    pub fn marked(alloc: Global, bare: BareLevel) -> Result<Level, AllocError>
        ensures grid { IfOk result (λ level. level.grid ≡ bare.grid) }
        ensures lawful { IfOk result (λ level. IsLawful level.grid) }
        ensures exact { IfOk result IsExact }
    {
        let mut row_marks = vec![in alloc; NumberSet::empty(); bare.height() as usize]?;
        let mut column_marks = vec![in alloc; NumberSet::empty(); bare.width() as usize]?;
        let level_marks = mark_lines(&bare, &mut row_marks, &mut column_marks);
        Ok(Level {
            bare,
            row_marks,
            column_marks,
            level_marks,
        })
    }

    /// Marks an object in the row and the column of a position.
    pub(crate) fn mark(&mut self, x: u32, y: u32, object: usize)
        requires on_map { IsOnMap self.old.grid x y }
        requires low { object < CAPACITY }
        ensures grid { self.new.grid ≡ self.old.grid }
        ensures rows { IsMore self.old.row_marks self.new.row_marks y (nat_eq object) }
        ensures columns { IsMore self.old.column_marks self.new.column_marks x (nat_eq object) }
    {
        mark_in(&mut self.row_marks, y, object);
        mark_in(&mut self.column_marks, x, object);
        self.level_marks.insert(object);
    }

    /// Marks an item's object in the row and the column of a position, if the item names it as present.
    fn mark_item(&mut self, x: u32, y: u32, item: Item)
        requires on_map { IsOnMap self.old.grid x y }
        requires low { item.object < CAPACITY }
        ensures grid { self.new.grid ≡ self.old.grid }
        ensures rows { IsMore self.old.row_marks self.new.row_marks y
            (λ object. names item.word && nat_eq item.object object) }
        ensures columns { IsMore self.old.column_marks self.new.column_marks x
            (λ object. names item.word && nat_eq item.object object) }
    {
        if names(item.word) {
            self.mark(x, y, item.object);
        }
    }

    /// Marks each object that a right cell of a rule places in the row and the column of a position.
    pub(crate) fn mark_placed(&mut self, x: u32, y: u32, right: &Pattern)
        requires on_map { IsOnMap self.old.grid x y }
        requires low { All (λ item. item.object < CAPACITY) right.now }
        ensures grid { self.new.grid ≡ self.old.grid }
        ensures rows { IsMore self.old.row_marks self.new.row_marks y (λ object. names_object object right.now) }
        ensures columns { IsMore self.old.column_marks self.new.column_marks x
            (λ object. names_object object right.now) }
    {
        for item in right.items() {
            self.mark_item(x, y, *item);
        }
    }
}

/// Adds an object to the marks of a line.
fn mark_in(marks: &mut Vec<NumberSet>, line: u32, object: usize)
    requires line_in { line < length marks.old.items }
    requires low { object < CAPACITY }
    ensures count { length marks.new.items ≡ length marks.old.items }
    ensures more { IsMore marks.old.items marks.new.items line (nat_eq object) }
{
    marks[line as usize].insert(object);
}

/// Sets the marks of each row and of each column to the objects that stand there, and gives those of the whole level.
pub(crate) fn mark_lines(
    bare: &BareLevel,
    row_marks: &mut Vec<NumberSet>,
    column_marks: &mut Vec<NumberSet>,
) -> NumberSet
    requires row_count { length row_marks.old.items ≡ bare.now.grid.height }
    requires column_count { length column_marks.old.items ≡ bare.now.grid.width }
    ensures row_count { length row_marks.new.items ≡ bare.now.grid.height }
    ensures column_count { length column_marks.new.items ≡ bare.now.grid.width }
    ensures rows { (line object : ℕ) → line < bare.now.grid.height →
        is_marked row_marks.new.items line object ≡ in_row bare.now.grid line object }
    ensures columns { (line object : ℕ) → line < bare.now.grid.width →
        is_marked column_marks.new.items line object ≡ in_column bare.now.grid line object }
    ensures all { (object : ℕ) → member result object ≡ list_any (λ row. member row object) row_marks.new.items }
{
    bare.mark_lines(Axis::Horizontal, row_marks.as_mut_slice());
    bare.mark_lines(Axis::Vertical, column_marks.as_mut_slice());
    all_of(row_marks)
}

/// The objects of these sets together.
fn all_of(marks: &[NumberSet]) -> NumberSet
    ensures { (object : ℕ) → member result object ≡ list_any (λ set. member set object) marks.now }
{
    let mut set = NumberSet::empty();
    for line in marks {
        set = set.union(line);
    }
    set
}
