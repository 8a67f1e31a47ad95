//! Bare levels: levels without marks, with as many words a cell as their game needs. They are loaded, copied, compared, read and changed.
//! Also the past of a level.
#![tactic(auto)]

ghost use Rattle.std.specs.Prelude.{◌≡◌, ℕ, ◌<◌, ◌≤◌, ◌↔◌, List, IsTrue, true, map, length, All, IfOk, OnOk, OnErr, Some, None, MatchOption};
ghost use Rattle.std.specs.List.{list_any, list_all};
ghost use Rattle.pz_sets.specs.Sets.{member};
ghost use Rattle.pz_game.specs.declared.pattern.Item.{Item};
ghost use Rattle.pz_game.specs.Pattern.{AreOf, AsksAmong, IsRowOf};
ghost use Rattle.pz_cells.specs.Cell.{moving_piece, still_piece};
ghost use Rattle.pz_sheet.specs.Grid.{IsLawful, IsOnMap, place_at};
ghost use Rattle.pz_sheet.specs.Movement.{with_piece_moved, still_level, IsStillAt, AreStill, AreColumnsStill};
ghost use Rattle.pz_sheet.specs.Presence.{is_in, cell_of, holds_both, holds_if};
ghost use Rattle.pz_sheet.specs.Line.{line_count};
ghost use Rattle.pz_sheet.specs.Marks.{AreMarksOf};
ghost use Rattle.pz_sheet.specs.Pushing.{pushed_level};
ghost use Rattle.pz_sheet.specs.Rewriting.{with_rewritten, changes};
ghost use Rattle.pz_sheet.specs.Searching.{HoldsSomewhere};
ghost use Rattle.pz_sheet.specs.Standing.{standing_at, stands};
ghost use Rattle.pz_bare.specs.AnySheet.{state_in};

use pz_cells::piece::{Mover, Piece};
use pz_game::direction::Dir;
use pz_game::pattern::{Pattern, Row};
use pz_sets::set::NumberSet;
use pz_sheet::Sheet;
use pz_sheet::line::Axis;
use std::alloc::AllocError;
use std::marker::Model;

mod differing;
mod loading;
mod older;
pub mod past;

/// The cells of a level, by the size of its game: at most 128 objects and 25 layers, at most 256 and 50, or more.
pub enum AnySheet {
    Small(Sheet<1>),
    Middle(Sheet<2>),
    Large(Sheet<4>),
}

/// Written out, as for a sheet.
impl Drop for AnySheet {
    fn drop(self) {
        match self {
            AnySheet::Small(sheet) => drop(sheet),
            AnySheet::Middle(sheet) => drop(sheet),
            AnySheet::Large(sheet) => drop(sheet),
        }
    }
}

/// A level without its marks: what stands in its cells, and where it heads. Boxed, so that moving one is cheap.
pub struct BareLevel {
    sheet: Box<AnySheet>,
}

/// Written out, so that each place where one goes out of scope is one call.
impl Drop for BareLevel {
    fn drop(self) {
        let BareLevel { sheet } = self;
        drop(sheet);
    }
}

impl Model for BareLevel {
    ghost use Rattle.pz_sheet.specs.Grid.{BareState};
    ghost use Rattle.pz_bare.specs.AnySheet.{state_in, IsFitting};

    ghost Value = { BareState };

    ghost view = { λ b. state_in b.sheet.value };

    ghost invariant = { λ b. IsFitting b.sheet.value };
}

impl BareLevel {
    /// The sheet of the level.
    pub fn sheet(&self) -> &AnySheet
        ensures { state_in result.now ≡ self.now }
    {
        &*self.sheet
    }

    /// A copy of the level. Err: memory was refused.
    pub fn copy(&self) -> Result<BareLevel, AllocError>
        ensures copied { IfOk result (λ bare. bare.grid ≡ self.now.grid) }
    {
        let sheet = match &*self.sheet {
            AnySheet::Small(sheet) => AnySheet::Small(sheet.copy()?),
            AnySheet::Middle(sheet) => AnySheet::Middle(sheet.copy()?),
            AnySheet::Large(sheet) => AnySheet::Large(sheet.copy()?),
        };
        let sheet = Box::new(*Box::allocator(&self.sheet), sheet)?;
        Ok(BareLevel { sheet })
    }

    /// Makes this level equal to another. It reuses its memory if that is enough. Err: memory was refused, and the level is unchanged.
    pub fn copy_from(&mut self, other: &BareLevel) -> Result<(), AllocError>
        ensures copied { OnOk result (self.new.grid ≡ other.now.grid) }
        ensures kept { OnErr result (self.new.grid ≡ self.old.grid) }
    {
        match (&mut *self.sheet, &*other.sheet) {
            (AnySheet::Small(sheet), AnySheet::Small(other)) => sheet.copy_from(other),
            (AnySheet::Middle(sheet), AnySheet::Middle(other)) => sheet.copy_from(other),
            (AnySheet::Large(sheet), AnySheet::Large(other)) => sheet.copy_from(other),
            _ => {
                *self = other.copy()?;
                Ok(())
            }
        }
    }

    /// Whether another level is the same, in its size, its layers and each cell, headings included.
    pub fn equals(&self, other: &BareLevel) -> bool
        ensures { IsTrue result ↔ (self.now.grid ≡ other.now.grid) }
    {
        match (&*self.sheet, &*other.sheet) {
            (AnySheet::Small(sheet), AnySheet::Small(other)) => sheet.equals(other),
            (AnySheet::Middle(sheet), AnySheet::Middle(other)) => sheet.equals(other),
            (AnySheet::Large(sheet), AnySheet::Large(other)) => sheet.equals(other),
            _ => false,
        }
    }

    /// The number of columns.
    pub fn width(&self) -> u32
        ensures width { result ≡ self.now.grid.width }
        ensures lawful { IsLawful self.now.grid }
    {
        match &*self.sheet {
            AnySheet::Small(sheet) => sheet.width(),
            AnySheet::Middle(sheet) => sheet.width(),
            AnySheet::Large(sheet) => sheet.width(),
        }
    }

    /// The number of rows.
    pub fn height(&self) -> u32
        ensures height { result ≡ self.now.grid.height }
        ensures lawful { IsLawful self.now.grid }
    {
        match &*self.sheet {
            AnySheet::Small(sheet) => sheet.height(),
            AnySheet::Middle(sheet) => sheet.height(),
            AnySheet::Large(sheet) => sheet.height(),
        }
    }

    /// The number of cells.
    pub fn cell_count(&self) -> usize
        ensures { result ≡ length self.now.grid.cells }
    {
        match &*self.sheet {
            AnySheet::Small(sheet) => sheet.cell_count(),
            AnySheet::Middle(sheet) => sheet.cell_count(),
            AnySheet::Large(sheet) => sheet.cell_count(),
        }
    }

    /// Whether an object is in the cell of this number. Cells are numbered row by row.
    pub fn is_in(&self, index: usize, object: usize) -> bool
        requires { index < length self.now.grid.cells }
        ensures { result ≡ is_in (cell_of self.now.grid index) object }
    {
        match &*self.sheet {
            AnySheet::Small(sheet) => sheet.is_in(index, object),
            AnySheet::Middle(sheet) => sheet.is_in(index, object),
            AnySheet::Large(sheet) => sheet.is_in(index, object),
        }
    }

    /// The objects that stand at a position. Off the map there are none.
    pub fn objects_at(&self, x: u32, y: u32) -> NumberSet
        ensures { (object : ℕ) → member result object ≡ stands self.now.grid x y object }
    {
        match &*self.sheet {
            AnySheet::Small(sheet) => sheet.objects_at(x, y),
            AnySheet::Middle(sheet) => sheet.objects_at(x, y),
            AnySheet::Large(sheet) => sheet.objects_at(x, y),
        }
    }

    /// The piece of an object at a position, if it stands there. Off the map, and for a number without an object, there is none.
    pub fn piece(&self, x: u32, y: u32, object: usize) -> Option<Piece>
        ensures { MatchOption result (standing_at self.now.grid x y object ≡ None)
            (λ piece. standing_at self.now.grid x y object ≡ Some piece.heading) }
    {
        match &*self.sheet {
            AnySheet::Small(sheet) => sheet.piece(x, y, object),
            AnySheet::Middle(sheet) => sheet.piece(x, y, object),
            AnySheet::Large(sheet) => sheet.piece(x, y, object),
        }
    }

    /// Moves a piece that heads somewhere to a position where nothing stands on its layer, and stills it.
    pub fn carry(&mut self, x: u32, y: u32, mover: Mover, next_x: u32, next_y: u32)
        requires on_map { IsOnMap self.old.grid x y }
        requires goal_on_map { IsOnMap self.old.grid next_x next_y }
        requires there { place_at self.old.grid x y mover.layer ≡ Some (moving_piece mover) }
        requires free { place_at self.old.grid next_x next_y mover.layer ≡ None }
        ensures carried { self.new.grid ≡ with_piece_moved self.old.grid x y mover next_x next_y }
        ensures there { place_at self.new.grid next_x next_y mover.layer ≡ Some (still_piece mover.object) }
    {
        match &mut *self.sheet {
            AnySheet::Small(sheet) => sheet.carry(x, y, mover, next_x, next_y),
            AnySheet::Middle(sheet) => sheet.carry(x, y, mover, next_x, next_y),
            AnySheet::Large(sheet) => sheet.carry(x, y, mover, next_x, next_y),
        }
    }

    /// Whether the headings noted in the level allow each cell of a row to hold somewhere. If false, some cell holds nowhere.
    pub fn may_hold(&self, row: &Row) -> bool
        requires of_game { IsRowOf self.now.grid.layers row.now }
        ensures { All (HoldsSomewhere self.now.grid) row.now.cells → result ≡ true }
    {
        match &*self.sheet {
            AnySheet::Small(sheet) => sheet.may_hold(row),
            AnySheet::Middle(sheet) => sheet.may_hold(row),
            AnySheet::Large(sheet) => sheet.may_hold(row),
        }
    }

    /// Whether the headings noted in the level allow a heading of the set `asked`. If false, cells that ask for one of these don't all hold
    /// somewhere.
    pub fn may_head_in(&self, asked: &[u128]) -> bool
        ensures { (cells : List (List Item)) → All (AreOf self.now.grid.layers) cells → AsksAmong asked.now cells →
            All (HoldsSomewhere self.now.grid) cells → result ≡ true }
    {
        match &*self.sheet {
            AnySheet::Small(sheet) => sheet.may_head_in(asked),
            AnySheet::Middle(sheet) => sheet.may_head_in(asked),
            AnySheet::Large(sheet) => sheet.may_head_in(asked),
        }
    }

    /// Rewrites the cell at a position, and says whether the cell changed.
    pub fn rewrite(&mut self, x: u32, y: u32, left: &Pattern, right: &Pattern) -> bool
        requires x_in { x < self.old.grid.width }
        requires y_in { y < self.old.grid.height }
        requires left_of { AreOf self.old.grid.layers left.now }
        requires right_of { AreOf self.old.grid.layers right.now }
        ensures level { self.new.grid ≡ with_rewritten self.old.grid x y left.now right.now }
        ensures changed { result ≡ changes self.old.grid x y left.now right.now }
    {
        match &mut *self.sheet {
            AnySheet::Small(sheet) => sheet.rewrite(x, y, left, right),
            AnySheet::Middle(sheet) => sheet.rewrite(x, y, left, right),
            AnySheet::Large(sheet) => sheet.rewrite(x, y, left, right),
        }
    }

    /// Gives a direction to each of these objects in the level.
    pub fn push_all(&mut self, players: &[usize], dir: Dir)
        ensures pushed { self.new.grid ≡ pushed_level players.now dir self.old.grid }
        ensures lawful { IsLawful self.new.grid }
    {
        match &mut *self.sheet {
            AnySheet::Small(sheet) => sheet.push_all(players, dir),
            AnySheet::Middle(sheet) => sheet.push_all(players, dir),
            AnySheet::Large(sheet) => sheet.push_all(players, dir),
        }
    }

    /// The first column, from `from` on, in which something may head somewhere.
    pub fn next_column(&self, from: u32) -> Option<u32>
        ensures next { MatchOption result (AreColumnsStill self.now.grid from self.now.grid.width)
            (λ x. (from ≤ x) × (x < self.now.grid.width) × AreColumnsStill self.now.grid from x) }
        ensures lawful { IsLawful self.now.grid }
    {
        match &*self.sheet {
            AnySheet::Small(sheet) => sheet.next_column(from),
            AnySheet::Middle(sheet) => sheet.next_column(from),
            AnySheet::Large(sheet) => sheet.next_column(from),
        }
    }

    /// The first row, from `from` on, in which something in a column of the map may head somewhere.
    pub fn next_heading(&self, x: u32, from: u32) -> Option<u32>
        requires { x < self.now.grid.width }
        ensures next { MatchOption result (AreStill self.now.grid x from self.now.grid.height)
            (λ y. (from ≤ y) × (y < self.now.grid.height) × AreStill self.now.grid x from y) }
        ensures lawful { IsLawful self.now.grid }
    {
        match &*self.sheet {
            AnySheet::Small(sheet) => sheet.next_heading(x, from),
            AnySheet::Middle(sheet) => sheet.next_heading(x, from),
            AnySheet::Large(sheet) => sheet.next_heading(x, from),
        }
    }

    /// Whether nothing at a position of the map heads anywhere.
    pub fn is_still(&self, x: u32, y: u32) -> bool
        requires x_in { x < self.now.grid.width }
        requires y_in { y < self.now.grid.height }
        ensures { IsTrue result ↔ IsStillAt self.now.grid x y }
    {
        match &*self.sheet {
            AnySheet::Small(sheet) => sheet.is_still(x, y),
            AnySheet::Middle(sheet) => sheet.is_still(x, y),
            AnySheet::Large(sheet) => sheet.is_still(x, y),
        }
    }

    /// Stills every piece.
    pub fn still_all(&mut self)
        ensures stilled { self.new.grid ≡ still_level self.old.grid }
        ensures lawful { IsLawful self.new.grid }
    {
        match &mut *self.sheet {
            AnySheet::Small(sheet) => sheet.still_all(),
            AnySheet::Middle(sheet) => sheet.still_all(),
            AnySheet::Large(sheet) => sheet.still_all(),
        }
    }

    /// Sets the marks of each row, or of each column, to the objects that stand there.
    pub fn mark_lines(&self, axis: Axis, marks: &mut [NumberSet])
        requires { length marks.old ≡ line_count self.now.grid axis }
        ensures count { length marks.new ≡ length marks.old }
        ensures exact { AreMarksOf self.now.grid axis marks.new }
    {
        match &*self.sheet {
            AnySheet::Small(sheet) => sheet.mark_lines(axis, marks),
            AnySheet::Middle(sheet) => sheet.mark_lines(axis, marks),
            AnySheet::Large(sheet) => sheet.mark_lines(axis, marks),
        }
    }

    /// Whether some cell holds both one of `objects` and one of `others`.
    pub fn some_holds(&self, objects: &[usize], others: &[usize]) -> bool
        ensures { result ≡ list_any (holds_both objects.now others.now) self.now.grid.cells }
    {
        match &*self.sheet {
            AnySheet::Small(sheet) => sheet.some_holds(objects, others),
            AnySheet::Middle(sheet) => sheet.some_holds(objects, others),
            AnySheet::Large(sheet) => sheet.some_holds(objects, others),
        }
    }

    /// Whether each cell that holds one of `objects` also holds one of `others`.
    pub fn all_hold(&self, objects: &[usize], others: &[usize]) -> bool
        ensures { result ≡ list_all (holds_if objects.now others.now) self.now.grid.cells }
    {
        match &*self.sheet {
            AnySheet::Small(sheet) => sheet.all_hold(objects, others),
            AnySheet::Middle(sheet) => sheet.all_hold(objects, others),
            AnySheet::Large(sheet) => sheet.all_hold(objects, others),
        }
    }
}
