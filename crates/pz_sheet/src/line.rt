//! The lines of the map: rows and columns, each walked ahead or back.

ghost use Rattle.std.specs.Prelude.{◌≡◌, ◌+◌, ◌*◌, ◌<◌, length, MatchOption};
ghost use Rattle.pz_game.specs.declared.direction.Dir.TheVariants.{Action};
ghost use Rattle.pz_game.specs.Pattern.{AreOf};
ghost use Rattle.pz_cells.specs.Pattern.{pattern_holds};
ghost use Rattle.pz_planes.specs.Line.{room_from};
ghost use Rattle.pz_sheet.specs.Grid.{IsLawful};
ghost use Rattle.pz_sheet.specs.Line.{row_of, column_of, axis_of, IsOnLine, IsWalk, line_length, x_at, y_at, holds_in};
ghost use Rattle.pz_sheet.specs.Presence.{cell_of};

use crate::Sheet;
use pz_game::direction::Dir;
use pz_game::pattern::Pattern;
pub use pz_planes::line::{Axis, Way};

/// A line of the map: the row or the column of this number, from 0.
#[derive(Clone, Copy)]
pub struct Line {
    pub axis: Axis,
    pub number: u32,
}

/// A line as it is walked, ahead or back.
#[derive(Clone, Copy)]
pub struct Walk {
    pub line: Line,
    pub way: Way,
}

/// The row of this number.
pub fn row(number: u32) -> Line
    ensures { result ≡ row_of number }
{
    Line {
        axis: Axis::Horizontal,
        number,
    }
}

/// The column of this number.
pub fn column(number: u32) -> Line
    ensures { result ≡ column_of number }
{
    Line {
        axis: Axis::Vertical,
        number,
    }
}

/// How the lines lie that a direction leads along: columns for up and down, else rows.
pub fn axis_of(dir: Dir) -> Axis
    ensures { result ≡ axis_of dir }
{
    match dir {
        Dir::Up | Dir::Down => Axis::Vertical,
        Dir::Left | Dir::Right | Dir::Action => Axis::Horizontal,
    }
}

/// The walk along the line of this number in a direction. `None`: the action leads nowhere.
pub fn walk_in(dir: Dir, number: u32) -> Option<Walk>
    ensures { MatchOption result (dir ≡ Action) (IsWalk dir number) }
{
    let way = match dir {
        Dir::Right | Dir::Down => Way::Ahead,
        Dir::Left | Dir::Up => Way::Back,
        Dir::Action => return None,
    };
    let axis = axis_of(dir);
    let line = Line { axis, number };
    Some(Walk { line, way })
}

impl<const N: usize> Sheet<N> {
    /// How many positions a line has.
    pub fn line_length(&self, axis: Axis) -> u32
        ensures long { result ≡ line_length self.now.grid axis }
        ensures lawful { IsLawful self.now.grid }
    {
        match axis {
            Axis::Horizontal => self.width(),
            Axis::Vertical => self.height(),
        }
    }

    /// How many positions of a line there are from `at` on, as it is walked.
    pub(crate) fn room_from(&self, axis: Axis, way: Way, at: u32) -> usize
        requires at_in { at < line_length self.now.grid axis }
        ensures room { result ≡ room_from (line_length self.now.grid axis) way at }
        ensures lawful { IsLawful self.now.grid }
    {
        let long = self.line_length(axis);
        match way {
            Way::Ahead => (long - at) as usize,
            Way::Back => at as usize + 1,
        }
    }

    /// The number of the cell at a position of a line.
    pub(crate) fn index_in(&self, line: Line, at: u32) -> usize
        requires on_line { IsOnLine self.now.grid line at }
        ensures index { result ≡ y_at line.axis line.number at * self.now.grid.width + x_at line.axis line.number at }
        ensures within { result < length self.now.grid.cells }
    {
        match line.axis {
            Axis::Horizontal => self.index(at, line.number),
            Axis::Vertical => self.index(line.number, at),
        }
    }

    /// Whether a rule's cell holds in the cell of this number.
    pub(crate) fn holds_there(&self, index: usize, pattern: &Pattern) -> bool
        requires within { index < length self.now.grid.cells }
        requires of_game { AreOf self.now.grid.layers pattern.now }
        ensures { result ≡ pattern_holds (cell_of self.now.grid index) pattern.now }
    {
        let layers = self.layers();
        self.cell(index).holds(layers, pattern)
    }

    /// Whether a rule's cell holds at a position of a line.
    pub(crate) fn holds_in(&self, line: Line, at: u32, pattern: &Pattern) -> bool
        requires on_line { IsOnLine self.now.grid line at }
        requires of_game { AreOf self.now.grid.layers pattern.now }
        ensures { result ≡ holds_in self.now.grid line pattern.now at }
    {
        self.holds_there(self.index_in(line, at), pattern)
    }
}
