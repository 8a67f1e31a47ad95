//! Which objects stand in the lines.

ghost use Rattle.std.specs.Prelude.{◌≡◌, ◌<◌, ℕ, length};
ghost use Rattle.pz_sets.specs.Sets.{member};
ghost use Rattle.pz_sheet.specs.Line.{line_count};
ghost use Rattle.pz_sheet.specs.Marks.{AreMarksOf};
ghost use Rattle.pz_sheet.specs.Presence.{in_line};

use crate::Sheet;
use crate::line::{Axis, Line};
use pz_planes::bits;
use pz_sets::set::NumberSet;

impl<const N: usize> Sheet<N> {
    /// Sets the marks of each row, or of each column, to the objects that stand there. The planes tell them with less work than the cells
    /// if a line fits in a word, and the game has no more objects than a line has cells.
    pub fn mark_lines(&self, axis: Axis, marks: &mut [NumberSet])
        requires { length marks.old ≡ line_count self.now.grid axis }
        ensures count { length marks.new ≡ length marks.old }
        ensures exact { AreMarksOf self.now.grid axis marks.new }
    {
        let long = self.line_length(axis);
        if long <= bits::ROOM && self.layers.object_count() <= long as usize {
            self.planes.lines(axis).mark(marks);
            return;
        }
        self.mark_by_cells(axis, marks);
    }

    /// The same, cell by cell.
    fn mark_by_cells(&self, axis: Axis, marks: &mut [NumberSet])
        requires { length marks.old ≡ line_count self.now.grid axis }
        ensures count { length marks.new ≡ length marks.old }
        ensures exact { AreMarksOf self.now.grid axis marks.new }
    {
        for number in 0..self.line_count(axis) {
            marks[number as usize] = self.line_objects(Line { axis, number });
        }
    }

    /// How many rows, or how many columns, there are.
    fn line_count(&self, axis: Axis) -> u32
        ensures { result ≡ line_count self.now.grid axis }
    {
        match axis {
            Axis::Horizontal => self.height(),
            Axis::Vertical => self.width(),
        }
    }

    /// The objects that stand in a line of the map.
    #[tactic(auto, using(crate::proofs::CountLemmas::any_more))]
    fn line_objects(&self, line: Line) -> NumberSet
        requires { line.number < line_count self.now.grid line.axis }
        ensures { (object : ℕ) → member result object ≡ in_line self.now.grid line object }
    {
        let mut set = NumberSet::empty();
        for at in 0..self.line_length(line.axis) {
            let objects = NumberSet::from_words(self.objects_in(self.index_in(line, at)));
            set = set.union(&objects);
        }
        set
    }
}
