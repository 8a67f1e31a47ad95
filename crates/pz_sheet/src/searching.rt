//! The next position of a line at which a rule's cell holds, and the last one before an end.

ghost use Rattle.std.specs.Prelude.{◌≡◌, ℕ, ◌<◌, ◌≤◌, true};
ghost use Rattle.pz_sets.specs.Sets.{in_word};
ghost use Rattle.pz_game.specs.Pattern.{AreOf};
ghost use Rattle.pz_sets.specs.Next.{IsNext};
ghost use Rattle.pz_sheet.specs.Line.{line_length, line_count, holds_in};
ghost use Rattle.pz_sheet.specs.Searching.{IsLast};

use crate::Sheet;
use crate::line::Line;
use pz_game::pattern::Pattern;
use pz_planes::bits;

impl<const N: usize> Sheet<N> {
    /// The positions of a line at which a rule's cell may hold, as the planes show for the objects that it names. It holds at no other.
    fn places_in(&self, line: Line, pattern: &Pattern) -> u128
        requires short { line_length self.now.grid line.axis ≤ 128 }
        requires line_in { line.number < line_count self.now.grid line.axis }
        requires of_game { AreOf self.now.grid.layers pattern.now }
        ensures { (at : ℕ) → at < line_length self.now.grid line.axis →
            holds_in self.now.grid line pattern.now at ≡ true → in_word result at ≡ true }
    {
        self.planes
            .lines(line.axis)
            .places(line.number as usize, pattern)
    }

    /// The first position of a line, from `from` on, at which a rule's cell holds.
    pub fn next_in_line(&self, line: Line, from: u32, pattern: &Pattern) -> Option<u32>
        requires line_in { line.number < line_count self.now.grid line.axis }
        requires of_game { AreOf self.now.grid.layers pattern.now }
        ensures { IsNext (holds_in self.now.grid line pattern.now) from (line_length self.now.grid line.axis) result }
    {
        let end = self.line_length(line.axis);
        if end > bits::ROOM {
            return self.next_in_long_line(line, from, pattern);
        }
        let places = self.places_in(line, pattern);
        let mut at = from;
        'places: while let Some(place) = bits::next(places, at, end) {
            if self.holds_in(line, place, pattern) {
                return Some(place);
            }
            at = place + 1;
        }
        None
    }

    /// The same, cell by cell.
    fn next_in_long_line(&self, line: Line, from: u32, pattern: &Pattern) -> Option<u32>
        requires line_in { line.number < line_count self.now.grid line.axis }
        requires of_game { AreOf self.now.grid.layers pattern.now }
        ensures { IsNext (holds_in self.now.grid line pattern.now) from (line_length self.now.grid line.axis) result }
    {
        for at in from..self.line_length(line.axis) {
            if self.holds_in(line, at, pattern) {
                return Some(at);
            }
        }
        None
    }

    /// The last position of a line, before `end`, at which a rule's cell holds.
    pub fn last_in_line(&self, line: Line, end: u32, pattern: &Pattern) -> Option<u32>
        requires line_in { line.number < line_count self.now.grid line.axis }
        requires end_in { end ≤ line_length self.now.grid line.axis }
        requires of_game { AreOf self.now.grid.layers pattern.now }
        ensures { IsLast (holds_in self.now.grid line pattern.now) end result }
    {
        if self.line_length(line.axis) > bits::ROOM {
            return self.last_in_long_line(line, end, pattern);
        }
        let places = self.places_in(line, pattern);
        let mut at = end;
        'places: while at > 0 {
            at -= 1;
            if bits::has(places, at) && self.holds_in(line, at, pattern) {
                return Some(at);
            }
        }
        None
    }

    /// The same, cell by cell.
    fn last_in_long_line(&self, line: Line, end: u32, pattern: &Pattern) -> Option<u32>
        requires line_in { line.number < line_count self.now.grid line.axis }
        requires end_in { end ≤ line_length self.now.grid line.axis }
        requires of_game { AreOf self.now.grid.layers pattern.now }
        ensures { IsLast (holds_in self.now.grid line pattern.now) end result }
    {
        let mut at = end;
        'cells: while at > 0 {
            at -= 1;
            if self.holds_in(line, at, pattern) {
                return Some(at);
            }
        }
        None
    }
}
