//! Rules' cells one after another in a direction: whether they hold from a position on, and from which position of a line they hold next.

ghost use Rattle.std.specs.Prelude.{◌≡◌, ◌<◌, ◌≤◌, ◌^◌, All, IfSome, true, slice_index_or, []};
ghost use Rattle.std.specs.List.{count_by, range_with_len};
ghost use Rattle.pz_sets.specs.Sets.{in_word};
ghost use Rattle.pz_game.specs.Pattern.{AreOf};
ghost use Rattle.pz_sheet.specs.Grid.{IsOnMap};
ghost use Rattle.pz_sheet.specs.Line.{IsOnLine, line_length, line_count, holds_in, runs_in};
ghost use Rattle.pz_sheet.specs.Searching.{MayStartAt, run_holds_from};
ghost use Rattle.pz_sheet.specs.Runs.{IsRunOf, on_map, along, holds_at, run_holds};
ghost use Rattle.pz_sets.specs.Next.{IsNext};

use crate::Sheet;
use crate::line::{Axis, Line, Walk, Way, axis_of, column, row, walk_in};
use pz_game::direction::Dir;
use pz_game::pattern::Pattern;
use pz_planes::bits;
use pz_planes::line::step_to;
use std::marker::Model;

impl<const N: usize> Sheet<N> {
    fn on_map(&self, x: usize, y: usize) -> Option<(u32, u32)>
        ensures position { result ≡ on_map self.now.grid x y }
        ensures inside { IfSome result (λ at. IsOnMap self.now.grid at.0 at.1) }
    {
        if x < self.width() as usize && y < self.height() as usize {
            Some((x as u32, y as u32))
        } else {
            None
        }
    }

    /// The position `steps` cells on from another, if it is on the map. The action leads nowhere.
    pub fn along(&self, dir: Dir, x: u32, y: u32, steps: usize) -> Option<(u32, u32)>
        requires near { steps < 2 ^ 33 }
        ensures position { result ≡ along self.now.grid dir x y steps }
        ensures inside { IfSome result (λ at. IsOnMap self.now.grid at.0 at.1) }
    {
        let x = x as usize;
        let y = y as usize;
        match dir {
            Dir::Right => self.on_map(x + steps, y),
            Dir::Left if steps <= x => self.on_map(x - steps, y),
            Dir::Down => self.on_map(x, y + steps),
            Dir::Up if steps <= y => self.on_map(x, y - steps),
            _ => None,
        }
    }

    /// Whether a rule's cell holds `steps` cells on from a position.
    pub fn holds_along(&self, dir: Dir, x: u32, y: u32, steps: usize, pattern: &Pattern) -> bool
        requires near { steps < 2 ^ 33 }
        requires of_game { AreOf self.now.grid.layers pattern.now }
        ensures { result ≡ holds_at self.now.grid pattern.now (along self.now.grid dir x y steps) }
    {
        match self.along(dir, x, y, steps) {
            Some((x, y)) => self.holds(x, y, pattern),
            None => false,
        }
    }

    /// Whether rules' cells hold from a position of a line on, when the first does. (Not inlined: few positions of a search come here.)
    #[tactic(auto, using(crate::proofs::RunLemmas::enumerate_more, crate::proofs::RunLemmas::enumerate_fails, crate::proofs::RunLemmas::enumerate_all, crate::proofs::RunLemmas::along_in, crate::proofs::RunLemmas::run_past))]
    #[inline(never)]
    fn rest_holds(&self, walk: Walk, at: u32, patterns: &[Pattern]) -> bool
        requires on_line { IsOnLine self.now.grid walk.line at }
        requires of_game { All (AreOf self.now.grid.layers) patterns.now }
        requires first { holds_in self.now.grid walk.line (slice_index_or patterns.now 0 []) at ≡ true }
        ensures { result ≡ runs_in self.now.grid walk patterns.now at }
    {
        let room = self.room_from(walk.line.axis, walk.way, at);
        if patterns.len() > room {
            return false;
        }
        for index in 1..patterns.len() {
            let there = step_to(walk.way, at, index);
            if !self.holds_in(walk.line, there, &patterns[index]) {
                return false;
            }
        }
        true
    }

    /// Whether rules' cells hold from a position of a line on. (Inlined: most positions of a search fail at the first cell.)
    #[inline(always)]
    fn runs_from(&self, walk: Walk, at: u32, patterns: &[Pattern]) -> bool
        requires on_line { IsOnLine self.now.grid walk.line at }
        requires run { IsRunOf self.now.grid.layers patterns.now }
        ensures { result ≡ runs_in self.now.grid walk patterns.now at }
    {
        self.holds_in(walk.line, at, &patterns[0]) && self.rest_holds(walk, at, patterns)
    }

    /// Whether rules' cells hold from a position on, on the map or not. The action leads nowhere.
    #[tactic(auto, using(crate::proofs::RunLemmas::run_off, crate::proofs::RunLemmas::action_leads_nowhere))]
    pub fn run_holds(&self, dir: Dir, x: u32, y: u32, patterns: &[Pattern]) -> bool
        requires run { IsRunOf self.now.grid.layers patterns.now }
        ensures { result ≡ run_holds self.now.grid dir x y patterns.now }
    {
        if x >= self.width() || y >= self.height() {
            return false;
        }
        let (number, at) = match axis_of(dir) {
            Axis::Horizontal => (y, x),
            Axis::Vertical => (x, y),
        };
        match walk_in(dir, number) {
            Some(walk) => self.runs_from(walk, at, patterns),
            None => false,
        }
    }

    /// The positions of a line, of the first 128, from which rules' cells may hold, as the planes show for the objects that they name. They
    /// do hold from no other.
    fn starts_in(&self, walk: Walk, patterns: &[Pattern]) -> u128
        requires line_in { walk.line.number < line_count self.now.grid walk.line.axis }
        requires run { IsRunOf self.now.grid.layers patterns.now }
        ensures { MayStartAt self.now.grid walk patterns.now result }
    {
        let line = walk.line;
        if self.line_length(line.axis) > bits::ROOM {
            return bits::all();
        }
        self.planes
            .lines(line.axis)
            .starts(line.number as usize, walk.way, patterns)
    }
}

/// A search of a line for the positions from which a run holds: rules' cells, one or more, one after another as the line is walked.
/// `starts` has the positions, of the first 128, from which it may hold.
#[derive(Drop)]
pub struct RunSearch<'a, const N: usize> {
    sheet: &'a Sheet<N>,
    walk: Walk,
    patterns: &'a [Pattern],
    starts: u128,
}

impl<'a, const N: usize> Model for RunSearch<'a, N> {
    ghost use Rattle.pz_sheet.specs.Searching.{SoughtRun, IsRunSearch};

    ghost Value = { SoughtRun };

    ghost view = { λ s. record { grid = s.sheet.now.grid; walk = s.walk; patterns = s.patterns.now } };

    ghost invariant = { λ s. IsRunSearch
        (record { grid = s.sheet.now.grid; walk = s.walk; patterns = s.patterns.now }) s.starts };
}

impl<'a, const N: usize> RunSearch<'a, N> {
    /// The search of a line. In a line of up to 128 positions the planes show, for the objects that the cells name, where the run may
    /// start. This is asked once.
    pub fn new(sheet: &'a Sheet<N>, walk: Walk, patterns: &'a [Pattern]) -> RunSearch<'a, N>
        requires line_in { walk.line.number < line_count sheet.now.grid walk.line.axis }
        requires run { IsRunOf sheet.now.grid.layers patterns.now }
        ensures { result ≡ record { grid = sheet.now.grid; walk = walk; patterns = patterns.now } }
    {
        let starts = sheet.starts_in(walk, patterns);
        RunSearch {
            sheet,
            walk,
            patterns,
            starts,
        }
    }

    /// How many positions the line has.
    fn end(&self) -> u32
        ensures { result ≡ line_length self.now.grid self.now.walk.line.axis }
    {
        self.sheet.line_length(self.walk.line.axis)
    }

    /// The first position, from `from` on, from which the run holds. Each way has code of its own, which takes less work.
    pub fn next(&self, from: u32) -> Option<u32>
        ensures { IsNext (run_holds_from self.now) from (line_length self.now.grid self.now.walk.line.axis) result }
    {
        let number = self.walk.line.number;
        match self.walk.line.axis {
            Axis::Horizontal => match self.walk.way {
                Way::Ahead => self.next_along(row(number), Way::Ahead, from),
                Way::Back => self.next_along(row(number), Way::Back, from),
            },
            Axis::Vertical => match self.walk.way {
                Way::Ahead => self.next_along(column(number), Way::Ahead, from),
                Way::Back => self.next_along(column(number), Way::Back, from),
            },
        }
    }

    /// The same, where the line and the way are this search's. (Inlined: it is asked for each place, and then most of it is known.)
    #[inline(always)]
    fn next_along(&self, line: Line, way: Way, from: u32) -> Option<u32>
        requires line { line ≡ self.now.walk.line }
        requires way { way ≡ self.now.walk.way }
        ensures { IsNext (run_holds_from self.now) from (line_length self.now.grid self.now.walk.line.axis) result }
    {
        let walk = Walk { line, way };
        let end = self.sheet.line_length(line.axis);
        if end > bits::ROOM {
            return self.next_in_long_line(from);
        }
        let mut at = from;
        'starts: while let Some(start) = bits::next(self.starts, at, end) {
            if self.sheet.runs_from(walk, start, self.patterns) {
                return Some(start);
            }
            at = start + 1;
        }
        None
    }

    /// The same, cell by cell.
    fn next_in_long_line(&self, from: u32) -> Option<u32>
        ensures { IsNext (run_holds_from self.now) from (line_length self.now.grid self.now.walk.line.axis) result }
    {
        for at in from..self.end() {
            if self.sheet.runs_from(self.walk, at, self.patterns) {
                return Some(at);
            }
        }
        None
    }

    /// At how many positions the search tests whether the run holds from there on. In a line of up to 128 positions they are those that the
    /// planes leave, in a longer line all.
    #[tactic(auto, using(crate::proofs::CountLemmas::count_fewer, crate::proofs::CountLemmas::count_within))]
    pub fn tested(&self) -> u32
        ensures low { count_by (run_holds_from self.now)
            (range_with_len 0 (line_length self.now.grid self.now.walk.line.axis)) ≤ result }
        ensures high { result ≤ line_length self.now.grid self.now.walk.line.axis }
    {
        let end = self.end();
        if end > bits::ROOM {
            return end;
        }
        count_below(self.starts, end)
    }
}

/// How many positions of a set are below `end`.
#[tactic(auto, using(crate::proofs::CountLemmas::count_yes, crate::proofs::CountLemmas::count_no))]
fn count_below(set: u128, end: u32) -> u32
    requires { end ≤ 128 }
    ensures { result ≡ count_by (in_word set) (range_with_len 0 end) }
{
    let mut count = 0;
    for at in 0..end {
        if bits::has(set, at) {
            count += 1;
        }
    }
    count
}
