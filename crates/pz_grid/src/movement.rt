//! The movement of a step.

ghost use Rattle.std.specs.Prelude.{◌≡◌, ◌<◌, ◌≤◌, ◌&&◌, Bool, IfSome, MatchOption, Some, fold, map, true, false};
ghost use Rattle.pz_sheet.specs.Grid.{IsOnMap, IsLawful, IsOfGame, SameSize};
ghost use Rattle.pz_sheet.specs.Presence.{in_row, in_column};
ghost use Rattle.pz_grid.specs.Marks.{IsMarked, IsWidened};
ghost use Rattle.pz_grid.specs.Staying.{IsMove};
ghost use Rattle.pz_grid.specs.Movement.{neighbour, heading_goal, spot, in_pass, move_at, spots_at, spots_in, pass_of, moving, settle, after_movement, IsNextLeaving, Leaves};
ghost use Rattle.pz_sheet.specs.Movement.{still_level, IsStillAt, AreStill, AreColumnsStill};

use crate::Level;
use pz_bare::AnySheet;
use pz_cells::piece::Mover;
use pz_game::direction::Dir;
use pz_game::game::Game;
use pz_sheet::Sheet;

/// Plays the movement of a step: its passes repeat until one moves nothing, then all pieces are stilled. No piece moves more than one cell.
/// Rule `move.passes`.
pub fn resolve(game: &Game, level: &mut Level)
    requires { IsOfGame game.now level.old.grid }
    ensures resolved { level.new.grid ≡ after_movement level.old.grid }
    ensures size { SameSize level.old.grid level.new.grid }
    ensures lawful { IsLawful level.new.grid }
    ensures marked { IsMarked level.new }
    ensures widened { IsWidened level.old level.new (in_row level.new.grid) (in_column level.new.grid) }
{
    level.settle();
    level.still_all();
}

/// What a pass has done so far: whether a piece has moved, and whether something that was looked at may head somewhere still.
#[derive(Clone, Copy)]
struct Passed {
    moved: bool,
    left: bool,
}

impl Passed {
    /// Whether another pass may move something.
    fn goes_on(self) -> bool
        ensures { result ≡ (self.moved && self.left) }
    {
        self.moved && self.left
    }
}

/// The next position in a direction, if it is on the map. The action leads nowhere. Rule `move.action`.
fn neighbour<const N: usize>(sheet: &Sheet<N>, dir: Dir, x: u32, y: u32) -> Option<(u32, u32)>
    requires on_map { IsOnMap sheet.now.grid x y }
    ensures next { result ≡ neighbour sheet.now.grid dir x y }
    ensures on_map { IfSome result (λ next. IsOnMap sheet.now.grid next.0 next.1) }
{
    let (width, height) = (sheet.width(), sheet.height());
    match dir {
        Dir::Up if y > 0 => Some((x, y - 1)),
        Dir::Down if y + 1 < height => Some((x, y + 1)),
        Dir::Left if x > 0 => Some((x - 1, y)),
        Dir::Right if x + 1 < width => Some((x + 1, y)),
        _ => None,
    }
}

/// Where a piece goes, if that is on the map and free on its layer. Rule `move.object`.
fn goal<const N: usize>(sheet: &Sheet<N>, x: u32, y: u32, mover: Mover) -> Option<(u32, u32)>
    requires on_map { IsOnMap sheet.now.grid x y }
    requires layer_in { mover.layer < sheet.now.grid.depth }
    ensures goal { result ≡ heading_goal sheet.now.grid (spot x y mover.layer) (Some mover.dir) }
    ensures on_map { IfSome result (λ next. IsOnMap sheet.now.grid next.0 next.1) }
{
    match neighbour(sheet, mover.dir, x, y) {
        None => None,
        Some((next_x, next_y)) => match sheet.place(next_x, next_y, mover.layer) {
            None => Some((next_x, next_y)),
            Some(_) => None,
        },
    }
}

/// The first piece that leaves a position, on a layer from `from` on, and where it goes. `None`: nothing leaves.
fn leaving<const N: usize>(
    sheet: &Sheet<N>,
    x: u32,
    y: u32,
    from: usize,
) -> Option<(Mover, (u32, u32))>
    requires { IsOnMap sheet.now.grid x y }
    ensures { IsNextLeaving sheet.now.grid x y from result }
{
    let mut start = from;
    'layers: while let Some(mover) = sheet.next_mover(x, y, start) {
        if let Some(next) = goal(sheet, x, y, mover) {
            return Some((mover, next));
        }
        start = mover.layer + 1;
    }
    None
}

impl Level {
    /// The first piece that leaves a position, on a layer from `from` on, and where it goes. `None`: nothing leaves.
    fn leaving(&self, x: u32, y: u32, from: usize) -> Option<(Mover, (u32, u32))>
        requires { IsOnMap self.now.grid x y }
        ensures { IsNextLeaving self.now.grid x y from result }
    {
        match self.bare.sheet() {
            AnySheet::Small(sheet) => leaving(sheet, x, y, from),
            AnySheet::Middle(sheet) => leaving(sheet, x, y, from),
            AnySheet::Large(sheet) => leaving(sheet, x, y, from),
        }
    }

    /// The first column, from `from` on, in which something may head somewhere.
    fn next_column(&self, from: u32) -> Option<u32>
        ensures next { MatchOption result (AreColumnsStill self.now.grid from self.now.grid.width)
            (λ x. (from ≤ x) × (x < self.now.grid.width) × AreColumnsStill self.now.grid from x) }
        ensures lawful { IsLawful self.now.grid }
    {
        self.bare.next_column(from)
    }

    /// The first row, from `from` on, in which something in a column of the map may head somewhere.
    fn next_heading(&self, x: u32, from: u32) -> Option<u32>
        requires { x < self.now.grid.width }
        ensures next { MatchOption result (AreStill self.now.grid x from self.now.grid.height)
            (λ y. (from ≤ y) × (y < self.now.grid.height) × AreStill self.now.grid x from y) }
        ensures lawful { IsLawful self.now.grid }
    {
        self.bare.next_heading(x, from)
    }

    /// Stills every piece.
    fn still_all(&mut self)
        ensures stilled { self.new.grid ≡ still_level self.old.grid }
        ensures lawful { IsLawful self.new.grid }
        ensures marked { IsMarked self.new }
        ensures row_marks { self.new.row_marks ≡ self.old.row_marks }
        ensures column_marks { self.new.column_marks ≡ self.old.column_marks }
    {
        self.bare.still_all();
    }

    /// Moves a piece to where it goes. Rule `move.object`.
    fn carry(&mut self, x: u32, y: u32, mover: Mover, next: (u32, u32))
        requires on_map { IsOnMap self.old.grid x y }
        requires leaves { Leaves self.old.grid x y mover next }
        ensures pass { (moved : Bool) →
            in_pass self.new.grid true ≡ move_at (in_pass self.old.grid moved) (spot x y mover.layer) }
        ensures size { SameSize self.old.grid self.new.grid }
        ensures marks { IsMove self.old self.new }
    {
        self.mark(next.0, next.1, mover.object as usize);
        self.bare.carry(x, y, mover, next.0, next.1);
    }

    /// Moves what leaves a position. True: something has moved in this pass, here or before.
    fn pass_at(&mut self, x: u32, y: u32, moved_before: bool) -> bool
        requires on_map { IsOnMap self.old.grid x y }
        ensures pass { in_pass self.new.grid result ≡
            fold move_at (in_pass self.old.grid moved_before) (spots_at self.old.grid.depth x y) }
        ensures size { SameSize self.old.grid self.new.grid }
        ensures marks { IsMove self.old self.new }
    {
        let mut moved = moved_before;
        let mut from = 0;
        'layers: while let Some((mover, next)) = self.leaving(x, y, from) {
            self.carry(x, y, mover, next);
            from = mover.layer + 1;
            moved = true;
        }
        moved
    }

    /// Goes on with a pass at a position.
    fn pass_over(&mut self, x: u32, y: u32, before: Passed) -> Passed
        requires on_map { IsOnMap self.old.grid x y }
        ensures pass { in_pass self.new.grid result.moved ≡
            fold move_at (in_pass self.old.grid before.moved) (spots_at self.old.grid.depth x y) }
        ensures left { result.left ≡ false → (before.left ≡ false) × IsStillAt self.new.grid x y }
        ensures size { SameSize self.old.grid self.new.grid }
        ensures marks { IsMove self.old self.new }
    {
        let moved = self.pass_at(x, y, before.moved);
        let left = before.left || !self.bare.is_still(x, y);
        Passed { moved, left }
    }

    fn pass_in(&mut self, x: u32, before: Passed) -> Passed
        requires x_in { x < self.old.grid.width }
        ensures pass { in_pass self.new.grid result.moved ≡
            fold move_at (in_pass self.old.grid before.moved) (spots_in self.old.grid.depth self.old.grid.height x) }
        ensures left { result.left ≡ false → (before.left ≡ false) × AreStill self.new.grid x 0 self.new.grid.height }
        ensures size { SameSize self.old.grid self.new.grid }
        ensures marks { IsMove self.old self.new }
    {
        let mut passed = before;
        let mut from = 0;
        'rows: while let Some(y) = self.next_heading(x, from) {
            passed = self.pass_over(x, y, passed);
            from = y + 1;
        }
        passed
    }

    /// Makes one pass, column by column. Columns for which no heading is noted are left out. Rule `move.order`.
    fn pass(&mut self) -> Passed
        ensures pass { in_pass self.new.grid result.moved ≡ pass_of self.old.grid }
        ensures left { result.left ≡ false → AreColumnsStill self.new.grid 0 self.new.grid.width }
        ensures size { SameSize self.old.grid self.new.grid }
        ensures marks { IsMove self.old self.new }
    {
        let mut passed = Passed {
            moved: false,
            left: false,
        };
        let mut from = 0;
        'columns: while let Some(x) = self.next_column(from) {
            passed = self.pass_in(x, passed);
            from = x + 1;
        }
        passed
    }

    /// Repeats passes up to the first that moves nothing. The one behind a pass that leaves nothing heading would move nothing, and isn't
    /// made.
    fn settle(&mut self)
        ensures settled { self.new.grid ≡ settle (moving self.old.grid) self.old.grid }
        ensures size { SameSize self.old.grid self.new.grid }
        ensures marks { IsMove self.old self.new }
    {
        loop {
            if !self.pass().goes_on() {
                break;
            }
        }
    }
}
