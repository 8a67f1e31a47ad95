//! A press gives its direction to the player.

ghost use Rattle.std.specs.Prelude.{◌≡◌, ℕ, ◌<◌, false, length, map};
ghost use Rattle.pz_cells.specs.Lists.{pieces_of_cell, IsSound};
ghost use Rattle.pz_sheet.specs.Grid.{IsLawful, cell_at};
ghost use Rattle.pz_sheet.specs.Holding.{IsSetFor};
ghost use Rattle.pz_sheet.specs.Presence.{AreMissing};
ghost use Rattle.pz_sheet.specs.Pushing.{pushed_place, pushed_at, pushed_level};

use crate::Sheet;
use crate::holding::set_of;
use crate::line::Axis;
use pz_cells::cell::Cell;
use pz_cells::layers::Layers;
use pz_game::direction::Dir;
use pz_planes::bits;
use pz_sets::set::NumberSet;
use pz_sets::words::is_disjoint;

impl<const N: usize> Sheet<N> {
    /// Gives a direction to each of these objects in the level.
    pub fn push_all(&mut self, players: &[usize], dir: Dir)
        ensures pushed { self.new.grid ≡ pushed_level players.now dir self.old.grid }
        ensures lawful { IsLawful self.new.grid }
    {
        let set = set_of(players);
        for y in 0..self.height() {
            if self.may_stand_in_row(y, players) {
                for x in 0..self.width() {
                    self.push_at(self.index(x, y), players, &set, dir);
                }
            }
        }
        // (brings the proof the law of the level)
        let _ = self.width();
    }

    /// Whether the planes allow one of these objects to stand in a row. If false, none does.
    fn may_stand_in_row(&self, y: u32, objects: &[usize]) -> bool
        requires { y < self.now.grid.height }
        ensures { result ≡ false → (x : ℕ) → x < self.now.grid.width →
            AreMissing objects.now (cell_at self.now.grid x y) }
    {
        let rows = self.planes.lines(Axis::Horizontal);
        self.width > bits::ROOM || rows.may_have_one_of(y as usize, objects)
    }

    /// Gives a direction to each of these objects in the cell of this number. Only a cell that holds one of them is written.
    fn push_at(&mut self, index: usize, players: &[usize], set: &NumberSet, dir: Dir)
        requires within { index < length self.old.grid.cells }
        requires set { IsSetFor players.now set.now }
        ensures { self.new.grid ≡ pushed_at players.now dir index self.old.grid }
    {
        if is_disjoint(set.words(), self.objects_in(index)) {
            return;
        }
        self.push_in(index, players, dir);
    }

    /// The same for a cell that holds one of them. (Not inlined: the loop over all cells is faster without it.)
    #[inline(never)]
    fn push_in(&mut self, index: usize, players: &[usize], dir: Dir)
        requires { index < length self.old.grid.cells }
        ensures { self.new.grid ≡ pushed_at players.now dir index self.old.grid }
    {
        let layers = self.layers();
        let mut cell = *self.cell(index);
        push_cell(&mut cell, layers, players, dir);
        self.set_cell(index, cell);
    }
}

fn push_cell<const N: usize>(cell: &mut Cell<N>, layers: &Layers<N>, players: &[usize], dir: Dir)
    requires sound { IsSound layers.now cell.old }
    ensures sound { IsSound layers.now cell.new }
    ensures cell { pieces_of_cell layers.now cell.new ≡ map (pushed_place players.now dir) (pieces_of_cell layers.now cell.old) }
{
    for player in players {
        cell.turn(layers, *player, dir);
    }
}
