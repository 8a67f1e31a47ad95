//! A level with the same number of words for each cell: read, compared, searched, matched, rewritten, pushed and stilled.
#![tactic(auto)]

ghost use Rattle.std.specs.Prelude.{◌≡◌, ◌+◌, ◌*◌, ◌<◌, length};
ghost use Rattle.pz_sheet.specs.Grid.{IsLawful, IsOnMap};

use pz_cells::cell::Cell;
use pz_cells::layers::Layers;
use pz_planes::notes::Notes;
use pz_planes::planes::Planes;
use std::marker::Model;

mod cells;
pub mod changes;
mod copying;
mod headings;
mod holding;
pub mod line;
mod lines;
mod loading;
mod movement;
mod noting;
mod place;
mod pushing;
mod reading;
pub mod runs;
mod sameness;
mod searching;

/// The cells of a level. Each has `N` words for the objects that stand there, and `N` for where its layers head. `notes` has at least where
/// something heads in each line, and `planes` exactly where the objects stand.
pub struct Sheet<const N: usize> {
    width: u32,
    height: u32,
    layers: Layers<N>,
    cells: Vec<Cell<N>>,
    notes: Notes,
    planes: Planes,
}

/// Written out: where a sheet goes out of scope, the prover then sees one call, not every path through its fields.
impl<const N: usize> Drop for Sheet<N> {
    fn drop(self) {
        let Sheet {
            width: _,
            height: _,
            layers,
            cells,
            notes,
            planes,
        } = self;
        drop(layers);
        drop(cells);
        drop(notes);
        drop(planes);
    }
}

impl<const N: usize> Model for Sheet<N> {
    ghost use Rattle.pz_sheet.specs.Grid.{BareState};
    ghost use Rattle.pz_sheet.specs.Seen.{grid_of, IsSheet};

    ghost Value = { BareState };

    ghost view = { λ a. record { grid = grid_of a.width a.height a.layers a.cells.items } };

    ghost invariant = { λ a. IsSheet N a.width a.height a.layers a.cells.items a.notes a.planes };
}

impl<const N: usize> Sheet<N> {
    /// The number of columns.
    #[tactic(auto, using(crate::proofs::SheetLemmas::lawful_here))]
    pub fn width(&self) -> u32
        ensures width { result ≡ self.now.grid.width }
        ensures lawful { IsLawful self.now.grid }
    {
        self.width
    }

    /// The number of rows.
    #[tactic(auto, using(crate::proofs::SheetLemmas::lawful_here))]
    pub fn height(&self) -> u32
        ensures height { result ≡ self.now.grid.height }
        ensures lawful { IsLawful self.now.grid }
    {
        self.height
    }

    /// The number of the cell at a position of the map. Cells are numbered row by row.
    fn index(&self, x: u32, y: u32) -> usize
        requires on_map { IsOnMap self.now.grid x y }
        ensures index { result ≡ y * self.now.grid.width + x }
        ensures within { result < length self.now.grid.cells }
    {
        y as usize * self.width as usize + x as usize
    }
}
