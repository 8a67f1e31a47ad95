//! Lists of cells that are stilled.

ghost use Rattle.std.specs.Prelude.{◌≡◌, ◌<◌, ◌≤◌, ℕ, All, length, slice_index_or};
ghost use Rattle.pz_cells.specs.declared.cell.Cell.{Cell};
ghost use Rattle.pz_cells.specs.Lists.{IsSound, IsStilled};

use crate::cell::Cell;
use crate::layers::Layers;

/// Stills every piece of the cells from the number `from` on and before the number `end`.
pub fn still_cells<const N: usize>(
    cells: &mut Vec<Cell<N>>,
    layers: &Layers<N>,
    from: usize,
    end: usize,
)
    requires sound { All (IsSound layers.now) cells.old.items }
    requires range { (from ≤ end) × (end ≤ length cells.old.items) }
    ensures long { length cells.new.items ≡ length cells.old.items }
    ensures stilled { (index : ℕ) (cell : Cell N) → from ≤ index → index < end →
        IsStilled layers.now (slice_index_or cells.old.items index cell) (slice_index_or cells.new.items index cell) }
    ensures before { (index : ℕ) (cell : Cell N) → index < from →
        slice_index_or cells.new.items index cell ≡ slice_index_or cells.old.items index cell }
    ensures behind { (index : ℕ) (cell : Cell N) → end ≤ index →
        slice_index_or cells.new.items index cell ≡ slice_index_or cells.old.items index cell }
{
    // (brings the proof the law of the layers)
    let _ = layers.depth();
    for index in from..end {
        cells[index].still_all(layers);
    }
}
