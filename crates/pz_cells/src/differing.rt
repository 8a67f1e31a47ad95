//! The next cell in which two lists of cells differ.

ghost use Rattle.std.specs.Prelude.{◌≡◌, ◌≤◌, true, length};
ghost use Rattle.pz_cells.specs.Differing.{IsNextDiffering};
ghost use Rattle.pz_cells.specs.Lists.{HeadNowhere};

use crate::cell::Cell;
use pz_sets::words::same;

/// The first cell, from number `from` on, in which two lists differ. If no cell of either heads anywhere, only the objects are compared.
pub fn next_differing<const N: usize>(
    cells: &[Cell<N>],
    others: &[Cell<N>],
    are_still: bool,
    from: usize,
) -> Option<usize>
    requires short { N ≤ 4 }
    requires long { length cells.now ≡ length others.now }
    requires still { are_still ≡ true → HeadNowhere cells.now × HeadNowhere others.now }
    ensures { IsNextDiffering cells.now others.now from result }
{
    if are_still {
        for index in from..cells.len() {
            if !same(&cells[index].objects, &others[index].objects) {
                return Some(index);
            }
        }
    } else {
        for index in from..cells.len() {
            if !cells[index].same(&others[index]) {
                return Some(index);
            }
        }
    }
    None
}
