//! The presses that lead to a level that was found.

ghost use Rattle.std.specs.Prelude.{◌≡◌, ◌+◌, ◌<◌, ℕ, length, IfOk, Some, slice_get};
ghost use Rattle.pz_sheet.specs.Grid.{Grid};
ghost use Rattle.pz_solve.specs.Found.{Found, IsSearch, IsWinOf};
ghost use Rattle.pz_solve.specs.Moves.{Wins};
ghost use Rattle.pz_solve.specs.Winning.{Moves};

use crate::search::Search;
use pz_game::direction::Dir;
use std::alloc::{AllocError, Global};

/// The presses that lead to a level that was found, and then one more.
pub(crate) fn inputs_to(
    alloc: Global,
    search: &Search,
    index: usize,
    last: Dir,
) -> Result<Vec<Dir>, AllocError>
    requires within { index < length search.now }
    ensures { IfOk result (λ inputs. (moves : Moves) (start : Grid) (tried : ℕ) (here : Found) →
        IsSearch moves start search.now tried → slice_get search.now index ≡ Some here → moves here.grid last ≡ Wins →
        IsWinOf moves start here.depth inputs.items) }
{
    let mut inputs = Vec::new(alloc);
    inputs.push(last)?;
    let mut at = index;
    'links: while at > 0 {
        let link = search.link(at);
        inputs.push(link.input)?;
        at = link.parent as usize;
    }
    inputs.reverse();
    Ok(inputs)
}
