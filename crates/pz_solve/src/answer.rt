//! What a search may take, and what it answers.

use pz_game::direction::Dir;
use std::alloc::AllocError;

/// So many bytes a level takes at most for each of its cells, where it is kept as the numbers of its cells.
pub const BYTES_OF_CELL: usize = 4;

/// So many bytes it takes at most besides, for its numbers, how it was found and its digest.
pub const BYTES_OF_LEVEL: usize = 64;

/// The most levels that a search may keep, and the most bytes that they may take. The level that it starts from is kept in any case.
/// What distinct cells take, and what memory a growing list leaves unused, doesn't count.
#[derive(Clone, Copy)]
pub struct Bounds {
    pub levels: usize,
    pub bytes: usize,
}

/// The answer of a search. It is about presses by which no rule restarts the level: one that does so counts as lost.
#[derive(Drop)]
pub enum Answer {
    /// These presses win, and no shorter list of presses does.
    Solved(Vec<Dir>),
    /// No list of presses wins.
    Unsolvable,
    /// No list of at most `inputs` presses wins. One press more reaches more than `levels` levels, which is as many as were kept.
    OutOfBounds { levels: usize, inputs: usize },
}

/// Why a search has no answer. `Memory`: memory was refused.
#[derive(Clone, Copy, PartialEq, Eq, Debug)]
pub enum SolveFault {
    Memory,
}

impl From<AllocError> for SolveFault {
    ghost use Rattle.std.specs.Prelude.{◌≡◌};
    ghost use Rattle.pz_solve.specs.declared.answer.SolveFault.TheVariants.{Memory};

    ghost from_gives = { λ _ fault. fault ≡ Memory };

    fn from(_: AllocError) -> SolveFault {
        SolveFault::Memory
    }
}
