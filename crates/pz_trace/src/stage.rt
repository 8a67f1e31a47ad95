//! A stage of a step.

use pz_program::commands::Commands;

/// A part of a step. Blocks are numbered from 0, the early and the late ones each by themselves.
#[derive(Clone, Copy, PartialEq, Eq, Debug)]
pub enum Part {
    /// The input: a press gives its direction to the players, a tick gives none.
    Input,
    /// An early block, run to rest.
    Early(usize),
    /// The movement.
    Movement,
    /// A late block, run to rest.
    Late(usize),
    /// The end of the step. A cancelled step ends with the level before it.
    End,
}

/// A stage of a step: the commands that it gave, and whether it changed something. A block has changed something if a rewriting changed a
/// cell. The input and the movement have if the level differs then, and the end has if it differs from the level before the step.
#[derive(Clone, Copy, PartialEq, Eq, Debug)]
pub struct Stage {
    pub part: Part,
    pub commands: Commands,
    pub changed: bool,
}
