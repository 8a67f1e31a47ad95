//! The directions of the language.

/// A direction of movement, or the action.
#[derive(Clone, Copy, PartialEq, Eq, Debug)]
pub enum Dir {
    Up,
    Down,
    Left,
    Right,
    Action,
}
