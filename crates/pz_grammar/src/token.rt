//! The words of a rule line.

use pz_game::direction::Dir;

/// A direction that turns with the rule: as if the rule looked to the right, up, down, back and ahead.
#[derive(Clone, Copy, PartialEq, Eq)]
pub enum Turn {
    Up,
    Down,
    Back,
    Ahead,
}

/// A word for several directions.
#[derive(Clone, Copy, PartialEq, Eq)]
pub enum Class {
    Moving,
    Orthogonal,
    Horizontal,
    Vertical,
    Parallel,
    Perpendicular,
}

/// A word that may stand before a name: `no`, or a movement word. A word for several directions comes with what says which: its
/// class as it is written, and in a plan the number of the choice that gives the direction.
#[derive(Clone, Copy)]
pub enum Lead<C> {
    No,
    Stationary,
    Toward(Dir),
    Turned(Turn),
    OneOf(C),
}

/// A command, as a rule line gives it. Sounds and messages have no effect.
#[derive(Clone, Copy)]
pub enum Command {
    Again,
    Cancel,
    Checkpoint,
    Restart,
    Win,
    Sound(u8),
    Message,
}

/// A word of a rule line. A name stands as its number, and without a number nothing has that name.
#[derive(Clone, Copy)]
pub enum Token {
    Open,
    Close,
    Bar,
    Arrow,
    Plus,
    Gap,
    Late,
    StartLoop,
    EndLoop,
    Lead(Lead<Class>),
    Command(Command),
    Name(Option<usize>),
}
