//! The directions that the words of a rule mean in one of its directions.

ghost use Rattle.std.specs.Prelude.{◌≡◌};
ghost use Rattle.pz_rules.specs.Turning.{turned_direction, along, across, class_directions};

use pz_game::direction::Dir;
use pz_grammar::token::{Class, Turn};

/// The direction that a turning word means in a rule of this direction. Rule `rules.turning`.
pub fn turned(direction: Dir, turn: Turn) -> Dir
    ensures { result ≡ turned_direction direction turn }
{
    match (direction, turn) {
        (Dir::Right, Turn::Up)
        | (Dir::Up, Turn::Ahead)
        | (Dir::Left, Turn::Down)
        | (Dir::Down, Turn::Back) => Dir::Up,
        (Dir::Right, Turn::Down)
        | (Dir::Up, Turn::Back)
        | (Dir::Left, Turn::Up)
        | (Dir::Down, Turn::Ahead) => Dir::Down,
        (Dir::Right, Turn::Back)
        | (Dir::Up, Turn::Up)
        | (Dir::Left, Turn::Ahead)
        | (Dir::Down, Turn::Down) => Dir::Left,
        (Dir::Right, Turn::Ahead)
        | (Dir::Up, Turn::Down)
        | (Dir::Left, Turn::Back)
        | (Dir::Down, Turn::Up) => Dir::Right,
        (Dir::Action, _) => Dir::Action,
    }
}

/// The axis of a rule of this direction.
fn along(direction: Dir) -> &'static [Dir]
    ensures { result.now ≡ along direction }
{
    match direction {
        Dir::Up | Dir::Down => &[Dir::Up, Dir::Down],
        _ => &[Dir::Left, Dir::Right],
    }
}

/// The other axis.
fn across(direction: Dir) -> &'static [Dir]
    ensures { result.now ≡ across direction }
{
    match direction {
        Dir::Up | Dir::Down => &[Dir::Left, Dir::Right],
        _ => &[Dir::Up, Dir::Down],
    }
}

/// The directions of a word for several, in order. Rule `rules.class-words`.
pub fn class_directions(direction: Dir, class: Class) -> &'static [Dir]
    ensures { result.now ≡ class_directions direction class }
{
    match class {
        Class::Moving => &[Dir::Up, Dir::Down, Dir::Left, Dir::Right, Dir::Action],
        Class::Orthogonal => &[Dir::Up, Dir::Down, Dir::Left, Dir::Right],
        Class::Horizontal => &[Dir::Left, Dir::Right],
        Class::Vertical => &[Dir::Up, Dir::Down],
        Class::Parallel => along(direction),
        Class::Perpendicular => across(direction),
    }
}
