//! Lines of a map: how they lie, and which way they are walked.

ghost use Rattle.std.specs.Prelude.{◌≡◌, ◌+◌, ◌<◌};
ghost use Rattle.pz_planes.specs.Line.{step_to};

/// How a line lies: a row horizontally, a column vertically.
#[derive(Clone, Copy)]
pub enum Axis {
    Horizontal,
    Vertical,
}

/// Which way a line is walked: ahead to the right or down, back to the left or up.
#[derive(Clone, Copy)]
pub enum Way {
    Ahead,
    Back,
}

/// The position this many steps on.
pub fn step_to(way: Way, at: u32, steps: usize) -> u32
    requires near { at + steps < 65536 }
    ensures { result ≡ step_to way at steps }
{
    match way {
        Way::Ahead => at + steps as u32,
        Way::Back => at.saturating_sub(steps as u32),
    }
}
