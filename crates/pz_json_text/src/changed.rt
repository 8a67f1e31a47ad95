//! Which cells of a level may have changed.

ghost use Rattle.std.specs.Prelude.{◌≡◌, ◌-◌, ◌^◌, min, max};

/// A range of cells, by their numbers: from `first` on, and before `end`. No cell outside it has changed.
#[derive(Clone, Copy)]
pub struct Changed {
    pub first: usize,
    pub end: usize,
}

impl Changed {
    /// No cell.
    pub fn none() -> Changed
        ensures { result ≡ record { first = 2 ^ 64 - 1; end = 0 } }
    {
        Changed {
            first: usize::MAX,
            end: 0,
        }
    }

    /// A range that has these cells and the others.
    pub fn and(self, other: Changed) -> Changed
        ensures first { result.first ≡ min self.first other.first }
        ensures end { result.end ≡ max self.end other.end }
    {
        Changed {
            first: self.first.min(other.first),
            end: self.end.max(other.end),
        }
    }
}
