//! Why a source is refused.

ghost use Rattle.std.specs.Prelude.{◌≡◌};
ghost use Rattle.pz_base.specs.declared.fault.Code.TheVariants.{Memory};

use std::alloc::{AllocError, AllocFailed};

/// The cause of a refusal, numbered from 1 in this order.
#[derive(Clone, Copy, Debug, PartialEq, Eq)]
pub enum Code {
    Memory,
    TooLong,
    OutsideProfile,
    Section,
    BadObject,
    BadLegend,
    Duplicate,
    Unknown,
    Mixed,
    NoLayer,
    Missing,
    BadRule,
    Shape,
    AmbiguousRight,
    RightClash,
    TooManyRules,
    BadWin,
    BadGlyph,
    NoLevel,
    TooLarge,
    LateMovement,
}

/// A refusal: its cause and its line, counted from 1, or 0 for the whole text.
#[derive(Clone, Copy, Debug, PartialEq, Eq)]
pub struct SourceFault {
    pub code: Code,
    pub line: u32,
}

impl From<AllocError> for SourceFault {
    ghost from_gives = { λ _ fault. fault ≡ record { code = Memory; line = 0 } };

    fn from(_: AllocError) -> SourceFault {
        SourceFault {
            code: Code::Memory,
            line: 0,
        }
    }
}

impl<T: Drop> From<AllocFailed<T>> for SourceFault {
    ghost from_gives = { λ _ fault. fault ≡ record { code = Memory; line = 0 } };

    fn from(_: AllocFailed<T>) -> SourceFault {
        SourceFault {
            code: Code::Memory,
            line: 0,
        }
    }
}
