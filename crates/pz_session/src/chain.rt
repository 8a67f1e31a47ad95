//! Links of a session: what an input does first, and the ticks that follow.

ghost use Rattle.std.specs.Prelude.{◌≡◌};
ghost use Rattle.pz_session.specs.Session.{ticks_after};

use pz_case::item::{FrameKind, Stop};
use pz_json_text::quoted::QuotedText;
use pz_record::input::Input;
use std::alloc::AllocError;

/// The most ticks of a chain, idle ones included. A tick input is one of them itself. Rule `play.again-limit`.
pub const MOST_TICKS: u64 = 500;

/// Promises the limit as a number, so that changing the constant alone breaks a proof.
pub fn ticks_are_limited()
    ensures { MOST_TICKS ≡ 500 }
{}

/// How many ticks may follow an input's first link. Rule `play.again-limit`.
pub fn ticks_after(input: Input) -> u64
    ensures { result ≡ ticks_after input }
{
    match input {
        Input::Tick => MOST_TICKS - 1,
        _ => MOST_TICKS,
    }
}

/// A level that is shown, and why. Its text is kept as it will be written.
#[derive(Drop)]
pub struct Frame {
    pub kind: FrameKind,
    pub level_text: QuotedText,
}

/// What a link shows, and whether one more tick follows it.
#[derive(Drop)]
pub struct Shown {
    pub first: Option<Frame>,
    pub second: Option<Frame>,
    pub goes_on: bool,
}

/// Why a link isn't played: memory was refused, or the session stops here.
#[derive(Clone, Copy)]
pub enum PlayFault {
    Memory,
    Stopped(Stop),
}

impl From<AllocError> for PlayFault {
    ghost use Rattle.pz_session.specs.declared.chain.PlayFault.TheVariants.{Memory};

    ghost from_gives = { λ _ fault. fault ≡ Memory };

    fn from(_: AllocError) -> PlayFault {
        PlayFault::Memory
    }
}
