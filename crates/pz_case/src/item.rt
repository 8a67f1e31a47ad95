//! What a session shows: its frames, and its close.

use pz_base::fault::SourceFault;
use pz_json_text::quoted::QuotedText;

/// Why a frame is shown.
#[derive(Clone, Copy, Debug, PartialEq, Eq)]
pub enum FrameKind {
    /// The level as it was loaded first.
    Start,
    /// The end of a press.
    Move,
    /// The end of a tick that isn't idle.
    Tick,
    /// The level that an undo gives.
    Undo,
    /// The target, after a restart.
    Restart,
    /// The level that a win loads.
    Load,
    /// The won level, for each input after play is over.
    Over,
}

/// Why a session stopped before all of its inputs were played.
#[derive(Clone, Copy, Debug, PartialEq, Eq)]
pub enum Stop {
    /// A group of rules, or a loop of groups, that doesn't come to rest.
    LoopLimit,
    /// An input, or the start, that needs more ticks than it may run.
    AgainLimit,
    /// A rule that holds at too many places.
    MatchLimit,
}

/// Why a session is not played.
#[derive(Clone, Copy, Debug, PartialEq, Eq)]
pub enum Refusal {
    /// Its source is refused.
    Source(SourceFault),
    /// No entry of LEVELS from the session's index on is a level.
    NoLevel,
}

/// How a session closes.
#[derive(Clone, Copy, Debug, PartialEq, Eq)]
pub enum Verdict {
    /// Every input was played, and the last level is the recorded one.
    Passed,
    /// Every input was played, and the last level isn't the recorded one.
    Differs,
    Stopped(Stop),
    Refused(Refusal),
}

/// An item of a session: a level that is shown, or its close, which follows all frames.
#[derive(Drop)]
pub enum Item {
    /// The frames are numbered from 0, and `at` is how many inputs were taken. The text of the level has its cells in the order of the job,
    /// and is kept as it will be written: `plain` gives the text itself.
    Frame {
        number: u64,
        kind: FrameKind,
        at: u64,
        level_text: QuotedText,
    },
    Close(Verdict),
}
