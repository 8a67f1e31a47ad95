//! What the lines of a recording call the kinds of frames, the closes and their causes.
#![tactic(auto, unfolding(crate::specs::Naming::kind_name, json::specs::Print::escape_byte, crate::specs::Naming::code_name, crate::specs::Naming::stop_name, crate::specs::Naming::refusal_name, crate::specs::Naming::close_name, crate::specs::Naming::cause_name))]

ghost use Rattle.std.specs.Prelude.{◌≡◌, ◌++◌, IfOk, codes, decimal, option_map, string_bytes};
ghost use Rattle.json.specs.Print.{quoted};
ghost use Rattle.pz_lines.specs.Naming.{kind_name, code_name, stop_name, refusal_name, close_name, cause_name};

use pz_base::fault::Code;
use pz_case::item::{FrameKind, Refusal, Stop, Verdict};
use std::alloc::{AllocError, Global};

/// The name of a kind of frames as a JSON string, as it is written: there is one in each line.
pub(crate) fn quoted_kind(kind: FrameKind) -> &'static [u8]
    ensures { result.now ≡ quoted (kind_name kind) }
{
    match kind {
        FrameKind::Start => b"\"start\"",
        FrameKind::Move => b"\"move\"",
        FrameKind::Tick => b"\"tick\"",
        FrameKind::Undo => b"\"undo\"",
        FrameKind::Restart => b"\"restart\"",
        FrameKind::Load => b"\"load\"",
        FrameKind::Over => b"\"over\"",
    }
}

/// The name of a fault's code.
pub fn code_name(code: Code) -> &'static str
    ensures { result.now ≡ code_name code }
{
    match code {
        Code::Memory => "Memory",
        Code::TooLong => "TooLong",
        Code::OutsideProfile => "OutsideProfile",
        Code::Section => "Section",
        Code::BadObject => "BadObject",
        Code::BadLegend => "BadLegend",
        Code::Duplicate => "Duplicate",
        Code::Unknown => "Unknown",
        Code::Mixed => "Mixed",
        Code::NoLayer => "NoLayer",
        Code::Missing => "Missing",
        Code::BadRule => "BadRule",
        Code::Shape => "Shape",
        Code::AmbiguousRight => "AmbiguousRight",
        Code::RightClash => "RightClash",
        Code::TooManyRules => "TooManyRules",
        Code::BadWin => "BadWin",
        Code::BadGlyph => "BadGlyph",
        Code::NoLevel => "NoLevel",
        Code::TooLarge => "TooLarge",
        Code::LateMovement => "LateMovement",
    }
}

/// What a line calls a stop.
pub fn stop_name(stop: Stop) -> &'static str
    ensures { result.now ≡ stop_name stop }
{
    match stop {
        Stop::LoopLimit => "loop-limit",
        Stop::AgainLimit => "again-limit",
        Stop::MatchLimit => "match-limit",
    }
}

fn located(alloc: Global, name: &str, line: u32) -> Result<String, AllocError>
    ensures { IfOk result (λ text. string_bytes text ≡ name.now ++ codes ":" ++ decimal line) }
{
    format!(in alloc; "{name}:{line}")
}

fn refusal_name(alloc: Global, refusal: Refusal) -> Result<String, AllocError>
    ensures { IfOk result (λ text. string_bytes text ≡ refusal_name refusal) }
{
    match refusal {
        Refusal::Source(fault) => located(alloc, code_name(fault.code), fault.line),
        Refusal::NoLevel => String::from_str(alloc, "no-level"),
    }
}

pub(crate) fn close_name(verdict: Verdict) -> &'static str
    ensures { result.now ≡ close_name verdict }
{
    match verdict {
        Verdict::Passed => "passed",
        Verdict::Differs => "differs",
        Verdict::Stopped(_) => "stopped",
        Verdict::Refused(_) => "refused",
    }
}

/// The cause of a stop or a refusal; a session that was played to its end has none.
pub(crate) fn cause_name(alloc: Global, verdict: Verdict) -> Result<Option<String>, AllocError>
    ensures { IfOk result (λ cause. option_map string_bytes cause ≡ cause_name verdict) }
{
    match verdict {
        Verdict::Passed | Verdict::Differs => Ok(None),
        Verdict::Stopped(stop) => Ok(Some(String::from_str(alloc, stop_name(stop))?)),
        Verdict::Refused(refusal) => Ok(Some(refusal_name(alloc, refusal)?)),
    }
}
