//! A law of sessions. It is what a function without a body ensures.

ghost use Rattle.pz_session.specs.Laws.{CloseOnce};

/// The items of a case are frames, numbered from 0, and last one close.
pub fn cases_close_once()
    ensures { CloseOnce }
{}
