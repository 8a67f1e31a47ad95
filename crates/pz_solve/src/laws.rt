//! Laws of moves. Each is what a function without a body ensures.

ghost use Rattle.pz_solve.specs.Laws.{MovesStandInSessions, MovesWinInSessions};

/// Where a move leads to a level, a session's chain of that press ends in it.
pub fn moves_stand_in_sessions()
    ensures { MovesStandInSessions }
{}

/// Where a move wins, a session's chain of that press comes to a win.
pub fn moves_win_in_sessions()
    ensures { MovesWinInSessions }
{}
