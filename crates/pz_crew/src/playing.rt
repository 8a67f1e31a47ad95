//! Who plays the sessions of a job, and in which pieces. The pieces of a session, joined in their order, are what the session shows. What a
//! piece is, the way of playing says: an item of the session, say, or all its lines.

ghost use Rattle.std.specs.Prelude.{◌≡◌, ◌<◌, ◌≤◌, List, IfOk, length};
ghost use Rattle.pz_case.specs.Playing.{Yields};
ghost use Rattle.pz_crew.specs.Pieces.{pieces_at};
ghost use Rattle.pz_record.specs.declared.limits.TheConstants.{MOST_ENTRIES};

use std::alloc::{AllocError, Global};

/// A run of a session, which gives what the session shows, piece by piece.
pub trait Playing: Sized + Drop {
    type Piece: Drop;

    /// The pieces that are still to come.
    ghost left: { Self → List Self.Piece };

    /// The next piece, or none after the last. After memory was refused, nothing is promised of the run.
    fn next(&mut self) -> Result<Option<Self::Piece>, AllocError>
        ensures { IfOk result (λ answer. Yields (left self.old) answer (left self.new)) };
}

/// A job whose sessions can be played, each by a run of its own.
pub trait Playable {
    type Piece: Drop + Send;

    type Run: Playing<Piece = Self::Piece>;

    /// What each session shows, piece by piece, by session number.
    ghost sessions: { Self → List (List Self.Piece) };

    /// How many sessions there are.
    fn count(&self) -> usize
        ensures count { result ≡ length (sessions self.now) }
        ensures few { result ≤ MOST_ENTRIES };

    /// The run of the session of a number, counted from 0, before its first piece.
    fn begin(&self, alloc: Global, number: usize) -> Result<Self::Run, AllocError>
        requires { number < length (sessions self.now) }
        ensures { IfOk result (λ run. Self.Run.left run ≡ pieces_at (sessions self.now) number) };
}
