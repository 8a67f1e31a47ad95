//! Whoever tells what sessions show, and in which pieces.

ghost use Rattle.std.specs.Prelude.{◌≡◌, ℕ, List};
ghost use Rattle.pz_case.specs.declared.case.Case.{Case};
ghost use Rattle.pz_case.specs.declared.recording.Record.{Record};
ghost use Rattle.pz_replay.specs.Telling.{told};
ghost use Rattle.pz_session.specs.Recording.{recording};

use pz_crew::playing::Playable;

/// A job whose sessions are played as the rules give them, and told in pieces, as one item each.
pub trait Telling: Playable {
    /// The cases of the job.
    ghost job: { Self → List Case };

    /// The pieces that tell what the session of a number showed.
    ghost pieces: { Self → ℕ → Record → List Self.Piece };

    /// Promises that the pieces of each session tell its part of the recording.
    fn tells(&self)
        ensures { Self.sessions self.now ≡ told (pieces self.now) (recording (job self.now)) };
}
