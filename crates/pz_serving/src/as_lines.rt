//! A job whose sessions are told in lines, replayed by workers that send them to one recorder, and written.

ghost use Rattle.std.specs.Prelude.{◌≡◌, ◌≤◌, ◌++◌, ◌&&◌, List, map, None, IfOk, OnOk};
ghost use Rattle.std.specs.List.{list_any};
ghost use Rattle.std.specs.Thread.{IsSync};
ghost use Rattle.pz_console.specs.declared.options.TheConstants.{MOST_WORKERS};
ghost use Rattle.pz_case.specs.declared.case.Case.{Case};
ghost use Rattle.pz_engine.specs.declared.engine.PlayedCase.{PlayedCase};
ghost use Rattle.pz_replay.specs.Telling.{told};
ghost use Rattle.pz_session.specs.Recording.{recording};
ghost use Rattle.pz_serving.specs.AsLines.{HandsOn, all_told, lines_of, passed_of, pieces_in, pieces_of};

use pz_case::case::Case;
use pz_case::job::Job;
use pz_console::failure::Failure;
use pz_crew::playing::{Playable, Playing};
use pz_crew::recorder::Sessions;
use pz_engine::engine::{PlayedCase, play_on};
use pz_lines::output::Output;
use pz_lines::packed::PackedLines;
use pz_lines::writing::write_packed;
use pz_replay::{Always, CAPACITY, ReplayFault, Telling, replay_told};
use pz_session::run::Run;
use std::alloc::{AllocError, Global};
use std::io::Write;
use std::sync::Wait;
use std::thread::Threads;

/// A piece has so many items of a session, or what is left of it. (The first line of a piece is kept whole. With 64 items these lines take a
/// twentieth more memory in long recordings, with 128 half of that.)
pub(crate) const PIECE: usize = 128;

/// A run of a session. Each piece has the lines of the next items, packed, and tells whether the session passed by them.
#[derive(Drop)]
struct LinesRun<'a> {
    alloc: Global,
    number: usize,
    case: &'a Case,
    run: Run<'a>,
    frames: u64,
}

impl Playing for LinesRun<'_> {
    ghost use Rattle.pz_serving.specs.AsLines.{pieces_left};

    type Piece = PlayedCase;

    ghost left = { λ run. pieces_left run.number run.case.now.name run.frames run.run.items };

    fn next(&mut self) -> Result<Option<PlayedCase>, AllocError> {
        let name = self.case.name.as_str();
        play_on(
            self.alloc,
            self.number as u64,
            name,
            &mut self.run,
            &mut self.frames,
            PIECE,
        )
    }
}

/// A job whose sessions are played as their lines.
#[derive(Drop)]
struct AsLines<'a> {
    job: &'a Job,
}

impl<'a> Playable for AsLines<'a> {
    ghost use Rattle.pz_serving.specs.AsLines.{sessions_of};

    type Piece = PlayedCase;

    type Run = LinesRun<'a>;

    ghost sessions = { λ played. sessions_of played.job.now };

    fn count(&self) -> usize {
        self.job.len()
    }

    fn begin(&self, alloc: Global, number: usize) -> Result<LinesRun<'a>, AllocError> {
        let case = self.job.case(number);
        let run = Run::new(alloc, case)?;
        Ok(LinesRun {
            alloc,
            number,
            case,
            run,
            frames: 0,
        })
    }
}

impl<'a> Telling for AsLines<'a> {
    ghost job = { λ played. played.job.now };

    ghost pieces = { λ _. pieces_of };

    fn tells(&self) {}
}

/// The lines of the sessions of a job, in their order, and whether all of these passed.
#[derive(Drop)]
pub(crate) struct PlayedJob {
    pub texts: Vec<PackedLines>,
    pub passed: bool,
}

impl PlayedJob {
    /// Takes in the pieces of the session that comes next.
    fn take_in(&mut self, pieces: Vec<PlayedCase>) -> Result<(), AllocError>
        ensures texts { OnOk result (self.new.texts.items ≡ self.old.texts.items ++ map lines_of pieces.items) }
        ensures passed { OnOk result (self.new.passed ≡ (self.old.passed && list_any passed_of pieces.items)) }
    {
        let mut passed = false;
        for piece in pieces {
            self.texts.push(piece.lines)?;
            passed = passed || piece.passed;
        }
        self.passed = self.passed && passed;
        Ok(())
    }
}

/// The lines of all sessions, from the pieces of each.
fn joined(alloc: Global, sessions: Sessions<PlayedCase>) -> Result<PlayedJob, AllocError>
    ensures texts { IfOk result (λ played. played.texts.items ≡ map lines_of (pieces_in sessions)) }
    ensures passed { IfOk result (λ played. played.passed ≡ all_told sessions) }
{
    let sessions = sessions.into_pieces();
    let mut played = PlayedJob {
        texts: Vec::with_capacity(alloc, sessions.len())?,
        passed: true,
    };
    for pieces in sessions {
        played.take_in(pieces)?;
    }
    Ok(played)
}

/// Whoever replays a job, told in lines. Nothing is known of an answer but that it may be given, and another may be given next. So
/// whoever writes one can take the lines from that answer alone.
pub(crate) trait Replays {
    /// The job may be answered so.
    ghost may_answer: { Self → List Case → List (List PlayedCase) → Type 0 };

    fn replay<T: Threads + Wait + Sync>(
        &self,
        rt: &T,
        alloc: Global,
        job: &Job,
    ) -> Result<Sessions<PlayedCase>, AllocError>
        requires { IsSync T.row }
        ensures { IfOk result (may_answer self.now job.now) };
}

/// So many workers.
#[derive(Drop)]
pub(crate) struct Crew {
    pub workers: usize,
    pub ghost some: { 1 ≤ workers },
    pub ghost few: { workers ≤ MOST_WORKERS },
}

impl Replays for Crew {
    ghost may_answer = { λ _ job answer. answer ≡ told pieces_of (recording job) };

    fn replay<T: Threads + Wait + Sync>(
        &self,
        rt: &T,
        alloc: Global,
        job: &Job,
    ) -> Result<Sessions<PlayedCase>, AllocError> {
        let played = AsLines { job };
        match replay_told(rt, alloc, &played, self.workers, CAPACITY, &Always) {
            Ok(sessions) => Ok(sessions),
            Err(ReplayFault::Memory) => Err(AllocError),
            Err(ReplayFault::Workers | ReplayFault::GateClosed | ReplayFault::LaneLost) =>
                unreachable!(),
        }
    }
}

/// Replays a job, and writes the lines of that very answer; tells whether they tell that every session passed.
pub(crate) fn replay_and_write<P: Replays, T: Threads + Wait + Sync, W: Write>(
    replays: &P,
    rt: &T,
    alloc: Global,
    job: &Job,
    output: &mut Output<W>,
) -> Result<bool, Failure>
    requires { output.old.failure ≡ None }
    ensures { HandsOn (P.may_answer replays.now job.now) output.old output.new result }
{
    let answer = replays.replay(rt, alloc, job)?;
    let played = joined(alloc, answer)?;
    match write_packed(alloc, &played.texts, output) {
        Ok(()) => Ok(played.passed),
        Err(fault) => Err(Failure::WriteFault(fault)),
    }
}
