//! The serving of a file of sessions.

ghost use Rattle.std.specs.Prelude.{◌≡◌, ◌≢◌, ◌≤◌, ◌+◌, Bool, Err, false, None, Result, IfOk, IfErr};
ghost use Rattle.std.specs.IoError.{error_kind};
ghost use Rattle.pz_entries.specs.declared.file.TheConstants.{MOST_BYTES};
ghost use Rattle.pz_console.specs.declared.options.TheConstants.{MOST_WORKERS};
ghost use Rattle.pz_console.specs.declared.failure.Failure.{Failure};
ghost use Rattle.pz_lines.specs.Writing.{Writes};
ghost use Rattle.pz_session.specs.Recording.{recording};
ghost use Rattle.pz_serving.specs.Serving.{IsJobOf, Plays, ReadsFor, Reports, Serves, ServesOpened, failure_at, status_of};

use crate::as_lines::{Crew, replay_and_write};
use pz_case::job::Job;
use pz_console::counted::Counted;
use pz_console::failure::{Failure, fail_with};
use pz_console::input::{InputFault, read_input};
use pz_console::options::Options;
use pz_engine::sessions::decode;
use pz_entries::fault::FileFault;
use pz_job::job::prepare_with;
use pz_lines::output::Output;
use pz_session::laws::cases_close_once;
use std::alloc::Global;
use std::io::{self, ErrorKind, Read, Write};
use std::sync::Wait;
use std::thread::Threads;

/// Plays a job by several workers, and writes the lines of its sessions; tells whether every session passed.
fn play_job<T: Threads + Wait + Sync, W: Write>(
    rt: &T,
    alloc: Global,
    job: &Job,
    workers: usize,
    output: &mut Output<W>,
) -> Result<bool, Failure>
    requires sound { output.old.failure ≡ None }
    requires some { 1 ≤ workers }
    requires few { workers ≤ MOST_WORKERS }
    ensures played { Plays (recording job.now) output.old output.new result }
{
    // (brings the proof that the close is the last item, which tells how many frames there were)
    cases_close_once();
    replay_and_write(&Crew { workers }, rt, alloc, job, output)
}

/// Reads a file of sessions, and makes the job of its entries.
fn read_job<T: Threads + Sync, R: Read>(
    rt: &T,
    alloc: Global,
    input: &mut Counted<R>,
    options: Options,
) -> Result<Job, Failure>
    requires fresh { (input.old.calls ≡ 0) × (input.old.has_failed ≡ false) }
    ensures called { input.new.calls ≤ MOST_BYTES + 1 }
    ensures job { IfOk result (IsJobOf options.order input.old.remaining input.new) }
    ensures reads { IfErr result (λ failure. ReadsFor (Err failure) input.new) }
    ensures refused { IfErr result
        (λ failure. (output : Writes) → Serves options.order input.old.remaining output output (Err failure)) }
{
    let bytes = match read_input(alloc, input) {
        Ok(bytes) => bytes,
        Err(InputFault::Memory) => return Err(Failure::Memory),
        Err(InputFault::Device) => return Err(Failure::ReadFault),
        Err(InputFault::TooLong) => return Err(Failure::File(FileFault::TooMany)),
    };
    let entries = match decode(alloc, &bytes) {
        Ok(entries) => entries,
        Err(fault) => return Err(Failure::File(fault)),
    };
    // (the entries hold all that is played, and games take much room)
    drop(bytes);
    Ok(prepare_with(rt, alloc, entries, options.order, options.workers)?)
}

/// The exit status of a run that ended so. A failure's line is written. Rule `program.status`.
fn status_of<E: Write>(end: Result<bool, Failure>, errors: &mut Output<E>) -> u8
    requires sound { errors.old.failure ≡ None }
    ensures status { result ≡ status_of end }
    ensures line { Reports errors.old errors.new end }
{
    match end {
        Ok(true) => 0,
        Ok(false) => 1,
        Err(failure) => fail_with(failure, errors),
    }
}

/// Serves a file of sessions as `serve` does, and hands back the job that was played, if there is one.
pub(crate) fn serve_and_keep<T: Threads + Wait + Sync, R: Read, W: Write, E: Write>(
    rt: &T,
    alloc: Global,
    input: &mut Counted<R>,
    output: &mut Output<W>,
    errors: &mut Output<E>,
    options: Options,
) -> (u8, Option<Job>)
    requires fresh { (input.old.calls ≡ 0) × (input.old.has_failed ≡ false) }
    requires sound { (output.old.failure ≡ None) × (errors.old.failure ≡ None) }
    requires some { 1 ≤ options.workers }
    requires few { options.workers ≤ MOST_WORKERS }
    ensures served { (end : Result Bool Failure) × (result.0 ≡ status_of end) × ReadsFor end input.new
        × Serves options.order input.old.remaining output.old output.new end
        × Reports errors.old errors.new end }
{
    match read_job(rt, alloc, input, options) {
        Ok(job) => {
            let end = play_job(rt, alloc, &job, options.workers, output);
            (status_of(end, errors), Some(job))
        }
        Err(failure) => (fail_with(failure, errors), None),
    }
}

/// Reads a file of sessions to its end, replays them by so many workers (one of them in the calling thread), writes the lines of their
/// recording, and answers the exit status: 0 if every session passed, 1 if some didn't, 2 if there is no whole recording. At 2 one line
/// says why, and nothing is written to the output. Only if the writing itself failed does the output have the first bytes of the
/// recording. The reader was not called yet, and is called at most 16,777,217 times. The run ends with a failed read exactly if a call of
/// the reader answered an error.
pub fn serve<T: Threads + Wait + Sync, R: Read, W: Write, E: Write>(
    rt: &T,
    alloc: Global,
    input: &mut Counted<R>,
    output: &mut Output<W>,
    errors: &mut Output<E>,
    options: Options,
) -> u8
    requires fresh { (input.old.calls ≡ 0) × (input.old.has_failed ≡ false) }
    requires sound { (output.old.failure ≡ None) × (errors.old.failure ≡ None) }
    requires some { 1 ≤ options.workers }
    requires few { options.workers ≤ MOST_WORKERS }
    ensures served { (end : Result Bool Failure) × (result ≡ status_of end) × ReadsFor end input.new
        × Serves options.order input.old.remaining output.old output.new end
        × Reports errors.old errors.new end }
{
    serve_and_keep(rt, alloc, input, output, errors, options).0
}

/// Why a file was not opened.
fn failure_at(error: &io::Error) -> Failure
    ensures { result ≡ failure_at (error_kind error.now) }
{
    match error.kind() {
        ErrorKind::OutOfMemory => Failure::Memory,
        _ => Failure::OpenFault,
    }
}

/// Serves a file of sessions as `serve_opened` does, and hands back the job that was played, if there is one.
pub(crate) fn serve_opened_and_keep<T: Threads + Wait + Sync, R: Read, W: Write, E: Write>(
    rt: &T,
    alloc: Global,
    opened: &mut io::Result<Counted<R>>,
    output: &mut Output<W>,
    errors: &mut Output<E>,
    options: Options,
) -> (u8, Option<Job>)
    requires fresh { IfOk opened.old (λ file. (file.calls ≡ 0) × (file.has_failed ≡ false)) }
    requires sound { (output.old.failure ≡ None) × (errors.old.failure ≡ None) }
    requires some { 1 ≤ options.workers }
    requires few { options.workers ≤ MOST_WORKERS }
    ensures served { (end : Result Bool Failure) × (result.0 ≡ status_of end)
        × ServesOpened options.order opened.old opened.new output.old output.new end
        × Reports errors.old errors.new end }
{
    match opened {
        Ok(file) => serve_and_keep(rt, alloc, file, output, errors, options),
        Err(error) => (fail_with(failure_at(error), errors), None),
    }
}

/// Serves a file of sessions that was opened, and not read yet, as `serve` does. If it was not opened, nothing is written to the
/// output, and one line says why: want of memory, or that it can't be opened.
pub fn serve_opened<T: Threads + Wait + Sync, R: Read, W: Write, E: Write>(
    rt: &T,
    alloc: Global,
    opened: &mut io::Result<Counted<R>>,
    output: &mut Output<W>,
    errors: &mut Output<E>,
    options: Options,
) -> u8
    requires fresh { IfOk opened.old (λ file. (file.calls ≡ 0) × (file.has_failed ≡ false)) }
    requires sound { (output.old.failure ≡ None) × (errors.old.failure ≡ None) }
    requires some { 1 ≤ options.workers }
    requires few { options.workers ≤ MOST_WORKERS }
    ensures served { (end : Result Bool Failure) × (result ≡ status_of end)
        × ServesOpened options.order opened.old opened.new output.old output.new end
        × Reports errors.old errors.new end }
{
    serve_opened_and_keep(rt, alloc, opened, output, errors, options).0
}
