//! What a search tells of the sessions of a file.

ghost use Rattle.std.specs.Prelude.{◌≡◌, ◌≢◌, ◌<◌, Err, IfErr, IfOk, Some, length, slice_get};
ghost use Rattle.pz_case.specs.declared.case.Case.{Case};
ghost use Rattle.pz_entries.specs.declared.fault.FileFault.TheVariants as fault;
ghost use Rattle.pz_engine.specs.Sessions.{sessions_in};
ghost use Rattle.pz_solutions.specs.File.{AreLinesOf, AreSolutionsOf, IsJobOf, IsLineOf};

use crate::line::put_session_line;
use crate::solution::solution_of;
use pz_case::case::Case;
use pz_case::job::Job;
use pz_engine::sessions::decode;
use pz_entries::fault::FileFault;
use pz_job::job::prepare;
use pz_record::order::Order;
use pz_solve::Bounds;
use std::alloc::{AllocError, Global};

/// The job of the sessions that the bytes of a file hold. Err: the file's first fault, or `Memory` if memory was refused.
pub fn job_of_file(alloc: Global, bytes: &[u8]) -> Result<Job, FileFault>
    ensures job { IfOk result (IsJobOf bytes.now) }
    ensures refused { IfErr result (λ cause. cause ≢ fault.Memory → sessions_in bytes.now ≡ Err cause) }
{
    let entries = decode(alloc, bytes)?;
    Ok(prepare(alloc, entries, Order::Columns)?)
}

/// The line of a session. Err: memory was refused.
pub fn session_line(
    alloc: Global,
    number: usize,
    case: &Case,
    bounds: Bounds,
) -> Result<Vec<u8>, AllocError>
    ensures { IfOk result (λ line. IsLineOf bounds number case.now line.items) }
{
    let mut line = Vec::new(alloc);
    let solution = solution_of(alloc, &case.plan, bounds)?;
    put_session_line(&mut line, number as u64, &solution)?;
    Ok(line)
}

/// The lines of the sessions of a job. Err: memory was refused.
fn job_lines(alloc: Global, job: &Job, bounds: Bounds) -> Result<Vec<u8>, AllocError>
    ensures { IfOk result (λ lines. AreLinesOf bounds 0 job.now lines.items) }
{
    let mut lines = Vec::new(alloc);
    for number in 0..job.len() {
        let line = session_line(alloc, number, job.case(number), bounds)?;
        lines.extend_from_slice(&line)?;
    }
    Ok(lines)
}

/// The lines of the sessions that the bytes of a file hold: what a search tells of each from where it stands behind its inputs. Err: the
/// file's first fault, or `Memory` if memory was refused.
pub fn solutions(alloc: Global, bytes: &[u8], bounds: Bounds) -> Result<Vec<u8>, FileFault>
    ensures told { IfOk result (λ lines. AreSolutionsOf bounds bytes.now lines.items) }
    ensures refused { IfErr result (λ cause. cause ≢ fault.Memory → sessions_in bytes.now ≡ Err cause) }
{
    let job = job_of_file(alloc, bytes)?;
    Ok(job_lines(alloc, &job, bounds)?)
}
