//! The stages of a session of a file.

ghost use Rattle.std.specs.Prelude.{◌≡◌, ◌≢◌, IfOk, IfErr, Err, Some, slice_get};
ghost use Rattle.pz_entries.specs.declared.fault.FileFault.TheVariants as fault;
ghost use Rattle.pz_engine.specs.Sessions.{sessions_in};
ghost use Rattle.pz_stages.specs.File.{AreStagesOf, case_lines};

use crate::course::input_lines;
use crate::detail::Detail;
use pz_case::case::Case;
use pz_case::job::Job;
use pz_engine::sessions::decode;
use pz_entries::fault::FileFault;
use pz_job::job::prepare;
use pz_record::order::Order;
use pz_steps::Steps;
use std::alloc::{AllocError, Global};

/// The lines of an input of a case.
fn case_lines(
    alloc: Global,
    case: &Case,
    detail: Detail,
    number: usize,
) -> Result<Vec<u8>, AllocError>
    ensures { IfOk result (λ lines. lines.items ≡ case_lines detail number (Some case.now)) }
{
    match &case.plan {
        Ok(plan) => input_lines(
            alloc,
            Steps::at(alloc, plan, number)?,
            detail,
            number as u64,
        ),
        Err(_) => Ok(Vec::new(alloc)),
    }
}

/// The lines of an input of a session of a job.
fn job_lines(
    alloc: Global,
    job: &Job,
    detail: Detail,
    session: usize,
    number: usize,
) -> Result<Vec<u8>, AllocError>
    ensures { IfOk result (λ lines. lines.items ≡ case_lines detail number (slice_get job.now session)) }
{
    if session < job.len() {
        case_lines(alloc, job.case(session), detail, number)
    } else {
        Ok(Vec::new(alloc))
    }
}

/// The lines of the stages of an input of a session, by the number of the session in the file, from 0, and that of the input, from 1; 0
/// is the session's start; with the firings of their instances, if they are asked for. The cells of each level come in this order. There are none of a session that isn't there, is refused, or
/// stopped before. Err: the file's first fault, or `Memory` if memory was refused.
pub fn stages(
    alloc: Global,
    bytes: &[u8],
    order: Order,
    detail: Detail,
    session: usize,
    number: usize,
) -> Result<Vec<u8>, FileFault>
    ensures told { IfOk result (λ lines. AreStagesOf detail order bytes.now session number lines.items) }
    ensures refused { IfErr result (λ cause. cause ≢ fault.Memory → sessions_in bytes.now ≡ Err cause) }
{
    let entries = decode(alloc, bytes)?;
    let job = prepare(alloc, entries, order)?;
    Ok(job_lines(alloc, &job, detail, session, number)?)
}
