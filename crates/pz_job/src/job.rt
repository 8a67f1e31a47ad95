//! The job that a list of entries makes.

ghost use Rattle.std.specs.Prelude.{◌≡◌, ◌≤◌, length, IfOk};
ghost use Rattle.pz_job.specs.Job.{plan_from, case_of, job_of};
ghost use Rattle.pz_job.specs.FaultLines.{NameLines};
ghost use Rattle.pz_job.specs.Rulebooks.{shared_in};

use crate::programs::Programs;
use crate::rulebooks::{Answer, Rulebooks};
use crate::sources::read_sources;
use pz_case::case::Case;
use pz_case::first_level::level_from;
use pz_case::item::Refusal;
use pz_case::job::Job;
use pz_case::plan::Plan;
use pz_entries::entry::Entry;
use pz_record::input::Inputs;
use pz_record::limits::MOST_ENTRIES;
use pz_record::order::Order;
use pz_record::recorded::Recorded;
use std::alloc::{AllocError, Global};
use std::thread::Threads;

/// What is needed to play a session whose source gave this answer, or why it is refused. Rule `play.refused`.
fn make_plan(
    answer: Answer,
    inputs: Inputs,
    recorded: Recorded,
    index: u64,
    order: Order,
) -> Result<Plan, Refusal>
    ensures { result ≡ plan_from (shared_in answer) inputs recorded index order }
{
    let rulebook = answer?;
    let Some(first) = level_from(rulebook.game(), index) else {
        return Err(Refusal::NoLevel);
    };
    Ok(Plan::new(rulebook, first, inputs, recorded, order))
}

/// The case of an entry.
fn make_case(
    rulebooks: &mut Rulebooks,
    programs: &mut Programs,
    alloc: Global,
    entry: Entry,
    order: Order,
) -> Result<Case, AllocError>
    ensures { IfOk result (λ case. case ≡ case_of order entry) }
{
    let Entry {
        name,
        source,
        inputs,
        recorded,
        index,
    } = entry;
    let answer = rulebooks.answer(programs, alloc, source.as_str())?;
    let plan = make_plan(answer, inputs, recorded, index, order);
    Ok(Case { name, plan })
}

/// The cases of the entries, in their order.
fn make_cases(
    rulebooks: &mut Rulebooks,
    programs: &mut Programs,
    alloc: Global,
    entries: Vec<Entry>,
    order: Order,
) -> Result<Vec<Case>, AllocError>
    ensures { IfOk result (λ cases. cases.items ≡ job_of order entries.items) }
{
    let mut cases = Vec::new(alloc);
    for entry in entries {
        let case = make_case(rulebooks, programs, alloc, entry, order)?;
        cases.push(case)?;
    }
    Ok(cases)
}

/// Reads the sources of the entries with so many threads, and expands their rules.
fn read_all<R: Threads + Sync>(
    rt: &R,
    rulebooks: &mut Rulebooks,
    programs: &mut Programs,
    alloc: Global,
    entries: &[Entry],
    workers: usize,
) -> Result<(), AllocError> {
    let sources = read_sources(rt, alloc, entries, workers)?;
    rulebooks.take_over(programs, alloc, sources)
}

/// The job that the entries make, each level's cells in this order: a case for each entry. An entry whose source or rules can't be read, or
/// whose index leaves no level, makes a case that is refused. The fault of a source names one of its lines, or 0. Each source is read once,
/// when its first entry comes, in the calling thread.
pub fn prepare(alloc: Global, entries: Vec<Entry>, order: Order) -> Result<Job, AllocError>
    requires { length entries.items ≤ MOST_ENTRIES }
    ensures job { IfOk result (λ job. job ≡ job_of order entries.items) }
    ensures lined { IfOk result (λ job. NameLines entries.items job) }
{
    let mut rulebooks = Rulebooks::new(alloc);
    let mut programs = Programs::new(alloc);
    let cases = make_cases(&mut rulebooks, &mut programs, alloc, entries, order)?;
    Ok(Job::new(cases))
}

/// The job that `prepare` makes. At most as many threads as there are workers read the sources. They wait for nobody, and the
/// call waits for them.
pub fn prepare_with<R: Threads + Sync>(
    rt: &R,
    alloc: Global,
    entries: Vec<Entry>,
    order: Order,
    workers: usize,
) -> Result<Job, AllocError>
    requires { length entries.items ≤ MOST_ENTRIES }
    ensures job { IfOk result (λ job. job ≡ job_of order entries.items) }
    ensures lined { IfOk result (λ job. NameLines entries.items job) }
{
    let mut rulebooks = Rulebooks::new(alloc);
    let mut programs = Programs::new(alloc);
    read_all(rt, &mut rulebooks, &mut programs, alloc, &entries, workers)?;
    let cases = make_cases(&mut rulebooks, &mut programs, alloc, entries, order)?;
    Ok(Job::new(cases))
}
