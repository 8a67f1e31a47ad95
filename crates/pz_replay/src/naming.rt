//! The records of a job, from the items of its sessions.

ghost use Rattle.std.specs.Prelude.{◌≡◌, IfOk};
ghost use Rattle.pz_session.specs.Recording.{recording, sessions as items_by_session};

use pz_base::listed::Listed;
use pz_base::text::Text;
use pz_case::item::Item;
use pz_case::job::Job;
use pz_case::recording::{Record, Recording};
use pz_crew::recorder::Sessions;
use std::alloc::{AllocError, Global};

/// The records of a job: the items of each session under the name of its case.
pub(crate) fn named(
    alloc: Global,
    job: &Job,
    sessions: Sessions<Item>,
) -> Result<Recording, AllocError>
    requires { sessions ≡ items_by_session job.now }
    ensures { IfOk result (λ records. records ≡ recording job.now) }
{
    let mut records = Vec::new(alloc);
    for items in sessions.into_pieces() {
        let case = job.case(records.len());
        records.push(Record {
            name: Text::of_str(alloc, case.name.as_str())?,
            items: Listed::new(items),
        })?;
    }
    Ok(Recording::new(records))
}
