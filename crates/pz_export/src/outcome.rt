//! How a call ended, as a host is told it.

ghost use Rattle.std.specs.Prelude.{◌≡◌};
ghost use Rattle.pz_export.specs.Outcome.{SaysPlayed, SaysRefused};

use pz_entries::fault::FileFault;

/// Every session passed.
pub const PASSED: u64 = 0;
/// Some session did not pass.
pub const NOT_PASSED: u64 = 1;
/// The file was refused, or memory was.
pub const REFUSED: u64 = 2;

/// How a call ended: its status, which is the exit status that the program would have. If that is 2, also the kind of the fault,
/// from 1 on, and the number of the entry that has it, if one has.
#[repr(C)]
#[derive(Clone, Copy)]
pub struct Outcome {
    pub status: u64,
    pub fault: u64,
    pub entry: u64,
}

/// What is told of a file that was played.
pub fn played(passed: bool) -> Outcome
    ensures { SaysPlayed passed result }
{
    let status = if passed { PASSED } else { NOT_PASSED };
    Outcome {
        status,
        fault: 0,
        entry: 0,
    }
}

/// What is told of a file that was refused.
pub fn refused(cause: FileFault) -> Outcome
    ensures { SaysRefused cause result }
{
    let (fault, entry) = match cause {
        FileFault::Memory => (1, 0),
        FileFault::NotJson => (2, 0),
        FileFault::BadEntry(entry) => (3, entry),
        FileFault::BadLevel(entry) => (4, entry),
        FileFault::TooMany => (5, 0),
    };
    Outcome {
        status: REFUSED,
        fault,
        entry,
    }
}
