//! Why a file of sessions is refused.

ghost use Rattle.std.specs.Prelude.{◌≡◌};
ghost use Rattle.pz_entries.specs.declared.fault.FileFault.TheVariants.{Memory};

use std::alloc::{AllocError, AllocFailed};

/// The first fault of a file of sessions: it is no JSON list, an entry is bad, the level text of an entry is bad, or the file has
/// more than 16,777,216 bytes or more than 65,536 entries. Entries are numbered from 0. `Memory` may come in place of any.
#[derive(Clone, Copy, Debug, PartialEq, Eq)]
pub enum FileFault {
    Memory,
    NotJson,
    BadEntry(u64),
    BadLevel(u64),
    TooMany,
}

impl From<AllocError> for FileFault {
    ghost from_gives = { λ _ fault. fault ≡ Memory };

    fn from(_: AllocError) -> FileFault {
        FileFault::Memory
    }
}

impl<T: Drop> From<AllocFailed<T>> for FileFault {
    ghost from_gives = { λ _ fault. fault ≡ Memory };

    fn from(_: AllocFailed<T>) -> FileFault {
        FileFault::Memory
    }
}
