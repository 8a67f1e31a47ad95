//! What wins sessions, for a host.

ghost use Rattle.std.specs.Prelude.{◌≡◌, ◌≢◌, Err, IfErr, IfOk, length};
ghost use Rattle.pz_entries.specs.declared.fault.FileFault.TheVariants as fault;
ghost use Rattle.pz_engine.specs.Sessions.{sessions_in};
ghost use Rattle.pz_export.specs.Lines.{IsRefused};
ghost use Rattle.pz_export.specs.Solutions.{bounded_by, AreSolved, IsSolvedFile};

use crate::lines::tell;
use crate::outcome::{Outcome, REFUSED};
use pz_engine::engine::Played;
use pz_entries::fault::FileFault;
use pz_solutions::solutions;
use pz_solve::Bounds;
use std::alloc::Global;

/// The lines of what a search tells of the sessions of a file. No session of them has to pass.
fn solved(alloc: Global, file: &[u8], bounds: Bounds) -> Result<Played, FileFault>
    ensures solved { IfOk result (AreSolved bounds file.now) }
    ensures refused { IfErr result (λ cause. cause ≢ fault.Memory → sessions_in file.now ≡ Err cause) }
{
    let lines = solutions(alloc, file, bounds)?;
    Ok(Played {
        lines,
        passed: true,
    })
}

/// Solves the level in which each session of a file stands behind its inputs, each over at most so many levels, which take at most so many
/// bytes. The answer is the number of bytes of the lines. If the room has so many, it begins with them.
#[unsafe(no_mangle)]
pub extern "C" fn saxtegun_solutions(
    alloc: Global,
    file: &[u8],
    levels: u32,
    bytes: u32,
    room: &mut [u8],
    outcome: &mut Outcome,
) -> usize
    ensures size { length room.new ≡ length room.old }
    ensures solved { outcome.new.status ≢ REFUSED →
        IsSolvedFile (bounded_by levels bytes) file.now room.old room.new outcome.new result }
    ensures refused { outcome.new.status ≡ REFUSED → IsRefused file.now room.old room.new outcome.new result }
{
    let bounds = Bounds {
        levels: levels as usize,
        bytes: bytes as usize,
    };
    tell(solved(alloc, file, bounds), room, outcome)
}
