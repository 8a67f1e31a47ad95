//! Why the program ends without a whole recording, and the line that says so.

ghost use Rattle.std.specs.Prelude.{◌≡◌, ◌++◌, None, IfErr, OnOk};
ghost use Rattle.pz_lines.specs.Writing.{HasWritten};
ghost use Rattle.pz_console.specs.Failures.{IsCut, IsReported, file_line, failure_line};
ghost use Rattle.pz_console.specs.declared.failure.Failure.TheVariants.{Memory};

use itoa::Buffer;
use pz_entries::fault::FileFault;
use pz_lines::fault::WriteFault;
use pz_lines::output::Output;
use std::alloc::AllocError;
use std::io::Write;

/// Why there is no whole recording: memory or a thread was refused, the command line is bad, FILE can't be opened, a read failed, the
/// file of sessions has a fault, a worker's lane was lost, or the writing ended before the last byte.
#[derive(Clone, Copy, Debug, PartialEq, Eq)]
pub enum Failure {
    Memory,
    BadLine,
    OpenFault,
    ReadFault,
    File(FileFault),
    LaneLost,
    WriteFault(WriteFault),
}

impl From<AllocError> for Failure {
    ghost from_gives = { λ _ failure. failure ≡ Memory };

    fn from(_: AllocError) -> Failure {
        Failure::Memory
    }
}

/// Writes the parts of a line.
fn write_parts<E: Write>(
    first: &str,
    second: &str,
    third: &str,
    errors: &mut Output<E>,
) -> Result<(), WriteFault>
    requires { errors.old.failure ≡ None }
    ensures whole { OnOk result (HasWritten (first.now ++ second.now ++ third.now) errors.old errors.new) }
    ensures cut { IfErr result (λ _. IsCut (first.now ++ second.now ++ third.now) errors.old errors.new) }
{
    errors.write_whole(first.as_bytes())?;
    errors.write_whole(second.as_bytes())?;
    errors.write_whole(third.as_bytes())
}

/// Writes the line of a fault of the file.
fn report_file<E: Write>(fault: FileFault, errors: &mut Output<E>) -> Result<(), WriteFault>
    requires { errors.old.failure ≡ None }
    ensures whole { OnOk result (HasWritten (file_line fault) errors.old errors.new) }
    ensures cut { IfErr result (λ _. IsCut (file_line fault) errors.old errors.new) }
{
    let mut digits = Buffer::new();
    match fault {
        FileFault::Memory => write_parts("memory", "", "\n", errors),
        FileFault::NotJson => write_parts("not-json", "", "\n", errors),
        FileFault::BadEntry(number) => write_parts(
            "bad-entry ",
            digits.format(number),
            "\n",
            errors,
        ),
        FileFault::BadLevel(number) => write_parts(
            "bad-level ",
            digits.format(number),
            "\n",
            errors,
        ),
        FileFault::TooMany => write_parts("too-many", "", "\n", errors),
    }
}

/// Writes the line of a failure. If that writer fails too, the line ends early, and the answer is that fault.
fn report<E: Write>(failure: Failure, errors: &mut Output<E>) -> Result<(), WriteFault>
    requires { errors.old.failure ≡ None }
    ensures whole { OnOk result (HasWritten (failure_line failure) errors.old errors.new) }
    ensures cut { IfErr result (λ _. IsCut (failure_line failure) errors.old errors.new) }
{
    let mut digits = Buffer::new();
    match failure {
        Failure::Memory => write_parts("memory", "", "\n", errors),
        Failure::BadLine => write_parts("bad command line", "", "\n", errors),
        Failure::OpenFault => write_parts("open-fault", "", "\n", errors),
        Failure::ReadFault => write_parts("read-fault", "", "\n", errors),
        Failure::File(fault) => report_file(fault, errors),
        Failure::LaneLost => write_parts("lane-lost", "", "\n", errors),
        Failure::WriteFault(fault) => write_parts(
            "write-fault ",
            digits.format(fault.written),
            "\n",
            errors,
        ),
    }
}

/// Ends with the line of a failure: the status is 2. Rule `program.failures`.
pub fn fail_with<E: Write>(failure: Failure, errors: &mut Output<E>) -> u8
    requires { errors.old.failure ≡ None }
    ensures status { result ≡ 2 }
    ensures line { IsReported (failure_line failure) errors.old errors.new }
{
    let _ = report(failure, errors);
    2
}
