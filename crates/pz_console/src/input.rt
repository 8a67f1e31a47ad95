//! The reading of a file.

ghost use Rattle.std.specs.Prelude.{◌≡◌, ◌≤◌, ◌<◌, ◌+◌, ◌↔◌, true, false, Err, IfOk, IfErr, IfSome, length};

use crate::counted::Counted;
use pz_entries::file::MOST_BYTES;
use std::alloc::Global;
use std::io::Read;

/// Why the input was not read.
#[derive(Clone, Copy, Debug, PartialEq, Eq)]
pub enum InputFault {
    Memory,
    Device,
    TooLong,
}

/// One byte more than an input may have.
const MOST: usize = MOST_BYTES + 1;

/// Reads to the end, or to one byte past the longest input. A read that answers an error ends it at once.
pub fn read_input<R: Read>(alloc: Global, input: &mut Counted<R>) -> Result<Vec<u8>, InputFault>
    requires fresh { (input.old.calls ≡ 0) × (input.old.has_failed ≡ false) }
    ensures whole { IfOk result (λ bytes. IfSome input.old.remaining (λ all. bytes.items ≡ all)) }
    ensures size { IfOk result (λ bytes. length bytes.items ≤ MOST_BYTES) }
    ensures called { input.new.calls ≤ MOST_BYTES + 1 }
    ensures failed { (result ≡ Err InputFault.Device) ↔ (input.new.has_failed ≡ true) }
    ensures long { IfErr result
        (λ fault. fault ≡ InputFault.TooLong → IfSome input.old.remaining (λ all. MOST_BYTES < length all)) }
{
    let mut bytes = Vec::new(alloc);
    let mut buffer = [0u8; 4096];
    for _turn in 0..MOST {
        let room = (MOST - bytes.len()).min(4096);
        let Ok(count) = input.read(&mut buffer[..room]) else {
            return Err(InputFault::Device);
        };
        if count == 0 {
            return Ok(bytes);
        }
        if bytes.extend_from_slice(&buffer[..count]).is_err() {
            return Err(InputFault::Memory);
        }
        if bytes.len() == MOST {
            return Err(InputFault::TooLong);
        }
    }
    Err(InputFault::TooLong)
}
