//! The ways to pack numbers.

ghost use Rattle.std.specs.Prelude.{◌≡◌, OnOk, IfOk};
ghost use Rattle.pz_packed.specs.Form.{numbers_of, Fits};

use crate::pairs::Pairs;
use std::alloc::AllocError;

/// Two numbers to a byte, one to a byte, or one to four bytes.
pub(crate) enum Form {
    Pairs(Pairs),
    Bytes(Vec<u8>),
    Words(Vec<u32>),
}

/// Written out, so that each place where one goes out of scope is one call.
impl Drop for Form {
    fn drop(self) {
        match self {
            Form::Pairs(pairs) => drop(pairs),
            Form::Bytes(bytes) => drop(bytes),
            Form::Words(words) => drop(words),
        }
    }
}

impl Form {
    /// Packs all anew if a number doesn't fit. Err: memory was refused.
    pub(crate) fn widen(&mut self, number: u32) -> Result<(), AllocError>
        ensures same { numbers_of self.new ≡ numbers_of self.old }
        ensures fits { OnOk result (Fits self.new number) }
    {
        if number >= 16
            && let Form::Pairs(pairs) = self
        {
            *self = Form::Bytes(pairs.to_bytes()?);
        }
        if number >= 256
            && let Form::Bytes(bytes) = self
        {
            *self = Form::Words(words_from(bytes)?);
        }
        Ok(())
    }
}

/// Four bytes for each byte. Err: memory was refused.
fn words_from(bytes: &Vec<u8>) -> Result<Vec<u32>, AllocError>
    ensures { IfOk result (λ words. words.items ≡ bytes.now.items) }
{
    let mut words = Vec::with_capacity(*bytes.allocator(), bytes.len())?;
    for byte in bytes {
        words.push(u32::from(*byte))?;
    }
    Ok(words)
}
