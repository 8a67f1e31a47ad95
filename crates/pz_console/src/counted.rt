//! A reader that counts its calls and remembers an error.

ghost use Rattle.std.specs.Prelude.{◌≡◌, ◌+◌, ◌≤◌, ◌||◌, false, is_err};
ghost use Rattle.std.specs.Io.{ReadsAtMost};
ghost use Rattle.std.specs.Io.KnownBytes.{ReadConsumes};

use pz_entries::file::MOST_BYTES;
use std::io::{self, Read};
use std::marker::Model;

/// A reader, how often it was called, and whether a call answered an error. Only `read` calls it, since no other module sees it.
#[derive(Drop)]
pub struct Counted<R: Read> {
    input: R,
    calls: u64,
    has_failed: bool,
}

impl<R: Read> Model for Counted<R> {
    ghost use Rattle.pz_console.specs.Reading.{Reads};

    ghost Value = { Reads };

    ghost view = { λ c. record { remaining = R.remaining c.input; calls = c.calls; has_failed = c.has_failed } };
}

impl<R: Read> Counted<R> {
    /// A reader that was not called yet.
    pub fn new(input: R) -> Counted<R>
        ensures { result ≡ record { remaining = R.remaining input; calls = 0; has_failed = false } }
    {
        Counted {
            input,
            calls: 0,
            has_failed: false,
        }
    }

    /// The reader again.
    pub fn into_reader(self) -> R
    where
        R: Drop,
        ensures { R.remaining result ≡ self.remaining }
    {
        let Counted { input, .. } = self;
        input
    }

    /// Calls the reader once. It may be called once for each byte that a file may have, and once more: 16,777,217 times.
    pub fn read(&mut self, buffer: &mut [u8]) -> io::Result<usize>
        requires { self.old.calls ≤ MOST_BYTES }
        ensures counted { self.new.calls ≡ self.old.calls + 1 }
        ensures failed { self.new.has_failed ≡ (self.old.has_failed || is_err result) }
        ensures bound { ReadsAtMost result buffer.new }
        ensures bytes { ReadConsumes self.old.remaining self.new.remaining result buffer.new }
    {
        self.calls += 1;
        let count = self.input.read(buffer);
        self.has_failed |= count.is_err();
        count
    }
}
