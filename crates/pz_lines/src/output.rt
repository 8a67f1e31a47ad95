//! A writer that remembers its failure.

ghost use Rattle.std.specs.Prelude.{◌≡◌, ◌≤◌, ◌<◌, None, [], length, take, IfErr, IfOk, OnOk};
ghost use Rattle.pz_lines.specs.Writing.{HasFailed, HasWritten, write_answer};

use crate::fault::{Cause, WriteFault};
use std::io::{self, Write};
use std::marker::Model;

/// How many bytes a write took, or why it failed.
fn taken(answer: io::Result<usize>) -> Result<usize, Cause>
    ensures { result ≡ write_answer answer }
{
    match answer {
        Ok(0) => Err(Cause::Zero),
        Ok(count) => Ok(count),
        Err(_) => Err(Cause::Device),
    }
}

/// A writer, and why a write of some bytes failed, if one did. Only `write` calls it, since no other module sees it.
#[derive(Drop)]
pub struct Output<W: Write> {
    writer: W,
    failure: Option<Cause>,
}

impl<W: Write> Model for Output<W> {
    ghost use Rattle.pz_lines.specs.Writing.{Writes};

    ghost Value = { Writes };

    ghost view = { λ o. record { contents = W.contents o.writer; failure = o.failure } };
}

impl<W: Write> Output<W> {
    /// A writer that has not failed.
    pub fn new(writer: W) -> Output<W>
        ensures { result ≡ record { contents = W.contents writer; failure = None } }
    {
        Output {
            writer,
            failure: None,
        }
    }

    /// The writer again.
    pub fn into_writer(self) -> W
    where
        W: Drop,
        ensures { W.contents result ≡ self.contents }
    {
        let Output { writer, .. } = self;
        writer
    }

    /// Hands bytes to the writer once, and says how many it took: at least one. A writer that has failed is not called again.
    fn write(&mut self, bytes: &[u8]) -> Result<usize, Cause>
        requires sound { self.old.failure ≡ None }
        requires some { 1 ≤ length bytes.now }
        ensures some { IfOk result (λ count. (1 ≤ count) × (count ≤ length bytes.now)) }
        ensures written { IfOk result (λ count. HasWritten (take count bytes.now) self.old self.new) }
        ensures failed { IfErr result (λ cause. HasFailed cause [] self.old self.new) }
    {
        let answer = taken(self.writer.write(bytes));
        if let Err(cause) = answer {
            self.failure = Some(cause);
        }
        answer
    }

    /// Writes all bytes, or those before a write that fails. After that nothing more is written. Each write is handed all that is
    /// left.
    pub fn write_whole(&mut self, bytes: &[u8]) -> Result<(), WriteFault>
        requires { self.old.failure ≡ None }
        ensures ok { OnOk result (HasWritten bytes.now self.old self.new) }
        ensures within { IfErr result (λ fault. fault.written < length bytes.now) }
        ensures err { IfErr result (λ fault. HasFailed fault.cause (take fault.written bytes.now) self.old self.new) }
    {
        let mut at = 0;
        while at < bytes.len() {
            match self.write(&bytes[at..]) {
                Ok(count) => at += count,
                Err(cause) => {
                    let written = at as u64;
                    return Err(WriteFault { written, cause });
                }
            }
        }
        Ok(())
    }
}
