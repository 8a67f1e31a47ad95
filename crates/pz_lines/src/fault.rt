//! Why a recording was not written whole.

use thiserror::Error;

/// What ended the writing.
#[derive(Clone, Copy, Debug, PartialEq, Eq)]
pub enum Cause {
    /// There was no memory for the lines that were to go out next.
    Memory,
    /// A write answered an error.
    Device,
    /// A write took nothing.
    Zero,
}

/// How an incomplete writing ended: how many bytes of the text went out, and why no more did.
#[derive(Clone, Copy, Debug, PartialEq, Eq, Error)]
#[error("writing ended after {written} bytes")]
pub struct WriteFault {
    pub written: u64,
    pub cause: Cause,
}
