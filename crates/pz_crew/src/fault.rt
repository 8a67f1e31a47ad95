//! Why there is no recording.

use thiserror::Error;

/// Why there is no recording. If workers hand back several faults, the first in this order is answered.
#[derive(Clone, Copy, Debug, PartialEq, Eq, Error)]
pub enum ReplayFault {
    /// There was no memory, or a worker's thread could not be started.
    #[error("no memory was left to replay the sessions")]
    Memory,
    /// The number of workers is not from 1 to 64.
    #[error("the number of workers is not from 1 to 64")]
    Workers,
    /// The gate didn't let an item pass.
    #[error("the gate let an item not pass")]
    GateClosed,
    /// A worker could not say what it sent.
    #[error("a lane from a worker was lost")]
    LaneLost,
}
