//! Traces: the stages of a step, with the level after each; the lines of the source that a block comes from; and the firings of its
//! instances.
#![tactic(auto)]

mod block_play;
pub mod firing;
mod firing_instance;
pub mod firings;
pub mod laws;
mod play;
pub mod source_lines;
pub mod stage;
pub mod tracing;

pub use firing::{Firing, Moment};
pub use firings::Firings;
pub use source_lines::lines_of;
pub use stage::{Part, Stage};
pub use tracing::Tracing;
