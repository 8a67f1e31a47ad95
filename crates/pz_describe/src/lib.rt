//! What the engine has read, as JSON: of a source each section line by line, and what it means where the source is a game; of a file its
//! sessions; of a level text its cells.
#![tactic(auto)]

mod cells;
mod describing;
mod distinct;
mod legend;
mod levels;
mod lines;
mod objects;
mod page;
mod prelude;
mod program;
mod reading;
mod recordings;
mod sections;

pub use cells::describe_level;
pub use describing::{describe, outline};
pub use recordings::describe_recordings;
