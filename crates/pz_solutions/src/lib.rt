//! What wins a session from where it stands, and the lines that tell it.
#![tactic(auto)]

mod file;
mod line;
mod solution;

pub use file::{job_of_file, session_line, solutions};
pub use line::solution_line;
pub use solution::{Solution, solution_at, solution_of};
