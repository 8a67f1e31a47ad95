//! The serving of a command line: from its words and the bytes of a file of sessions to the lines of their recording and an exit
//! status.
#![tactic(auto)]

mod as_lines;
pub mod command_line;
pub mod serving;

pub use command_line::serve_words;
pub use pz_console::counted::Counted;
pub use pz_console::options::{Chosen, Options, OptionsFault, read_options};
pub use pz_lines::output::Output;
pub use serving::{serve, serve_opened};
