//! Plays cases. The run of a case gives its items one by one: the frames that the session shows, then its close.
#![tactic(auto)]

pub mod board;
pub mod chain;
mod labelled;
pub mod laws;
mod level_texts;
mod place;
mod player;
pub mod run;
mod stage;
pub mod standing;
mod tape;
mod turn;

pub use level_texts::{equals, level_text};
pub use pz_base::listed::Listed;
pub use pz_base::text::Text;
pub use pz_case::case::Case;
pub use pz_case::item::{FrameKind, Item, Refusal, Stop, Verdict};
pub use pz_case::job::Job;
pub use pz_case::plan::Plan;
pub use pz_entries::entry::Entry;
pub use pz_entries::fault::FileFault;
pub use pz_entries::file::read_sessions;
pub use pz_entries::reading::read_level_text;
pub use pz_job::job::{prepare, prepare_with};
pub use pz_json_text::quoted::QuotedText;
pub use pz_record::input::{Input, Inputs};
pub use pz_record::order::Order;
pub use pz_record::recorded::Recorded;
pub use run::{Run, frames};
