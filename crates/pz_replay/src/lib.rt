//! The replay of a job by several workers: its recording has what every session showed, in the order of the sessions. A door of the
//! library: a caller lists this crate beside `pz_session`. What divides the work, whoever plays, stands behind it in `pz_crew`, `pz_claims`
//! and `pz_lines`.
#![tactic(auto)]

mod as_items;
pub mod item_lane;
mod naming;
pub mod replaying;
pub mod telling;

pub use item_lane::{Message, Sender, SentAll, Taker, Worked};
pub use pz_case::recording::{Record, Recording};
pub use pz_claims::{Claimed, Claims, Ended, Maker, Seat};
pub use pz_crew::fault::ReplayFault;
pub use pz_crew::gate::{Always, Gate};
pub use pz_crew::lane::{End, lane};
pub use pz_crew::replaying::MOST_WORKERS;
pub use pz_lines::fault::{Cause, WriteFault};
pub use pz_lines::output::Output;
pub use pz_lines::writing::write_recording;
pub use replaying::{CAPACITY, replay, replay_told, replay_with, work};
pub use telling::Telling;
