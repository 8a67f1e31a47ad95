//! Where the run of a case stands.

use crate::player::Player;
use pz_case::item::Refusal;

/// What is still to come in the run of a case.
#[derive(Drop)]
pub enum Stage<'a> {
    /// The close of a refused session. `None`: it was handed out.
    Refused(Option<Refusal>),
    /// The items of a session in play.
    Playing(Player<'a>),
    /// Nothing: memory was refused.
    Failed,
}
