//! The options that a prelude may set.

/// The two options of a game.
#[derive(Clone, Copy)]
pub struct Options {
    pub run_rules_on_level_start: bool,
    pub require_player_movement: bool,
}
