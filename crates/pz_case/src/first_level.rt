//! The first level among the entries of LEVELS.

ghost use Rattle.std.specs.Prelude.{◌≡◌, ◌<◌, ◌+◌, true, length, position, IfSome};
ghost use Rattle.pz_game.specs.Level.{is_playable, entry_at};
ghost use Rattle.pz_case.specs.FirstLevel.{level_from};

use pz_game::game::Game;
use pz_game::level::LevelEntry;

/// How many entries of LEVELS are passed over before the first level.
fn passed_over(levels: &[LevelEntry]) -> Option<usize>
    ensures passed { result ≡ position is_playable levels.now }
{
    levels.iter().position(|entry| entry.playable())
}

/// The first level among the entries of LEVELS from a number on. Rule `play.start`.
#[tactic(auto, unfolding(crate::specs::FirstLevel::level_from))]
pub fn level_from(game: &Game, index: u64) -> Option<usize>
    ensures first { result ≡ level_from game.now index }
    ensures playable { IfSome result (λ first. is_playable (entry_at game.now first) ≡ true) }
    ensures within { IfSome result (λ first. first < length game.now.levels) }
{
    let levels = game.levels();
    if index >= levels.len() as u64 {
        return None;
    }
    let start = index as usize;
    match passed_over(&levels[start..]) {
        Some(passed) => Some(start + passed),
        None => None,
    }
}

/// The first level among the entries of LEVELS after one of them.
pub fn level_after(game: &Game, entry: usize) -> Option<usize>
    requires { entry < length game.now.levels }
    ensures next { result ≡ level_from game.now (entry + 1) }
    ensures playable { IfSome result (λ next. is_playable (entry_at game.now next) ≡ true) }
    ensures within { IfSome result (λ next. next < length game.now.levels) }
{
    // (brings the proof that a game has few levels)
    let _levels = game.levels();
    level_from(game, entry as u64 + 1)
}
