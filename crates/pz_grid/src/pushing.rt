//! A press gives its direction to the player.

ghost use Rattle.std.specs.Prelude.{◌≡◌};
ghost use Rattle.pz_game.specs.Game.{players_of};
ghost use Rattle.pz_sheet.specs.Grid.{IsLawful, IsOfGame, SameSize};
ghost use Rattle.pz_grid.specs.Marks.{IsMarked};
ghost use Rattle.pz_sheet.specs.Pushing.{pushed_level};

use crate::Level;
use pz_game::direction::Dir;
use pz_game::game::Game;

/// Gives the direction to each object of the level that is a `Player`. Rule `step.press`.
pub fn push_players(game: &Game, level: &mut Level, dir: Dir)
    requires { IsOfGame game.now level.old.grid }
    ensures pushed { level.new.grid ≡ pushed_level (players_of game.now) dir level.old.grid }
    ensures size { SameSize level.old.grid level.new.grid }
    ensures lawful { IsLawful level.new.grid }
    ensures marked { IsMarked level.new }
    ensures row_marks { level.new.row_marks ≡ level.old.row_marks }
    ensures column_marks { level.new.column_marks ≡ level.old.column_marks }
{
    level.bare.push_all(game.players(), dir);
}
