//! Compares a level with a recorded one.

ghost use Rattle.std.specs.Prelude.{◌≡◌};
ghost use Rattle.pz_level_text.specs.Equality.{equals_recorded};

use crate::cell_order::position;
use crate::naming::Naming;
use pz_bare::BareLevel;
use pz_game::game::Game;
use pz_record::order::Order;
use pz_record::recorded::Recorded;

/// Whether the level has as many cells as were recorded, and each, in this order, exactly the recorded names. Neither the width nor
/// headings are compared. Rule `texts.equal`.
pub fn equals(game: &Game, level: &BareLevel, recorded: &Recorded, order: Order) -> bool
    ensures { result ≡ equals_recorded game.now order level.now.grid recorded.now }
{
    let cells = level.width() * level.height();
    if recorded.len() != cells as usize {
        return false;
    }
    let mut naming = Naming::new(game.objects(), recorded);
    for number in 0..cells {
        let (x, y) = position(order, level, number);
        if !naming.has(level.objects_at(x, y), number as usize) {
            return false;
        }
    }
    true
}
