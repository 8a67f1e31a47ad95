//! The numbers of a level's cells in an order, from 0.

ghost use Rattle.std.specs.Prelude.{◌≡◌, ◌*◌, ◌<◌};
ghost use Rattle.pz_level_text.specs.CellOrder.{column_of, row_of, number_of};

use pz_bare::BareLevel;
use pz_record::order::Order;

/// The column and the row of the cell of this number. Rule `texts.order`.
pub(crate) fn position(order: Order, level: &BareLevel, number: u32) -> (u32, u32)
    requires { number < level.now.grid.width * level.now.grid.height }
    ensures column { result.0 ≡ column_of order level.now.grid number }
    ensures row { result.1 ≡ row_of order level.now.grid number }
{
    match order {
        Order::Rows => (number % level.width(), number / level.width()),
        Order::Columns => (number / level.height(), number % level.height()),
    }
}

/// The number of the cell at a position of the map.
pub(crate) fn number_at(order: Order, level: &BareLevel, x: u32, y: u32) -> usize
    requires x_in { x < level.now.grid.width }
    requires y_in { y < level.now.grid.height }
    ensures { result ≡ number_of order level.now.grid x y }
{
    match order {
        Order::Rows => y as usize * level.width() as usize + x as usize,
        Order::Columns => x as usize * level.height() as usize + y as usize,
    }
}
