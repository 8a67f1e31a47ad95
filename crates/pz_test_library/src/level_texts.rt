//! The text of a level, and that of the level after a move, of which only what changed is looked at.

use crate::levels::{moved, small_game, square_game};
use crate::small_games::loaded;
use pz_game::game::Game;
use pz_json_text::quoted::QuotedText;
use pz_level_text::text_writer::TextWriter;
use pz_record::order::Order;
use std::alloc::Global;
use std::test::Fail;

const BEFORE: &[u8] = b"\"background player:0,background:1,background wall:2,\\n\"";

const AFTER: &[u8] = b"\"background:0,background player:1,background wall:2,\\n\"";

fn texts_in(alloc: Global, game: &Game) -> Result<(QuotedText, QuotedText), Fail> {
    let before = loaded(alloc, game)?;
    let after = moved(alloc, game)?;
    let mut writer = TextWriter::new(alloc, game, Order::Rows);
    let first = writer.write(before.bare())?;
    let second = writer.write_after(before.bare(), after.bare())?;
    Ok((first, second))
}

fn are_written(alloc: Global) -> Result<bool, Fail> {
    let game = small_game(alloc)?;
    let (before, after) = texts_in(alloc, &game)?;
    Ok(before.as_json() == BEFORE && after.as_json() == AFTER)
}

#[test]
fn writes_a_level_after_another(rt: HostRuntime) -> Result<(), Fail> {
    let found = are_written(rt.alloc())?;
    assert_eq!(rt; found, true);
    Ok(())
}

/// The text of a level of three rows; that of the level after its left player moved, in which the upper row gets other numbers, and so do
/// the rows below; and the first again.
fn three_texts_in(alloc: Global, game: &Game, order: Order) -> Result<[QuotedText; 3], Fail> {
    let before = loaded(alloc, game)?;
    let after = moved(alloc, game)?;
    let mut writer = TextWriter::new(alloc, game, order);
    let first = writer.write(before.bare())?;
    let second = writer.write_after(before.bare(), after.bare())?;
    let third = writer.write_after(after.bare(), before.bare())?;
    Ok([first, second, third])
}

fn are_all_written(alloc: Global, order: Order, wanted: [&[u8]; 3]) -> Result<bool, Fail> {
    let game = square_game(alloc)?;
    let texts = three_texts_in(alloc, &game, order)?;
    let [first, second, third] = &texts;
    Ok(
        first.as_json() == wanted[0]
            && second.as_json() == wanted[1]
            && third.as_json() == wanted[2],
    )
}

#[test]
fn writes_rows_after_others(rt: HostRuntime) -> Result<(), Fail> {
    let before =
        b"\"background player:0,background:1,background wall:2,\\n1,1,1,\\n2,1,0,\\n\"".as_slice();
    let after =
        b"\"background:0,background player:1,background wall:2,\\n0,0,0,\\n2,0,1,\\n\"".as_slice();
    let found = are_all_written(rt.alloc(), Order::Rows, [before, after, before])?;
    assert_eq!(rt; found, true);
    Ok(())
}

#[test]
fn writes_columns_after_others(rt: HostRuntime) -> Result<(), Fail> {
    let before =
        b"\"background player:0,background:1,background wall:2,\\n1,1,1,\\n2,1,0,\\n\"".as_slice();
    let after =
        b"\"background:0,0,background wall:1,\\nbackground player:2,0,0,\\n1,0,2,\\n\"".as_slice();
    let found = are_all_written(rt.alloc(), Order::Columns, [before, after, before])?;
    assert_eq!(rt; found, true);
    Ok(())
}
