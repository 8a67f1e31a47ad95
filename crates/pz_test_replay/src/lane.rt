//! The lane of a worker.

ghost use Rattle.std.specs.Prelude.{◌≡◌};

use pz_replay::{End, Message, Taker, lane};
use std::test::Fail;

/// How a worker ended, as its last message says.
fn end_in(message: Message) -> Option<End> {
    match message {
        Message::Last(end) => Some(end),
        Message::Piece(_, _) => None,
    }
}

/// How a worker ended, if a last message is there.
fn take_end(taker: &mut Taker) -> Option<End>
    ensures { taker.new.lane ≡ taker.old.lane }
{
    end_in(taker.try_take()?)
}

/// The message that comes back if a lane is full.
fn come_back(sent: Result<(), Message>) -> Option<End> {
    end_in(sent.err()?)
}

#[test]
fn holds_one_message_at_once(rt: HostRuntime) -> Result<(), Fail> {
    let (mut sender, mut taker) = lane(rt.alloc(), 1)?;
    let sends_first = sender.try_send(Message::Last(End::Memory)).is_ok();
    let comes_back = come_back(sender.try_send(Message::Last(End::Finished)));
    let first = take_end(&mut taker);
    let sends_again = sender.try_send(Message::Last(End::Finished)).is_ok();
    let mut all = sender.finish().ok_or("the taker is there")?;
    let one_left = taker.left(&mut all);
    let second = take_end(&mut taker);
    let none_left = taker.left(&mut all);
    let third = take_end(&mut taker);
    assert_eq!(rt;
        (
            sends_first,
            comes_back,
            first,
            sends_again,
            one_left,
            second,
            none_left,
            third
        ),
        (
            true,
            Some(End::Finished),
            Some(End::Memory),
            true,
            1,
            Some(End::Finished),
            0,
            None
        )
    );
    Ok(())
}
