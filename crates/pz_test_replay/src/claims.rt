//! The claim table of a job, by its public calls.

use pz_replay::{Claimed, Claims};
use std::test::Fail;

#[test]
fn shares_three_numbers_by_two_seats(rt: HostRuntime) -> Result<(), Fail> {
    let (claims, maker) = Claims::new(rt.alloc(), 3)?;
    let (maker, a) = claims.split(maker);
    let (maker, b) = claims.split(maker);
    let Claimed::Got(a, first) = claims.claim(a) else {
        panic!(rt; "a number is left")
    };
    let Claimed::Got(b, second) = claims.claim(b) else {
        panic!(rt; "a number is left")
    };
    let Claimed::Got(a, third) = claims.claim(a) else {
        panic!(rt; "a number is left")
    };
    let Claimed::Done(b) = claims.claim(b) else {
        panic!(rt; "no number is left")
    };
    let Claimed::Done(a) = claims.claim(a) else {
        panic!(rt; "no number is left")
    };
    let maker = claims.join(maker, a);
    let maker = claims.join(maker, b);
    let made = maker.made();
    assert_eq!(rt;
        (first, second, third, made, claims.close(maker)),
        (0, 1, 2, 2, 5)
    );
    Ok(())
}

#[test]
fn ends_a_seat_at_once_where_there_is_no_number(rt: HostRuntime) -> Result<(), Fail> {
    let (claims, maker) = Claims::new(rt.alloc(), 0)?;
    let (maker, seat) = claims.split(maker);
    let Claimed::Done(ended) = claims.claim(seat) else {
        panic!(rt; "there is no number")
    };
    let maker = claims.join(maker, ended);
    assert_eq!(rt; claims.close(maker), 1);
    Ok(())
}
