//! Tests of a table by its public calls.

ghost use Rattle.std.specs.Prelude.{◌≡◌, ◌≤◌, ◌+◌, IfOk};
ghost use Rattle.std.specs.Thread.{IsSync};
ghost use Rattle.pz_claims.specs.declared.limits.TheConstants.{MOST_NUMBERS};

use crate::{Claimed, Claims, Ended, Seat};
use std::alloc::{AllocError, Global};
use std::sync::Wait;
use std::test::Fail;
use std::thread;
use std::thread::Threads;

#[test]
fn two_seats_share_three_numbers(rt: HostRuntime) -> Result<(), Fail> {
    let (claims, maker) = Claims::new(rt.alloc(), 3)?;
    let (maker, a) = claims.split(maker);
    let (maker, b) = claims.split(maker);
    let Claimed::Got(a, first) = claims.claim(a) else {
        panic!(rt; "a number is left")
    };
    let Claimed::Got(b, second) = claims.claim(b) else {
        panic!(rt; "a number is left")
    };
    let Claimed::Got(a, third) = claims.claim(a) else {
        panic!(rt; "a number is left")
    };
    let Claimed::Done(b) = claims.claim(b) else {
        panic!(rt; "no number is left")
    };
    let Claimed::Done(a) = claims.claim(a) else {
        panic!(rt; "no number is left")
    };
    let maker = claims.join(maker, a);
    let maker = claims.join(maker, b);
    let made = maker.made();
    assert_eq!(rt;
        (first, second, third, made, claims.close(maker)),
        (0, 1, 2, 2, 5)
    );
    Ok(())
}

#[test]
fn no_number_and_no_seat(rt: HostRuntime) -> Result<(), Fail> {
    let (empty, maker) = Claims::new(rt.alloc(), 0)?;
    let (maker, seat) = empty.split(maker);
    let Claimed::Done(ended) = empty.claim(seat) else {
        panic!(rt; "there is no number")
    };
    let maker = empty.join(maker, ended);
    let (unused, its_maker) = Claims::new(rt.alloc(), 9)?;
    assert_eq!(rt; (empty.close(maker), unused.close(its_maker)), (1, 0));
    Ok(())
}

// The seat that has ended, and the numbers that it was told.
type Told = Result<(Ended, Vec<usize>), AllocError>;

fn claim_all(rt: &impl Wait, alloc: Global, claims: &Claims, seat: Seat) -> Told
    requires { seat.of ≡ claims.now }
    ensures { IfOk result (λ told. told.0.of ≡ claims.now) }
{
    let mut numbers = Vec::new(alloc);
    let mut seat = seat;
    for _ in rt.forever() {
        match claims.claim(seat) {
            Claimed::Got(same, number) => {
                numbers.push(number)?;
                seat = same;
            }
            Claimed::Done(ended) => return Ok((ended, numbers)),
        }
    }
    unreachable!()
}

fn by_two<R: Threads + Wait + Sync>(
    rt: &R,
    alloc: Global,
    claims: &Claims,
    a: Seat,
    b: Seat,
) -> (Told, Told)
    requires { (a.of ≡ claims.now) × (b.of ≡ claims.now) }
    ensures { IfOk result.0 (λ told. told.0.of ≡ claims.now) × IfOk result.1 (λ told. told.0.of ≡ claims.now) }
{
    thread::join(
        rt,
        move || -> Told
            requires { a.of ≡ claims.now }
            ensures { IfOk result (λ told. told.0.of ≡ claims.entry.now) }
        { claim_all(rt, alloc, claims, a) },
        move || -> Told
            requires { b.of ≡ claims.now }
            ensures { IfOk result (λ told. told.0.of ≡ claims.entry.now) }
        { claim_all(rt, alloc, claims, b) },
    )
}

// What three threads with a seat each were told, sorted, and then the word.
fn by_three<R: Threads + Wait + Sync>(
    rt: &R,
    alloc: Global,
    n: usize,
) -> Result<Vec<usize>, AllocError>
    requires { n ≤ MOST_NUMBERS }
{
    let (claims, maker) = Claims::new(alloc, n)?;
    let (maker, a) = claims.split(maker);
    let (maker, b) = claims.split(maker);
    let (maker, c) = claims.split(maker);
    let shared = &claims;
    let (a, (b, c)) = thread::join(
        rt,
        move || -> Told
            requires { a.of ≡ shared.now }
            ensures { IfOk result (λ told. told.0.of ≡ shared.entry.now) }
        { claim_all(rt, alloc, shared, a) },
        move || -> (Told, Told)
            requires { IsSync R.row × (b.of ≡ shared.now) × (c.of ≡ shared.now) }
            ensures { IfOk result.0 (λ told. told.0.of ≡ shared.entry.now) ×
                IfOk result.1 (λ told. told.0.of ≡ shared.entry.now) }
        { by_two(rt, alloc, shared, b, c) },
    );
    let (a, mut told) = a?;
    let (b, more) = b?;
    let (c, most) = c?;
    let maker = claims.join(maker, a);
    let maker = claims.join(maker, b);
    let maker = claims.join(maker, c);
    told.extend_from_slice(&more)?;
    told.extend_from_slice(&most)?;
    told.sort()?;
    told.push(claims.close(maker) as usize)?;
    Ok(told)
}

#[test]
fn three_threads_share_a_thousand_numbers(rt: HostRuntime) -> Result<(), Fail> {
    let mut expected = Vec::new(rt.alloc());
    for number in 0..1000 {
        expected.push(number)?;
    }
    expected.push(1003)?;
    assert_eq!(rt; by_three(&rt, rt.alloc(), 1000)?, expected);
    Ok(())
}
