//! A table of numbers, which threads claim.

ghost use Rattle.std.specs.Prelude.{◌≡◌, ◌+◌, ◌<◌, ◌≤◌, [], ◌++◌, IfOk};
ghost use Rattle.pz_claims.specs.Rule.{Once, Apart};
ghost use Rattle.pz_claims.specs.Answers.{IsClaim};
ghost use Rattle.pz_claims.specs.declared.limits.TheConstants.{MOST_NUMBERS, MOST_SEATS};

use crate::maker::Maker;
use crate::rule::{Claiming, Law, Looking, Seating};
use crate::seat::{Ended, Seat};
use crate::view::View;
use atomic_table::Table;
use std::alloc::{AllocError, Global};
use std::marker::Model;

/// A table of numbers, each of which goes to one seat. Threads share it by `&`.
#[derive(Drop)]
pub struct Claims {
    table: Table<(), View, u64, Law, Global>,
    total: u64,
}

impl Model for Claims {
    ghost use Rattle.std.specs.Prelude.{◌≡◌, ◌≤◌};
    ghost use Rattle.pz_claims.specs.Holders.{Numbers};
    ghost use Rattle.pz_claims.specs.declared.limits.TheConstants.{MOST_NUMBERS};

    ghost Value = { Numbers };

    ghost view = { λ c. record { table = c.table.shared.table_id; total = c.total } };

    ghost invariant = { λ c. (c.table.shared.key ≡ c.total) × (c.table.shared.table_id.words ≡ 1) ×
        (c.table.shared.table_id.slots ≡ 0) × (c.total ≤ MOST_NUMBERS) };
}

/// What a claim answers.
#[derive(Drop)]
pub enum Claimed {
    /// The seat, which has this number more.
    Got(Seat, usize),
    /// No number was left: the seat has ended.
    Done(Ended),
}

impl Claims {
    /// A table of the numbers below n, and its maker. This is the only call that takes memory, for the word. Err: it was refused.
    pub fn new(alloc: Global, n: usize) -> Result<(Claims, Maker), AllocError>
        requires { n ≤ MOST_NUMBERS }
        ensures claims { IfOk result (λ r. r.0.total ≡ n) }
        ensures maker { IfOk result (λ r. (r.1.of ≡ r.0) × (r.1.numbers ≡ []) × (r.1.made ≡ 0) × (r.1.joined ≡ 0)) }
    {
        let total = n as u64;
        let (table, token) = Table::of_words(alloc, &[0], &total)?;
        Ok((Claims { table, total }, Maker { token, made: 0 }))
    }

    /// A new seat, without a number. It costs one load of the word, whose answer isn't used. At most `MOST_SEATS` are made at a
    /// table.
    pub fn split(&self, maker: Maker) -> (Maker, Seat)
        requires table { maker.of ≡ self.now }
        requires few { maker.made < MOST_SEATS }
        ensures maker { result.0 ≡ record maker { made = maker.made + 1 } }
        ensures seat { result.1 ≡ record { of = maker.of; numbers = [] } }
    {
        let Maker { mut token, made } = maker;
        let seat = self.table.shared.split_seat::<Seating>(&mut token);
        let maker = Maker {
            token,
            made: made + 1,
        };
        (maker, Seat { token: seat })
    }

    /// The next number, greater than all that the seat had, or the end of the seat. The whole claim is one atomic addition of one
    /// to the word, so any thread may call it at any time, beside any other.
    pub fn claim(&self, seat: Seat) -> Claimed
        requires { seat.of ≡ self.now }
        ensures { IsClaim seat result }
    {
        let Seat { mut token } = seat;
        let found = self.table.shared.fetch_add::<Claiming>(&mut token, 0, 1);
        if found < self.total {
            Claimed::Got(Seat { token }, found as usize)
        } else {
            Claimed::Done(Ended { token })
        }
    }

    /// Takes in a seat that has ended, with its numbers. The maker had none of these. It costs a load of the word and an atomic
    /// addition of 0 to it, by which the rule says that no number stands twice.
    pub fn join(&self, maker: Maker, ended: Ended) -> Maker
        requires maker { maker.of ≡ self.now }
        requires ended { ended.of ≡ self.now }
        ensures joined { result ≡ record maker { numbers = maker.numbers ++ ended.numbers; joined = maker.joined + 1 } }
        ensures apart { Apart maker.numbers ended.numbers }
    {
        let Maker { mut token, made } = self.take_in(maker, ended);
        self.table.shared.fetch_add::<Looking>(&mut token, 0, 0);
        Maker { token, made }
    }

    fn take_in(&self, maker: Maker, ended: Ended) -> Maker
        requires maker { maker.of ≡ self.now }
        requires ended { ended.of ≡ self.now }
        ensures { result ≡ record maker { numbers = maker.numbers ++ ended.numbers; joined = maker.joined + 1 } }
    {
        let Maker { mut token, made } = maker;
        let Ended { token: other } = ended;
        self.table.shared.join_seat::<Seating>(&mut token, other);
        Maker { token, made }
    }

    /// Ends the table once every seat that was made is joined, and answers its word: the number of numbers plus that of seats, or
    /// 0 if no seat was made. If one was, the maker has each number once.
    pub fn close(self, maker: Maker) -> u64
        requires table { maker.of ≡ self }
        requires joined { maker.joined ≡ maker.made }
        ensures none { maker.made ≡ 0 → result ≡ 0 }
        ensures word { 0 < maker.made → result ≡ self.total + maker.made }
        ensures once { 0 < maker.made → Once self.total maker.numbers }
    {
        let Maker { token, made: _ } = maker;
        let Claims { table, total: _ } = self;
        let closed = table.close_with(token);
        let word = closed.word(0);
        closed.free();
        word
    }
}
