//! A lane of messages from one worker to the recorder: a ring whose two ends need no lock, no waiting and no memory.

ghost use Rattle.std.specs.Prelude.{◌≡◌, ◌<◌, ◌≤◌, [], ◌∷◌, ◌++◌, length, IfOk, IfErr, IfSome, IfNone, OnOk, IsOk, IsSome};
ghost use mathlib.Core.List.{IsPrefix};

use rtrb::{Consumer, Finished, Producer, PushError, RingBuffer};
use std::alloc::{AllocError, Global};
use std::marker::Model;

/// Why a worker ended.
#[derive(Clone, Copy, Debug, PartialEq, Eq)]
pub enum End {
    /// No session was left to claim.
    Finished,
    /// There was no memory to play a session.
    Memory,
    /// The gate didn't let an item pass.
    GateClosed,
}

/// What a worker sends.
#[derive(Drop)]
pub enum Message<T> {
    /// The next piece of the session of this number.
    Piece(usize, T),
    /// The last message of a lane.
    Last(End),
}

/// The end that sends.
#[derive(Drop)]
pub struct Sender<T> {
    producer: Producer<Message<T>>,
}

impl<T> Model for Sender<T> {
    ghost use Rattle.pz_crew.specs.Lane.{Sends};
    ghost use Rattle.std.specs.Prelude.{length, ◌≤◌, ◌+◌};
    ghost use Rattle.rtrb.specs.Ring.{sent, known_free, producer_capacity};

    ghost Value = { Sends T };

    ghost view = { λ s. record {
      lane = record { words = s.producer.end.words; slots = s.producer.end.slots; names = s.producer.end.names };
      capacity = producer_capacity s.producer;
      sent = sent s.producer;
    } };

    ghost invariant = { λ s. producer_capacity s.producer ≤ known_free s.producer + length (sent s.producer) };
}

/// The end that takes.
#[derive(Drop)]
pub struct Taker<T> {
    consumer: Consumer<Message<T>>,
}

impl<T> Model for Taker<T> {
    ghost use Rattle.pz_crew.specs.Lane.{Takes};
    ghost use Rattle.rtrb.specs.Ring.{received, known_items};

    ghost Value = { Takes T };

    ghost view = { λ t. record {
      lane = record { words = t.consumer.end.words; slots = t.consumer.end.slots; names = t.consumer.end.names };
      taken = received t.consumer;
      known = known_items t.consumer;
    } };
}

/// Names all that was sent on a lane.
#[derive(Drop)]
pub struct SentAll<T> {
    finished: Finished<Message<T>>,
}

impl<T> Model for SentAll<T> {
    ghost use Rattle.pz_crew.specs.Lane.{All};
    ghost use Rattle.rtrb.specs.Ring.{all_sent};

    ghost Value = { All T };

    ghost view = { λ a. record {
      lane = record { words = a.finished.end.words; slots = a.finished.end.slots; names = a.finished.end.names };
      sent = all_sent a.finished;
    } };
}

/// The two ends of a new lane, which holds this many messages at once.
pub fn lane<T: Drop>(alloc: Global, capacity: usize) -> Result<(Sender<T>, Taker<T>), AllocError>
    requires { 1 ≤ capacity }
    ensures sender { IfOk result (λ ends. (ends.0.sent ≡ []) × (ends.0.capacity ≡ capacity)) }
    ensures taker { IfOk result (λ ends. (ends.1.lane ≡ ends.0.lane) × (ends.1.taken ≡ []) × (ends.1.known ≡ [])) }
{
    let (producer, consumer) = RingBuffer::new(alloc, capacity)?;
    Ok((Sender { producer }, Taker { consumer }))
}

impl<T: Drop> Sender<T> {
    /// Sends a message, or hands it back if the lane is full.
    pub fn try_send(&mut self, message: Message<T>) -> Result<(), Message<T>>
        ensures sent { OnOk result (self.new ≡ record self.old { sent = self.old.sent ++ message ∷ [] }) }
        ensures full { IfErr result (λ back. (back ≡ message) × (self.new ≡ self.old)) }
        ensures room { length self.old.sent < self.old.capacity → IsOk result }
    {
        match self.producer.push(message) {
            Ok(()) => Ok(()),
            Err(PushError::Full(back)) => Err(back),
        }
    }

    /// Ends the sending. The token names all that was sent. There is none if the other end is gone.
    pub fn finish(self) -> Option<SentAll<T>>
        ensures { IfSome result (λ all. all ≡ record { lane = self.lane; sent = self.sent }) }
    {
        let Sender { producer } = self;
        let finished = producer.finish()?;
        Some(SentAll { finished })
    }
}

impl<T: Drop> Taker<T> {
    /// Takes the next message, if one is there.
    pub fn try_take(&mut self) -> Option<Message<T>>
        ensures taken { IfSome result
            (λ message. (self.new.lane ≡ self.old.lane) × (self.new.taken ≡ self.old.taken ++ message ∷ [])) }
        ensures none { IfNone result ((self.new.lane ≡ self.old.lane) × (self.new.taken ≡ self.old.taken)) }
        ensures known { IfSome result (λ message. IsPrefix self.old.known (message ∷ self.new.known)) }
        ensures gives { 0 < length self.old.known → IsSome result }
    {
        self.consumer.pop().ok()
    }

    /// How many messages of all that were sent are not taken yet; each of them is there.
    pub fn left(&mut self, all: &mut SentAll<T>) -> usize
        requires { all.old.lane ≡ self.old.lane }
        ensures taken { (self.new.lane ≡ self.old.lane) × (self.new.taken ≡ self.old.taken) }
        ensures token { all.new ≡ all.old }
        ensures rest { all.old.sent ≡ self.new.taken ++ self.new.known }
        ensures count { result ≡ length self.new.known }
    {
        self.consumer.slots_after(&mut all.finished)
    }

    /// The same where the end that sends is there, which names all that was sent on it.
    pub(crate) fn left_beside(&mut self, sender: &mut Sender<T>) -> usize
        requires { sender.old.lane ≡ self.old.lane }
        ensures taken { (self.new.lane ≡ self.old.lane) × (self.new.taken ≡ self.old.taken) }
        ensures rest { sender.old.sent ≡ self.new.taken ++ self.new.known }
        ensures count { result ≡ length self.new.known }
    {
        self.consumer.slots_beside(&mut sender.producer)
    }
}
