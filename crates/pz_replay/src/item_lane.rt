//! A lane of items: a ring from a worker to the recorder. What is said of lanes of any pieces is said in `pz_crew`.

use pz_case::item::Item;

/// What a worker sends: the next item of the session of a number, or the last message of its lane.
pub type Message = pz_crew::lane::Message<Item>;

/// The end of a lane that sends.
pub type Sender = pz_crew::lane::Sender<Item>;

/// The end of a lane that takes.
pub type Taker = pz_crew::lane::Taker<Item>;

/// Names all that was sent on a lane.
pub type SentAll = pz_crew::lane::SentAll<Item>;

/// What a worker hands back.
pub type Worked = pz_crew::work::Worked<Item>;
