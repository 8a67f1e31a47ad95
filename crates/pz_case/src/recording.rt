//! What a job's sessions showed.

ghost use Rattle.std.specs.Prelude.{◌≡◌};

use crate::item::Item;
use pz_base::listed::Listed;
use pz_base::text::Text;
use std::marker::Model;

/// What one session showed: its name and its items, the close among them.
pub struct Record {
    pub name: Text,
    pub items: Listed<Item>,
}

/// Written out, so that dropping one is a single call everywhere.
impl Drop for Record {
    fn drop(self) {
        let Record { name, items } = self;
        drop(name);
        drop(items);
    }
}

/// What every session of a job showed, by session number.
#[derive(Drop)]
pub struct Recording {
    records: Vec<Record>,
}

impl Model for Recording {
    ghost use Rattle.std.specs.Prelude.{List};
    ghost use Rattle.pz_case.specs.declared.recording.Record.{Record};

    ghost Value = { List Record };

    ghost view = { λ recording. recording.records.items };
}

impl Recording {
    pub fn new(records: Vec<Record>) -> Recording
        ensures { result ≡ records.items }
    {
        Recording { records }
    }

    /// The records, by session number.
    pub fn records(&self) -> &[Record]
        ensures { result.now ≡ self.now }
    {
        self.records.as_slice()
    }
}
