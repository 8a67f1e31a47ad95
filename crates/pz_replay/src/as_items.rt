//! A job whose sessions are played by the rules, each in pieces of one item.

use crate::telling::Telling;
use pz_case::item::Item;
use pz_case::job::Job;
use pz_crew::playing::{Playable, Playing};
use pz_session::run::Run;
use std::alloc::{AllocError, Global};

/// How many bytes are asked for at once.
const STEP: usize = 98_304;

/// After how many items of a session that much is asked for again. It is first asked for at the start of the session.
const ITEMS: u64 = 64;

/// Asks for memory and gives it back, so that the C library has it for the items to come. Otherwise that would ask the system for one page
/// after another. If the memory is refused, nothing happens.
fn make_room(alloc: Global) {
    drop(Vec::<u8>::with_capacity(alloc, STEP));
}

/// A run of a session, item by item, and how many items it has given.
#[derive(Drop)]
pub struct ItemRun<'a> {
    alloc: Global,
    run: Run<'a>,
    given: u64,
}

impl Playing for ItemRun<'_> {
    type Piece = Item;

    ghost left = { λ items. items.run.items };

    fn next(&mut self) -> Result<Option<Item>, AllocError> {
        if self.given % ITEMS == 0 {
            make_room(self.alloc);
        }
        self.given = self.given.wrapping_add(1);
        self.run.next()
    }
}

/// A job whose sessions are played item by item.
#[derive(Drop)]
pub struct AsItems<'a> {
    pub job: &'a Job,
}

impl<'a> Playable for AsItems<'a> {
    ghost use Rattle.pz_session.specs.Recording.{sessions as items_by_session};

    type Piece = Item;

    type Run = ItemRun<'a>;

    ghost sessions = { λ played. items_by_session played.job.now };

    fn count(&self) -> usize {
        self.job.len()
    }

    fn begin(&self, alloc: Global, number: usize) -> Result<ItemRun<'a>, AllocError> {
        let run = Run::new(alloc, self.job.case(number))?;
        Ok(ItemRun {
            alloc,
            run,
            given: 0,
        })
    }
}

impl<'a> Telling for AsItems<'a> {
    ghost job = { λ played. played.job.now };

    ghost pieces = { λ _ _ shown. shown.items };

    fn tells(&self) {}
}
