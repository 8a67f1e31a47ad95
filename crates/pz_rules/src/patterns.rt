//! The patterns that were made: equal ones share their contents.

ghost use Rattle.std.specs.Prelude.{◌≡◌, ◌↔◌, [], true, IfOk, IfSome};

use pz_game::pattern::{Item, Pattern};
use pz_instances::hashes::{item_hash, spread};
use std::alloc::{AllocError, Global};
use std::mem::replace;

/// How many drawers there are: a pattern is looked for in one of them only.
const DRAWERS: u64 = 1_024;

/// How many patterns a drawer keeps. Any other that falls into it is made each time.
const ROOM: usize = 8;

/// The number of the drawer in which a pattern of these items is looked for.
fn drawer_number(items: &[Item]) -> usize {
    let hash = items
        .iter()
        .fold(0, |hash, item| spread(hash ^ item_hash(item)));
    (hash % DRAWERS) as usize
}

/// Whether a pattern has these items, in this order.
fn has_items(pattern: &Pattern, items: &[Item]) -> bool
    ensures { (result ≡ true) ↔ (pattern.now ≡ items.now) }
{
    pattern.items() == items
}

/// The first patterns that fall into one drawer.
#[derive(Drop)]
struct Drawer {
    patterns: Vec<Pattern>,
}

impl Drawer {
    fn new(alloc: Global) -> Drawer {
        Drawer {
            patterns: Vec::new(alloc),
        }
    }

    /// The pattern of these items, if it is kept here.
    fn find(&self, items: &[Item]) -> Option<&Pattern>
        ensures { IfSome result (λ pattern. pattern.now ≡ items.now) }
    {
        for pattern in self.patterns.iter() {
            if has_items(pattern, items) {
                return Some(pattern);
            }
        }
        None
    }

    /// Keeps a pattern, if there is room.
    fn keep(&mut self, pattern: &Pattern) -> Result<(), AllocError> {
        if self.patterns.len() < ROOM {
            self.patterns.push(pattern.share()?)?;
        }
        Ok(())
    }
}

/// A table of the patterns that were made. It saves memory and decides nothing: a pattern is compared before it is shared. If the
/// pattern was already there, the room of its items is kept for the next ones.
#[derive(Drop)]
pub struct Patterns {
    alloc: Global,
    drawers: Vec<Drawer>,
    room: Vec<Item>,
}

impl Patterns {
    pub fn new(alloc: Global) -> Result<Patterns, AllocError> {
        let mut drawers = Vec::with_capacity(alloc, DRAWERS as usize)?;
        for _number in 0..DRAWERS {
            drawers.push(Drawer::new(alloc))?;
        }
        Ok(Patterns {
            alloc,
            drawers,
            room: Vec::new(alloc),
        })
    }

    /// Where the patterns and what is made of them are stored.
    pub fn alloc(&self) -> Global {
        self.alloc
    }

    /// An empty list, for the items of the next pattern.
    pub fn take_room(&mut self) -> Vec<Item>
        ensures { result.items ≡ [] }
    {
        let mut room = replace(&mut self.room, Vec::new(self.alloc));
        room.clear();
        room
    }

    /// The pattern of these items, if it was made before.
    fn made_before(&self, items: &[Item]) -> Option<&Pattern>
        ensures { IfSome result (λ pattern. pattern.now ≡ items.now) }
    {
        self.drawers.get(drawer_number(items))?.find(items)
    }

    /// A pattern of these items, which is kept.
    fn make(&mut self, items: Vec<Item>) -> Result<Pattern, AllocError>
        ensures { IfOk result (λ pattern. pattern ≡ items.items) }
    {
        let number = drawer_number(&items);
        let pattern = Pattern::new(self.alloc, items)?;
        if let Some(drawer) = self.drawers.get_mut(number) {
            drawer.keep(&pattern)?;
        }
        Ok(pattern)
    }

    /// The pattern of these items. It shares its contents with an equal one, if one is kept.
    pub fn pattern_of(&mut self, items: Vec<Item>) -> Result<Pattern, AllocError>
        ensures { IfOk result (λ pattern. pattern ≡ items.items) }
    {
        let Some(made) = self.made_before(&items) else {
            return self.make(items);
        };
        let shared = made.share()?;
        self.room = items;
        Ok(shared)
    }
}
