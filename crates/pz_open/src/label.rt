//! What the lines of a session tell of it.

ghost use Rattle.std.specs.Prelude.{◌≡◌, IfOk, flat_map};
ghost use Rattle.pz_lines.specs.Lines.{item_line};

use pz_base::text::Text;
use pz_case::item::Item;
use pz_lines::line::write_item;
use std::alloc::{AllocError, Global};

/// The number and the name of a session.
#[derive(Drop)]
pub struct Label {
    pub number: u64,
    pub name: Text,
}

impl Label {
    /// A copy. Err: memory was refused.
    pub fn copy(&self, alloc: Global) -> Result<Label, AllocError>
        ensures { IfOk result (λ label. label ≡ self.now) }
    {
        Ok(Label {
            number: self.number,
            name: Text::of_str(alloc, self.name.as_str())?,
        })
    }

    /// The lines of items of the session. Its close tells how many frames there are. Err: memory was refused.
    pub fn lines(&self, alloc: Global, frames: u64, items: &[Item]) -> Result<Vec<u8>, AllocError>
        ensures { IfOk result (λ lines. lines.items ≡
            flat_map (item_line self.now.number self.now.name frames) items.now) }
    {
        let mut lines = Vec::new(alloc);
        for item in items {
            let name = self.name.as_str();
            lines = write_item(alloc, lines, self.number, name, frames, item)?;
        }
        Ok(lines)
    }
}
