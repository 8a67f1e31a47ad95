//! Writes the texts of the levels of a game.
#![tactic(auto, unfolding(crate::specs::LevelText::text_of_level))]

ghost use Rattle.std.specs.Prelude.{◌≡◌, ◌<◌, [], IfOk, IfSome, OnOk, string_bytes};
ghost use Rattle.pz_sheet.specs.Grid.{SameSize};
ghost use Rattle.pz_level_text.specs.Labels.{texts_in};
ghost use Rattle.pz_json_text.specs.CellTexts.{text_of_cells};
ghost use Rattle.pz_level_text.specs.LastText.{IsLastOf};
ghost use Rattle.pz_level_text.specs.LevelText.{text_of_level};

use crate::cell_labels::CellLabels;
use crate::last_text::LastText;
use pz_bare::BareLevel;
use pz_game::game::Game;
use pz_json_text::changed::Changed;
use pz_json_text::plain::plain_text;
use pz_json_text::quoted::QuotedText;
use pz_json_text::text_room::TextRoom;
use pz_record::order::Order;
use std::alloc::{AllocError, Global};
use std::marker::Model;

/// Writes the texts of a game's levels, with the cells in an order. It remembers the sets of objects seen so far, the labels of the last
/// level's cells, and its text. So only changed cells are looked at, and parts of the last text are copied. `room` has a text if `last` says
/// which.
pub struct TextWriter<'a> {
    alloc: Global,
    cells: CellLabels<'a>,
    room: TextRoom,
    last: Option<LastText>,
}

/// Written out: where one goes out of scope, the prover then sees one call.
impl Drop for TextWriter<'_> {
    fn drop(self) {
        let TextWriter {
            alloc: _,
            cells,
            room,
            last: _,
        } = self;
        drop(cells);
        drop(room);
    }
}

impl<'a> Model for TextWriter<'a> {
    ghost use Rattle.std.specs.Prelude.{◌≡◌, IfSome};
    ghost use Rattle.pz_level_text.specs.LastText.{IsLastOf};
    ghost use Rattle.pz_level_text.specs.Labels.{WriterView};

    ghost Value = { WriterView };

    ghost view = { λ t. t.cells };

    ghost invariant = { λ t. IfSome t.last (IsLastOf t.cells.cells t.cells.table.texts t.room) };
}

/// Writes the text of cells into the room. After a text of the same width, parts of that one are copied. The text stays in the room:
/// callers get copies, because a recording keeps its texts.
fn fill(
    room: &mut TextRoom,
    last: &mut Option<LastText>,
    cells: &CellLabels<'_>,
    width: u32,
) -> Result<(), AllocError>
    requires wide { 0 < width }
    requires known { IfSome last.old (IsLastOf cells.now.cells cells.now.table.texts room.old) }
    ensures text { OnOk result (room.new.text ≡ text_of_cells width cells.now.cells) }
    ensures known { IfSome last.new (IsLastOf cells.now.cells cells.now.table.texts room.new) }
{
    match last.take() {
        Some(kept) if kept.width == width => {
            room.rewrite(cells.texts(), cells.labels(), width as usize, kept.changed)?
        }
        _ => room.write(cells.texts(), cells.labels(), width as usize)?,
    }
    *last = Some(LastText {
        width,
        changed: Changed::none(),
    });
    Ok(())
}

/// The text of cells, not quoted. No copy of it is kept.
fn plain(alloc: Global, cells: &CellLabels<'_>, width: u32) -> Result<String, AllocError>
    requires { 0 < width }
    ensures { IfOk result (λ text. string_bytes text ≡ text_of_cells width cells.now.cells) }
{
    let text = plain_text(alloc, cells.texts(), cells.labels(), width as usize)?;
    Ok(text)
}

impl<'a> TextWriter<'a> {
    pub fn new(alloc: Global, game: &'a Game, order: Order) -> TextWriter<'a>
        ensures { result ≡ record { table = record { game = game.now; texts = [] }; order = order; cells = [] } }
    {
        TextWriter {
            alloc,
            cells: CellLabels::new(alloc, game, order),
            room: TextRoom::new(alloc),
            last: None,
        }
    }

    /// Labels each cell of a level. Err: memory was refused.
    fn look_at_all(&mut self, level: &BareLevel) -> Result<(), AllocError>
        ensures cells { OnOk result (self.new.cells ≡ texts_in self.old.table.game self.old.order level.now.grid) }
        ensures game { self.new.table.game ≡ self.old.table.game }
        ensures order { self.new.order ≡ self.old.order }
    {
        self.last = None;
        self.cells.look_at_all(level)?;
        Ok(())
    }

    /// Labels each cell of a level that differs from the one that was seen. Err: memory was refused.
    fn look_at_changes(&mut self, seen: &BareLevel, level: &BareLevel) -> Result<(), AllocError>
        requires size { SameSize seen.now.grid level.now.grid }
        requires known { self.old.cells ≡ texts_in self.old.table.game self.old.order seen.now.grid }
        ensures cells { OnOk result (self.new.cells ≡ texts_in self.old.table.game self.old.order level.now.grid) }
        ensures game { self.new.table.game ≡ self.old.table.game }
        ensures order { self.new.order ≡ self.old.order }
    {
        let last = self.last.take();
        let kept = self
            .cells
            .look_at_changes(seen, level, &mut self.room, last)?;
        self.last = kept;
        Ok(())
    }

    /// Labels the cells of a level, after another of its size only those that differ. Err: memory was refused.
    fn look_over(&mut self, seen: &BareLevel, level: &BareLevel) -> Result<(), AllocError>
        requires { self.old.cells ≡ texts_in self.old.table.game self.old.order seen.now.grid }
        ensures cells { OnOk result (self.new.cells ≡ texts_in self.old.table.game self.old.order level.now.grid) }
        ensures game { self.new.table.game ≡ self.old.table.game }
        ensures order { self.new.order ≡ self.old.order }
    {
        if seen.same_size(level) {
            self.look_at_changes(seen, level)
        } else {
            self.look_at_all(level)
        }
    }

    /// The text of the level whose cells are labelled.
    fn text(&mut self, level: &BareLevel) -> Result<QuotedText, AllocError>
        requires { self.old.cells ≡ texts_in self.old.table.game self.old.order level.now.grid }
        ensures text { IfOk result (λ text. text ≡ text_of_level self.old.table.game self.old.order level.now.grid) }
        ensures same { self.new ≡ self.old }
    {
        fill(&mut self.room, &mut self.last, &self.cells, level.width())?;
        let text = self.room.text(self.alloc)?;
        Ok(text)
    }

    /// The text of a level, as a JSON string. The cells come in the writer's order, each with a comma after it. The first cell with a set
    /// of names has the names, sorted by their bytes and separated by spaces, then a colon and the next number from 0. A further cell with
    /// the same names has only that number. A line break comes after as many cells as the level is wide, in either order. Err: memory was
    /// refused. Rule `texts.sets`.
    pub fn write(&mut self, level: &BareLevel) -> Result<QuotedText, AllocError>
        ensures text { IfOk result (λ text. text ≡ text_of_level self.old.table.game self.old.order level.now.grid) }
        ensures cells { OnOk result (self.new.cells ≡ texts_in self.old.table.game self.old.order level.now.grid) }
        ensures game { self.new.table.game ≡ self.old.table.game }
        ensures order { self.new.order ≡ self.old.order }
    {
        self.look_at_all(level)?;
        let text = self.text(level)?;
        Ok(text)
    }

    /// The same, after a level that was written: only cells that differ from that one are looked at.
    pub fn write_after(
        &mut self,
        seen: &BareLevel,
        level: &BareLevel,
    ) -> Result<QuotedText, AllocError>
        requires { self.old.cells ≡ texts_in self.old.table.game self.old.order seen.now.grid }
        ensures text { IfOk result (λ text. text ≡ text_of_level self.old.table.game self.old.order level.now.grid) }
        ensures cells { OnOk result (self.new.cells ≡ texts_in self.old.table.game self.old.order level.now.grid) }
        ensures game { self.new.table.game ≡ self.old.table.game }
        ensures order { self.new.order ≡ self.old.order }
    {
        self.look_over(seen, level)?;
        let text = self.text(level)?;
        Ok(text)
    }

    /// The same text, not quoted, for callers that read it back.
    pub fn write_plain(&mut self, level: &BareLevel) -> Result<String, AllocError>
        ensures text { IfOk result
            (λ text. string_bytes text ≡ text_of_level self.old.table.game self.old.order level.now.grid) }
        ensures game { self.new.table.game ≡ self.old.table.game }
        ensures order { self.new.order ≡ self.old.order }
    {
        self.look_at_all(level)?;
        let text = plain(self.alloc, &self.cells, level.width())?;
        Ok(text)
    }
}
