//! The labels of the cells of a level, in the order of its text.

ghost use Rattle.std.specs.Prelude.{◌≡◌, ◌*◌, ◌<◌, ◌++◌, ◌∷◌, ◌+◌, [], length, map, take, slice_set, All, IfOk, IfSome, OnOk};
ghost use Rattle.pz_sheet.specs.Changes.{with_cell, cell_there};
ghost use Rattle.pz_sheet.specs.Grid.{Grid, SameSize};
ghost use Rattle.pz_record.specs.CellNames.{set_of};
ghost use Rattle.pz_json_text.specs.Labels.{text_at};
ghost use Rattle.pz_level_text.specs.Labels.{texts_in};
ghost use Rattle.pz_level_text.specs.LastText.{IsLastOf};
ghost use Rattle.pz_level_text.specs.LevelNames.{standing_names};
ghost use Rattle.pz_json_text.specs.CellTexts.{text_of_names};
ghost use Rattle.pz_json_text.specs.Written.{IsSameBut};

use crate::cell_order::{number_at, position};
use crate::label_table::LabelTable;
use crate::last_text::{LastText, follow};
use pz_bare::BareLevel;
use pz_game::game::Game;
use pz_json_text::labels::KnownTexts;
use pz_json_text::text_room::TextRoom;
use pz_record::order::Order;
use pz_sheet::changes::KnownChanges;
use std::alloc::{AllocError, Global};
use std::marker::Model;

/// The labels of the cells of the last level, in an order, and the texts of the sets of objects seen so far.
pub(crate) struct CellLabels<'a> {
    alloc: Global,
    order: Order,
    table: LabelTable<'a>,
    labels: Vec<usize>,
}

/// Written out: where one goes out of scope, the prover then sees one call.
impl Drop for CellLabels<'_> {
    fn drop(self) {
        let CellLabels {
            alloc: _,
            order: _,
            table,
            labels,
        } = self;
        drop(table);
        drop(labels);
    }
}

impl<'a> Model for CellLabels<'a> {
    ghost use Rattle.std.specs.Prelude.{◌<◌, All, length, map};
    ghost use Rattle.pz_json_text.specs.Labels.{text_at};
    ghost use Rattle.pz_level_text.specs.Labels.{WriterView};

    ghost Value = { WriterView };

    ghost view = { λ c. record {
      table = c.table;
      order = c.order;
      cells = map (text_at c.table.texts) c.labels.items;
    } };

    ghost invariant = { λ c. All (λ label. label < length c.table.texts) c.labels.items };
}

impl<'a> CellLabels<'a> {
    pub fn new(alloc: Global, game: &'a Game, order: Order) -> CellLabels<'a>
        ensures { result ≡ record { table = record { game = game.now; texts = [] }; order = order; cells = [] } }
    {
        CellLabels {
            alloc,
            order,
            table: LabelTable::new(alloc, game),
            labels: Vec::new(alloc),
        }
    }

    /// The texts by their labels.
    pub fn texts(&self) -> &KnownTexts
        ensures { result.now ≡ self.now.table.texts }
    {
        self.table.texts()
    }

    /// The labels, cell by cell.
    pub fn labels(&self) -> &[usize]
        ensures cells { map (text_at self.now.table.texts) result.now ≡ self.now.cells }
        ensures known { All (λ label. label < length self.now.table.texts) result.now }
    {
        self.labels.as_slice()
    }

    /// The label of what stands at a position. (Inlined, because each changed cell comes here, and most have a known set.)
    #[inline(always)]
    fn label_at(&mut self, level: &BareLevel, x: u32, y: u32) -> Result<usize, AllocError>
        ensures known { IfOk result (λ label. label < length self.new.table.texts) }
        ensures text { IfOk result
            (λ label. text_at self.new.table.texts label ≡
            text_of_names (set_of (standing_names self.old.table.game.objects level.now.grid (x, y)))) }
        ensures cells { self.new.cells ≡ self.old.cells }
        ensures kept { take (length self.old.table.texts) self.new.table.texts ≡ self.old.table.texts }
        ensures game { self.new.table.game ≡ self.old.table.game }
        ensures order { self.new.order ≡ self.old.order }
    {
        let objects = level.objects_at(x, y);
        let label = self.table.label(self.alloc, objects)?;
        Ok(label)
    }

    /// Gives the cell of this number another label.
    fn put(&mut self, number: usize, label: usize)
        requires within { number < length self.old.cells }
        requires known { label < length self.old.table.texts }
        ensures cells { self.new.cells ≡ slice_set self.old.cells number (text_at self.old.table.texts label) }
        ensures table { self.new.table ≡ self.old.table }
        ensures order { self.new.order ≡ self.old.order }
    {
        self.labels[number] = label;
    }

    /// Gives one more cell a label.
    fn push(&mut self, label: usize) -> Result<(), AllocError>
        requires known { label < length self.old.table.texts }
        ensures cells { OnOk result (self.new.cells ≡ self.old.cells ++ text_at self.old.table.texts label ∷ []) }
        ensures table { self.new.table ≡ self.old.table }
        ensures order { self.new.order ≡ self.old.order }
    {
        self.labels.push(label)?;
        Ok(())
    }

    /// Forgets all cells, and makes room for so many.
    fn make_room(&mut self, count: usize) -> Result<(), AllocError>
        ensures cells { self.new.cells ≡ [] }
        ensures table { self.new.table ≡ self.old.table }
        ensures order { self.new.order ≡ self.old.order }
    {
        self.labels.clear();
        self.labels.reserve(count)?;
        Ok(())
    }

    /// Labels each cell of a level. Err: memory was refused.
    pub fn look_at_all(&mut self, level: &BareLevel) -> Result<(), AllocError>
        ensures cells { OnOk result (self.new.cells ≡ texts_in self.old.table.game self.old.order level.now.grid) }
        ensures game { self.new.table.game ≡ self.old.table.game }
        ensures order { self.new.order ≡ self.old.order }
    {
        self.make_room(level.cell_count())?;
        for number in 0..level.width() * level.height() {
            let (x, y) = position(self.order, level, number);
            let label = self.label_at(level, x, y)?;
            self.push(label)?;
        }
        Ok(())
    }

    /// Labels the cell of this number again, because it may differ from what was seen there. Here cells are numbered row by row. The answer
    /// has the cell's number in the order of the text. Err: memory was refused.
    fn look(&mut self, level: &BareLevel, index: usize) -> Result<usize, AllocError>
        requires on_map { index < level.now.grid.width * level.now.grid.height }
        requires count { length self.old.cells ≡ level.now.grid.width * level.now.grid.height }
        ensures known { OnOk result
            ((seen : Grid) → SameSize seen level.now.grid → index < length seen.cells →
            self.old.cells ≡ texts_in self.old.table.game self.old.order seen →
            self.new.cells ≡ texts_in self.old.table.game self.old.order
            (with_cell seen (cell_there level.now.grid index))) }
        ensures changed { IfOk result (λ number. IsSameBut number (number + 1) self.old.cells self.new.cells) }
        ensures kept { take (length self.old.table.texts) self.new.table.texts ≡ self.old.table.texts }
        ensures game { self.new.table.game ≡ self.old.table.game }
        ensures order { self.new.order ≡ self.old.order }
    {
        // (brings the proof the law of the level)
        let _ = level.width();
        let (x, y) = position(Order::Rows, level, index as u32);
        let label = self.label_at(level, x, y)?;
        let number = number_at(self.order, level, x, y);
        self.put(number, label);
        Ok(number)
    }

    /// Labels each cell of a level that differs from one that was seen. The last text in the room follows these changes. Err: memory was
    /// refused.
    pub fn look_at_changes(
        &mut self,
        seen: &BareLevel,
        level: &BareLevel,
        room: &mut TextRoom,
        last: Option<LastText>,
    ) -> Result<Option<LastText>, AllocError>
        requires size { SameSize seen.now.grid level.now.grid }
        requires known { self.old.cells ≡ texts_in self.old.table.game self.old.order seen.now.grid }
        requires last { IfSome last (IsLastOf self.old.cells self.old.table.texts room.old) }
        ensures cells { OnOk result (self.new.cells ≡ texts_in self.old.table.game self.old.order level.now.grid) }
        ensures last { IfOk result (λ last. IfSome last (IsLastOf self.new.cells self.new.table.texts room.new)) }
        ensures game { self.new.table.game ≡ self.old.table.game }
        ensures order { self.new.order ≡ self.old.order }
    {
        // (brings the proof the law of the level)
        let _ = level.width();
        let mut last = last;
        let mut known = KnownChanges::none();
        let mut from = 0;
        'changes: while let Some(index) = seen.next_change_after(level, &mut known, from) {
            let number = self.look(level, index)?;
            last = follow(last, room, self.texts(), self.labels(), number);
            from = index + 1;
        }
        Ok(last)
    }
}
