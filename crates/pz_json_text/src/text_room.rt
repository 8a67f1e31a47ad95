//! Reused memory for the text of a level.

ghost use Rattle.std.specs.Prelude.{◌≡◌, ℕ, List, ◌<◌, ◌+◌, [], length, map, All, IfOk, OnOk, OnErr};
ghost use Rattle.pz_json_text.specs.Labels.{text_at};
ghost use Rattle.pz_json_text.specs.Written.{HasTextOf, HasTextBut, IsSameBut};

use crate::changed::Changed;
use crate::draft::{Draft, patch, write_after, write_all};
use crate::labels::KnownTexts;
use crate::quoted::QuotedText;
use std::alloc::{AllocError, Global};
use std::marker::Model;
use std::mem::swap;

/// Memory for the text of a level, and for the numbers that the text gives to sets of names. It is reused from text to text, so most texts
/// are written without asking for memory. A text is written beside the last one, `last`, and takes its place once it is whole.
pub struct TextRoom {
    last: Draft,
    next: Draft,
    numbers: Vec<Option<usize>>,
}

/// Written out, as for the known texts.
impl Drop for TextRoom {
    fn drop(self) {
        let TextRoom {
            last,
            next,
            numbers,
        } = self;
        drop(last);
        drop(next);
        drop(numbers);
    }
}

impl Model for TextRoom {
    ghost use Rattle.std.specs.Prelude.{◌≡◌, ◌≤◌, length, take};
    ghost use Rattle.json.specs.Print.{escape};
    ghost use Rattle.pz_json_text.specs.Quoted.{escaped_says};
    ghost use Rattle.pz_json_text.specs.Written.{RoomView, room_of};

    ghost Value = { RoomView };

    ghost view = { λ r. room_of r.last };

    ghost invariant = { λ r. (r.last.at.end ≤ length r.last.json.items) ×
        (take r.last.at.end r.last.json.items ≡ escape (escaped_says (take r.last.at.end r.last.json.items))) };
}

impl TextRoom {
    /// Room with an empty text.
    pub fn new(alloc: Global) -> TextRoom
        ensures { result ≡ record { text = []; firsts = []; marks = [] } }
    {
        TextRoom {
            last: Draft::new(alloc),
            next: Draft::new(alloc),
            numbers: Vec::new(alloc),
        }
    }

    /// A copy of the last text, quoted. Err: memory was refused.
    pub fn text(&self, alloc: Global) -> Result<QuotedText, AllocError>
        ensures { IfOk result (λ text. text ≡ self.now.text) }
    {
        QuotedText::of_escaped(alloc, &self.last.json[..self.last.at.end])
    }

    /// Writes the text of cells with these labels, for a level of this width, in place of the last text. Err: memory was refused, and the
    /// last text is still there.
    pub fn write(
        &mut self,
        texts: &KnownTexts,
        labels: &[usize],
        width: usize,
    ) -> Result<(), AllocError>
        requires wide { 0 < width }
        requires within { All (λ label. label < length texts.now) labels.now }
        ensures written { OnOk result (HasTextOf width (map (text_at texts.now) labels.now) texts.now self.new) }
        ensures kept { OnErr result (self.new ≡ self.old) }
    {
        write_all(&mut self.next, &mut self.numbers, texts, labels, width)?;
        swap(&mut self.last, &mut self.next);
        Ok(())
    }

    /// Writes the text of cells with these labels, in place of a text of the same width. Its cells were the same, but for those that have
    /// changed. Parts that both texts have are copied. Err: memory was refused, and the last text is still there.
    pub fn rewrite(
        &mut self,
        texts: &KnownTexts,
        labels: &[usize],
        width: usize,
        changed: Changed,
    ) -> Result<(), AllocError>
        requires wide { 0 < width }
        requires within { All (λ label. label < length texts.now) labels.now }
        requires last { HasTextBut width changed.first changed.end
            (map (text_at texts.now) labels.now) texts.now self.old }
        ensures written { OnOk result (HasTextOf width (map (text_at texts.now) labels.now) texts.now self.new) }
        ensures kept { OnErr result (self.new ≡ self.old) }
    {
        if changed.end <= changed.first {
            return Ok(());
        }
        write_after(
            &mut self.next,
            &mut self.numbers,
            &self.last,
            texts,
            labels,
            width,
            changed,
        )?;
        swap(&mut self.last, &mut self.next);
        Ok(())
    }

    /// Follows a change of one cell, `cell`. The room has the text of cells that were as they were before it, but for those in `changed`. The
    /// answer is a range of cells that may now differ from those of the text: the digit of the cell is replaced where that is enough, and the
    /// cell is added to the range otherwise.
    pub fn follow(
        &mut self,
        texts: &KnownTexts,
        labels: &[usize],
        width: usize,
        changed: Changed,
        cell: usize,
    ) -> Changed
        requires wide { 0 < width }
        requires within { All (λ label. label < length texts.now) labels.now }
        requires last { (before : List (List ℕ)) ×
            HasTextBut width changed.first changed.end before texts.now self.old ×
            IsSameBut cell (cell + 1) before (map (text_at texts.now) labels.now) }
        ensures { HasTextBut width result.first result.end (map (text_at texts.now) labels.now) texts.now self.new }
    {
        if patch(&mut self.last, texts, labels[cell], width, cell) {
            return changed;
        }
        changed.and(Changed {
            first: cell,
            end: cell + 1,
        })
    }
}
