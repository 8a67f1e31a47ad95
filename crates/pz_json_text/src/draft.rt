//! A text of cells that is written part by part, and may take over parts of the last one.

ghost use Rattle.std.specs.Prelude.{◌≡◌, ℕ, ◌+◌, ◌-◌, ◌*◌, ◌<◌, ◌≤◌, ◌^◌, ◌++◌, List, [], length, map, replicate, take, drop, min, slice_set, true, false, ◌==◌, None, All, IfOk, IfSome, OnOk};
ghost use Rattle.std.specs.List.{position};
ghost use Rattle.pz_base.specs.NameSet.{number_in};
ghost use Rattle.pz_json_text.specs.declared.written.Written.{Written};
ghost use Rattle.pz_json_text.specs.Labels.{AreDistinct, text_at};
ghost use Rattle.pz_json_text.specs.CellTexts.{known_of};
ghost use Rattle.pz_json_text.specs.Written.{AreFirsts, AreWritten, IsBegun, IsDigitAt, IsWhole, IsSameBut, with_shifted_end};

use crate::changed::Changed;
use crate::escaped::{make_way, write_bytes, write_cell, write_known};
use crate::labels::KnownTexts;
use crate::written::Written;
use std::alloc::{AllocError, Global};

/// After how many cells it is noted how much of the text is written.
pub(crate) const STEP: usize = 16;

/// A text of cells, as far as it is written. The text stands at the front of `json`, escaped as in a JSON string, and `at` says how much is
/// written. `firsts` has the labels that have a number, in the order of the numbers. `marks` has how much was written before the first cell
/// and after each `STEP` cells. Once all cells are written, only the end in `at` counts.
pub(crate) struct Draft {
    pub json: Vec<u8>,
    pub at: Written,
    pub firsts: Vec<usize>,
    pub marks: Vec<Written>,
}

/// Written out: where one goes out of scope, the prover then sees one call.
impl Drop for Draft {
    fn drop(self) {
        let Draft {
            json,
            at: _,
            firsts,
            marks,
        } = self;
        drop(json);
        drop(firsts);
        drop(marks);
    }
}

/// Nothing is written.
fn start() -> Written
    ensures { result ≡ record { end = 0; cells = 0; known = 0; column = 0 } }
{
    Written {
        end: 0,
        cells: 0,
        known: 0,
        column: 0,
    }
}

impl Draft {
    pub fn new(alloc: Global) -> Draft
        ensures end { result.at.end ≡ 0 }
        ensures firsts { result.firsts.items ≡ [] }
        ensures marks { result.marks.items ≡ [] }
    {
        Draft {
            json: Vec::new(alloc),
            at: start(),
            firsts: Vec::new(alloc),
            marks: Vec::new(alloc),
        }
    }
}

/// Makes room for the numbers of `count` labels, none of which has one yet. Err: memory was refused.
fn clear_numbers(numbers: &mut Vec<Option<usize>>, count: usize) -> Result<(), AllocError>
    ensures { OnOk result (numbers.new.items ≡ replicate count None) }
{
    numbers.clear();
    numbers.resize(count, None)?;
    Ok(())
}

/// Gives the labels of `firsts` the numbers from 0 on, and no number to others. Err: memory was refused.
fn number_labels(
    numbers: &mut Vec<Option<usize>>,
    texts: &KnownTexts,
    firsts: &[usize],
) -> Result<(), AllocError>
    requires within { All (λ label. label < length texts.now) firsts.now }
    requires distinct { AreDistinct (map (text_at texts.now) firsts.now) }
    ensures { OnOk result (numbers.new.items ≡ map (number_in (map (text_at texts.now) firsts.now)) texts.now) }
{
    clear_numbers(numbers, texts.len())?;
    for (number, label) in firsts.iter().enumerate() {
        numbers[*label] = Some(number);
    }
    Ok(())
}

/// Forgets what is written, and the numbers of all labels. Err: memory was refused.
pub(crate) fn restart(
    draft: &mut Draft,
    numbers: &mut Vec<Option<usize>>,
    texts: &KnownTexts,
) -> Result<(), AllocError>
    ensures begun { OnOk result
        ((width : ℕ) (all : List (List ℕ)) → 0 < width → IsBegun width all texts.now draft.new numbers.new.items) }
    ensures start { OnOk result (draft.new.at.cells ≡ 0) }
    ensures marks { OnOk result (length draft.new.marks.items ≡ 0) }
{
    draft.at = start();
    draft.firsts.clear();
    draft.marks.clear();
    clear_numbers(numbers, texts.len())?;
    Ok(())
}

/// Takes over the front of another text, up to a mark that has `count` marks before it. Err: memory was refused.
fn take_front(
    draft: &mut Draft,
    last: &Draft,
    mark: Written,
    count: usize,
) -> Result<(), AllocError>
    requires json { mark.end ≤ length last.now.json.items }
    requires firsts { mark.known ≤ length last.now.firsts.items }
    requires marks { count ≤ length last.now.marks.items }
    ensures room { OnOk result (mark.end ≤ length draft.new.json.items) }
    ensures json { OnOk result (take mark.end draft.new.json.items ≡ take mark.end last.now.json.items) }
    ensures at { OnOk result (draft.new.at ≡ mark) }
    ensures firsts { OnOk result (draft.new.firsts.items ≡ take mark.known last.now.firsts.items) }
    ensures marks { OnOk result (draft.new.marks.items ≡ take count last.now.marks.items) }
{
    write_bytes(&mut draft.json, 0, &last.json[..mark.end])?;
    draft.at = mark;
    draft.firsts.clear();
    draft.firsts.extend_from_slice(&last.firsts[..mark.known])?;
    draft.marks.clear();
    draft.marks.extend_from_slice(&last.marks[..count])?;
    Ok(())
}

/// Writes the cells before the cell `stop` that aren't written yet, and sets no mark. Err: memory was refused.
fn write_part(
    draft: &mut Draft,
    numbers: &mut Vec<Option<usize>>,
    texts: &KnownTexts,
    labels: &[usize],
    width: usize,
    stop: usize,
) -> Result<(), AllocError>
    requires from { draft.old.at.cells ≤ stop }
    requires stop { stop ≤ length labels.now }
    requires within { All (λ label. label < length texts.now) labels.now }
    requires written { AreWritten width
        (map (text_at texts.now) labels.now) texts.now draft.old.at draft.old.json.items numbers.old.items }
    requires firsts { AreFirsts
        (map (text_at texts.now) labels.now) texts.now draft.old.at.cells draft.old.firsts.items }
    ensures written { OnOk result (AreWritten width (map (text_at texts.now) labels.now) texts.now draft.new.at
        draft.new.json.items numbers.new.items) }
    ensures firsts { OnOk result
        (AreFirsts (map (text_at texts.now) labels.now) texts.now draft.new.at.cells draft.new.firsts.items) }
    ensures stop { OnOk result (draft.new.at.cells ≡ stop) }
    ensures marks { draft.new.marks ≡ draft.old.marks }
{
    'cells: while draft.at.cells < stop {
        make_way(&mut draft.json, draft.at.end, 5 * (stop - draft.at.cells))?;
        draft.at = write_known(
            draft.json.as_mut_slice(),
            numbers.as_slice(),
            texts,
            labels,
            width,
            stop,
            draft.at,
        );
        if draft.at.cells < stop {
            let next = write_cell(
                &mut draft.json,
                numbers,
                &mut draft.firsts,
                texts,
                labels,
                width,
                draft.at,
            )?;
            draft.at = next;
        }
    }
    Ok(())
}

/// Writes the cells before the cell `to` that aren't written yet, and sets the marks. Err: memory was refused.
pub(crate) fn write_cells(
    draft: &mut Draft,
    numbers: &mut Vec<Option<usize>>,
    texts: &KnownTexts,
    labels: &[usize],
    width: usize,
    to: usize,
) -> Result<(), AllocError>
    requires from { draft.old.at.cells ≤ to }
    requires to { to ≤ length labels.now }
    requires within { All (λ label. label < length texts.now) labels.now }
    requires begun { IsBegun width (map (text_at texts.now) labels.now) texts.now draft.old numbers.old.items }
    requires mark { draft.old.at.cells ≡ length draft.old.marks.items * STEP }
    ensures begun { OnOk result
        (IsBegun width (map (text_at texts.now) labels.now) texts.now draft.new numbers.new.items) }
    ensures to { OnOk result (draft.new.at.cells ≡ to) }
{
    'parts: while draft.at.cells < to {
        draft.marks.push(draft.at)?;
        let stop = to.min(draft.at.cells + STEP);
        write_part(draft, numbers, texts, labels, width, stop)?;
    }
    Ok(())
}

/// Writes the text of all cells. Err: memory was refused.
pub(crate) fn write_all(
    draft: &mut Draft,
    numbers: &mut Vec<Option<usize>>,
    texts: &KnownTexts,
    labels: &[usize],
    width: usize,
) -> Result<(), AllocError>
    requires wide { 0 < width }
    requires within { All (λ label. label < length texts.now) labels.now }
    ensures { OnOk result (IsWhole width (map (text_at texts.now) labels.now) texts.now draft.new) }
{
    restart(draft, numbers, texts)?;
    write_cells(draft, numbers, texts, labels, width, labels.len())?;
    Ok(())
}

/// Adds marks of another text, moved: what ended at `from` there ends at `to` here. Mostly that is the same place, and then they are copied
/// at once. Err: memory was refused.
fn take_marks(
    marks: &mut Vec<Written>,
    rest: &[Written],
    from: usize,
    to: usize,
) -> Result<(), AllocError>
    requires ends { All (λ mark. from ≤ mark.end) rest.now }
    requires fits { All (λ mark. mark.end + to < 2 ^ 64) rest.now }
    ensures { OnOk result (marks.new.items ≡ marks.old.items ++ map (with_shifted_end from to) rest.now) }
{
    if from == to {
        marks.extend_from_slice(rest)?;
        return Ok(());
    }
    for mark in rest {
        marks.push(Written {
            end: mark.end - from + to,
            cells: mark.cells,
            known: mark.known,
            column: mark.column,
        })?;
    }
    Ok(())
}

/// Takes over the rest of another text, from a mark on that has `count` marks before it. Err: memory was refused.
fn take_rest(draft: &mut Draft, last: &Draft, mark: Written, count: usize) -> Result<(), AllocError>
    requires within { draft.old.at.end ≤ length draft.old.json.items }
    requires json { last.now.at.end ≤ length last.now.json.items }
    requires mark { mark.end ≤ last.now.at.end }
    requires firsts { mark.known ≤ length last.now.firsts.items }
    requires marks { count ≤ length last.now.marks.items }
    requires ends { All (λ next. (mark.end ≤ next.end) × (next.end ≤ last.now.at.end))
        (drop count last.now.marks.items) }
    ensures room { OnOk result (draft.new.at.end ≤ length draft.new.json.items) }
    ensures json { OnOk result
        (take draft.new.at.end draft.new.json.items ≡
        take draft.old.at.end draft.old.json.items ++ drop mark.end (take last.now.at.end last.now.json.items)) }
    ensures firsts { OnOk result
        (draft.new.firsts.items ≡ draft.old.firsts.items ++ drop mark.known last.now.firsts.items) }
    ensures marks { OnOk result
        (draft.new.marks.items ≡ draft.old.marks.items ++ map (with_shifted_end mark.end draft.old.at.end)
        (drop count last.now.marks.items)) }
{
    take_marks(
        &mut draft.marks,
        &last.marks[count..],
        mark.end,
        draft.at.end,
    )?;
    draft.firsts.extend_from_slice(&last.firsts[mark.known..])?;
    let text = &last.json[..last.at.end];
    let end = write_bytes(&mut draft.json, draft.at.end, &text[mark.end..])?;
    draft.at.end = end;
    Ok(())
}

/// Writes the cells of a text that is begun, up to a mark of the last text that has `count` marks before it. Behind that mark the cells are
/// the same. If the same labels then have the same numbers, the rest of the last text is taken over, and the answer is true. Err: memory was
/// refused.
fn finish_at(
    draft: &mut Draft,
    numbers: &mut Vec<Option<usize>>,
    last: &Draft,
    texts: &KnownTexts,
    labels: &[usize],
    width: usize,
    count: usize,
) -> Result<bool, AllocError>
    requires within { All (λ label. label < length texts.now) labels.now }
    requires begun { IsBegun width (map (text_at texts.now) labels.now) texts.now draft.old numbers.old.items }
    requires mark { draft.old.at.cells ≡ length draft.old.marks.items * STEP }
    requires from { draft.old.at.cells ≤ count * STEP }
    requires count { count < length last.now.marks.items }
    requires last { (before : List (List ℕ)) × IsWhole width before texts.now last.now ×
        IsSameBut 0 (count * STEP) before (map (text_at texts.now) labels.now) }
    ensures whole { IfOk result
        (λ whole. whole ≡ true → IsWhole width (map (text_at texts.now) labels.now) texts.now draft.new) }
    ensures begun { IfOk result
        (λ whole. whole ≡ false →
        IsBegun width (map (text_at texts.now) labels.now) texts.now draft.new numbers.new.items) }
    ensures mark { IfOk result (λ whole. whole ≡ false → draft.new.at.cells ≡ count * STEP) }
{
    let mark = last.marks[count];
    write_cells(draft, numbers, texts, labels, width, mark.cells)?;
    if draft.firsts.as_slice() == &last.firsts[..mark.known] {
        take_rest(draft, last, mark, count)?;
        return Ok(true);
    }
    Ok(false)
}

/// Finishes a text that is begun. Behind the cells that may have changed it takes over what it can of the last text. Err: memory was
/// refused.
fn finish(
    draft: &mut Draft,
    numbers: &mut Vec<Option<usize>>,
    last: &Draft,
    texts: &KnownTexts,
    labels: &[usize],
    width: usize,
    changed: Changed,
) -> Result<(), AllocError>
    requires within { All (λ label. label < length texts.now) labels.now }
    requires begun { IsBegun width (map (text_at texts.now) labels.now) texts.now draft.old numbers.old.items }
    requires mark { draft.old.at.cells ≡ length draft.old.marks.items * STEP }
    requires from { draft.old.at.cells ≤ changed.first }
    requires some { changed.first < changed.end }
    requires last { (before : List (List ℕ)) × IsWhole width before texts.now last.now ×
        IsSameBut changed.first changed.end before (map (text_at texts.now) labels.now) }
    ensures { OnOk result (IsWhole width (map (text_at texts.now) labels.now) texts.now draft.new) }
{
    // (the number of the first mark behind all cells that may have changed)
    let mut count = (changed.end - 1) / STEP + 1;
    'marks: while count < last.marks.len() {
        if finish_at(draft, numbers, last, texts, labels, width, count)? {
            return Ok(());
        }
        count += 1;
    }
    write_cells(draft, numbers, texts, labels, width, labels.len())?;
    Ok(())
}

/// Writes the text of all cells. The front of the last text is taken over, up to the last mark that isn't behind the first changed cell. So
/// is its rest behind the changed cells, if the numbers of labels allow it. Err: memory was refused.
pub(crate) fn write_after(
    draft: &mut Draft,
    numbers: &mut Vec<Option<usize>>,
    last: &Draft,
    texts: &KnownTexts,
    labels: &[usize],
    width: usize,
    changed: Changed,
) -> Result<(), AllocError>
    requires wide { 0 < width }
    requires within { All (λ label. label < length texts.now) labels.now }
    requires some { changed.first < changed.end }
    requires last { (before : List (List ℕ)) × IsWhole width before texts.now last.now ×
        IsSameBut changed.first changed.end before (map (text_at texts.now) labels.now) }
    ensures { OnOk result (IsWhole width (map (text_at texts.now) labels.now) texts.now draft.new) }
{
    let count = changed.first / STEP;
    take_front(draft, last, last.marks[count], count)?;
    number_labels(numbers, texts, draft.firsts.as_slice())?;
    finish(draft, numbers, last, texts, labels, width, changed)?;
    Ok(())
}

/// How many labels have a number in a whole text once the cells of a step are written. A mark has `count` marks before it, and the step is
/// behind it.
fn known_behind(draft: &Draft, count: usize) -> usize
    requires { count < length draft.now.marks.items }
    ensures { (width : ℕ) (all texts : List (List ℕ)) → IsWhole width all texts draft.now →
        result ≡ length (known_of (take (min ((count + 1) * STEP) (length all)) all)) }
{
    if count + 1 < draft.marks.len() {
        return draft.marks[count + 1].known;
    }
    draft.firsts.len()
}

/// Where the text of a cell stands in a whole text, and how many labels have a number there. `None`: some cell of its step has more than a
/// number of one digit.
fn place(draft: &Draft, width: usize, cell: usize) -> Option<(usize, usize)>
    requires wide { 0 < width }
    requires whole { (all : List (List ℕ)) × (texts : List (List ℕ)) × IsWhole width all texts draft.now ×
        (cell < length all) }
    ensures { IfSome result (λ found. (all texts : List (List ℕ)) → IsWhole width all texts draft.now →
        cell < length all → IsDigitAt width all cell found.0 found.1) }
{
    let count = cell / STEP;
    let mark = draft.marks[count];
    let known = known_behind(draft, count);
    if known != mark.known || 10 < known {
        return None;
    }
    let breaks = cell / width - mark.cells / width;
    Some((mark.end + 2 * (cell - mark.cells + breaks), known))
}

/// The number of a label among those that have one.
fn number_of(firsts: &[usize], label: usize) -> Option<usize>
    ensures { result ≡ position (λ first. first == label) firsts.now }
{
    firsts.iter().position(|first| *first == label)
}

/// Gives a cell of a whole text another label, if that changes a digit and no more. Otherwise the text stays as it is.
pub(crate) fn patch(
    draft: &mut Draft,
    texts: &KnownTexts,
    label: usize,
    width: usize,
    cell: usize,
) -> bool
    requires wide { 0 < width }
    requires known { label < length texts.now }
    requires whole { (all : List (List ℕ)) × IsWhole width all texts.now draft.old × (cell < length all) }
    ensures patched { result ≡ true → (all : List (List ℕ)) → IsWhole width all texts.now draft.old →
        cell < length all → IsWhole width (slice_set all cell (text_at texts.now label)) texts.now draft.new }
    ensures kept { result ≡ false → draft.new ≡ draft.old }
{
    let (at, known) = match place(draft, width, cell) {
        Some(found) => found,
        None => return false,
    };
    let number = match number_of(&draft.firsts[..known], label) {
        Some(number) => number,
        None => return false,
    };
    draft.json[at] = b'0' + number as u8;
    true
}
