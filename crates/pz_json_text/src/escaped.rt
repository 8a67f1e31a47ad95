//! The text of cells as it stands in a JSON string, escaped. It is written into memory that is reused from text to text.

ghost use Rattle.std.specs.Prelude.{◌≡◌, ℕ, ◌+◌, ◌-◌, ◌*◌, ◌%◌, ◌^◌, ◌<◌, ◌≤◌, ◌++◌, ◌∷◌, [], length, map, take, All, IfOk, IfSome, OnOk, None, decimal};
ghost use Rattle.json.specs.Print.{escape};
ghost use Rattle.pz_json_text.specs.Labels.{text_at};
ghost use Rattle.pz_json_text.specs.CellTexts.{line_end, known_of};
ghost use Rattle.pz_json_text.specs.Written.{AreWritten, AreFirsts};

use crate::labels::KnownTexts;
use crate::quoted::QuotedText;
use crate::written::Written;
use itoa::Buffer;
use std::alloc::AllocError;

/// Makes room for `more` bytes after the text, which ends at `end`. Err: memory was refused.
pub(crate) fn make_way(json: &mut Vec<u8>, end: usize, more: usize) -> Result<(), AllocError>
    requires within { end ≤ length json.old.items }
    requires few { more < 2 ^ 63 }
    ensures room { OnOk result (end + more ≤ length json.new.items) }
    ensures kept { OnOk result (take end json.new.items ≡ take end json.old.items) }
{
    if json.len() - end < more {
        json.resize(end + more, 0)?;
    }
    Ok(())
}

/// Writes bytes at the end of the text, and gives its new end.
fn put(json: &mut [u8], end: usize, bytes: &[u8]) -> usize
    requires { end + length bytes.now ≤ length json.old }
    ensures end { result ≡ end + length bytes.now }
    ensures written { take result json.new ≡ take end json.old ++ bytes.now }
    ensures room { length json.new ≡ length json.old }
{
    let next = end + bytes.len();
    json[end..next].copy_from_slice(bytes);
    next
}

/// Writes bytes and then a mark, and gives the new end.
fn put_marked(json: &mut [u8], end: usize, bytes: &[u8], mark: u8) -> usize
    requires { end + length bytes.now + 1 ≤ length json.old }
    ensures end { result ≡ end + length bytes.now + 1 }
    ensures written { take result json.new ≡ take end json.old ++ (bytes.now ++ mark ∷ []) }
    ensures room { length json.new ≡ length json.old }
{
    let next = put(json, end, bytes);
    json[next] = mark;
    next + 1
}

/// Writes a number of one or two digits, and a comma. `None`: the number has more digits, and nothing is written.
#[inline(always)]
fn put_number(json: &mut [u8], end: usize, number: usize) -> Option<usize>
    requires room { end + 3 ≤ length json.old }
    ensures end { IfSome result (λ next. next ≤ end + 3) }
    ensures written { IfSome result
        (λ next. take next json.new ≡ take end json.old ++ escape (decimal number ++ 44 ∷ [])) }
    ensures room { length json.new ≡ length json.old }
    ensures none { result ≡ None → json.new ≡ json.old }
{
    if number < 10 {
        return Some(put(json, end, &[b'0' + number as u8, b',']));
    }
    if number < 100 {
        let tens = b'0' + (number / 10) as u8;
        let ones = b'0' + (number % 10) as u8;
        return Some(put(json, end, &[tens, ones, b',']));
    }
    None
}

/// Counts one more cell in the last line, and ends the line if it then has as many cells as the level is wide. Gives the new end of the
/// text, and how many cells the last line then has.
#[inline(always)]
fn end_line(json: &mut [u8], end: usize, width: usize, column: usize) -> (usize, usize)
    requires column { column < width }
    requires room { end + 2 ≤ length json.old }
    ensures end { result.0 ≤ end + 2 }
    ensures written { (count : ℕ) → column ≡ count % width →
        take result.0 json.new ≡ take end json.old ++ escape (line_end width (count + 1)) }
    ensures column { (count : ℕ) → column ≡ count % width → result.1 ≡ (count + 1) % width }
    ensures line { result.1 < width }
    ensures room { length json.new ≡ length json.old }
{
    if column + 1 < width {
        return (end, column + 1);
    }
    json[end] = b'\\';
    json[end + 1] = b'n';
    (end + 2, 0)
}

/// Writes cells whose text has a number of one or two digits: those before the first other cell and before the cell `stop`. `numbers` has
/// the number of each label's text, if it has one.
pub(crate) fn write_known(
    json: &mut [u8],
    numbers: &[Option<usize>],
    texts: &KnownTexts,
    labels: &[usize],
    width: usize,
    stop: usize,
    from: Written,
) -> Written
    requires room { from.end + 5 * (stop - from.cells) ≤ length json.old }
    requires before { from.cells ≤ stop }
    requires stop { stop ≤ length labels.now }
    requires within { All (λ label. label < length texts.now) labels.now }
    requires from { AreWritten width (map (text_at texts.now) labels.now) texts.now from json.old numbers.now }
    ensures written { AreWritten width (map (text_at texts.now) labels.now) texts.now result json.new numbers.now }
    ensures onward { from.cells ≤ result.cells }
    ensures stop { result.cells ≤ stop }
    ensures same { known_of (take result.cells (map (text_at texts.now) labels.now)) ≡
        known_of (take from.cells (map (text_at texts.now) labels.now)) }
{
    let mut at = from;
    'cells: while at.cells < stop {
        let number = match numbers[labels[at.cells]] {
            Some(number) => number,
            None => return at,
        };
        let next = match put_number(json, at.end, number) {
            Some(next) => next,
            None => return at,
        };
        let (end, column) = end_line(json, next, width, at.column);
        at = Written {
            end,
            cells: at.cells + 1,
            known: at.known,
            column,
        };
    }
    at
}

/// Writes a number of any size and a comma.
fn put_large(json: &mut Vec<u8>, end: usize, number: usize) -> Result<usize, AllocError>
    requires { end ≤ length json.old.items }
    ensures end { IfOk result (λ next. next ≤ length json.new.items) }
    ensures written { IfOk result
        (λ next. take next json.new.items ≡ take end json.old.items ++ escape (decimal number ++ 44 ∷ [])) }
{
    let mut digits = Buffer::new();
    let text = digits.format(number).as_bytes();
    make_way(json, end, text.len() + 1)?;
    Ok(put_marked(json.as_mut_slice(), end, text, b','))
}

/// Writes a new text, a colon, its number and a comma.
fn put_new(
    json: &mut Vec<u8>,
    end: usize,
    text: &QuotedText,
    number: usize,
) -> Result<usize, AllocError>
    requires { end ≤ length json.old.items }
    ensures end { IfOk result (λ next. next ≤ length json.new.items) }
    ensures written { IfOk result
        (λ next. take next json.new.items ≡
        take end json.old.items ++ escape (text.now ++ 58 ∷ [] ++ decimal number ++ 44 ∷ [])) }
{
    let text = text.escaped();
    make_way(json, end, text.len() + 1)?;
    let next = put_marked(json.as_mut_slice(), end, text, b':');
    let end = put_large(json, next, number)?;
    Ok(end)
}

/// Writes the next cell, whatever its text. `firsts` has the labels of the texts that have a number. Err: memory was refused.
pub(crate) fn write_cell(
    json: &mut Vec<u8>,
    numbers: &mut Vec<Option<usize>>,
    firsts: &mut Vec<usize>,
    texts: &KnownTexts,
    labels: &[usize],
    width: usize,
    at: Written,
) -> Result<Written, AllocError>
    requires here { at.cells < length labels.now }
    requires within { All (λ label. label < length texts.now) labels.now }
    requires at { AreWritten width (map (text_at texts.now) labels.now) texts.now at json.old.items numbers.old.items }
    requires firsts { AreFirsts (map (text_at texts.now) labels.now) texts.now at.cells firsts.old.items }
    ensures written { IfOk result
        (λ next. AreWritten width
        (map (text_at texts.now) labels.now) texts.now next json.new.items numbers.new.items) }
    ensures firsts { IfOk result
        (λ next. AreFirsts (map (text_at texts.now) labels.now) texts.now next.cells firsts.new.items) }
    ensures onward { IfOk result (λ next. next.cells ≡ at.cells + 1) }
{
    let label = labels[at.cells];
    let mut known = at.known;
    let end = match numbers[label] {
        Some(number) => put_large(json, at.end, number)?,
        None => {
            let end = put_new(json, at.end, texts.quoted(label), known)?;
            numbers[label] = Some(known);
            firsts.push(label)?;
            known += 1;
            end
        }
    };
    make_way(json, end, 2)?;
    let (end, column) = end_line(json.as_mut_slice(), end, width, at.column);
    Ok(Written {
        end,
        cells: at.cells + 1,
        known,
        column,
    })
}

/// Writes bytes after the text, which ends at `end`, and gives its new end. Err: memory was refused.
pub(crate) fn write_bytes(json: &mut Vec<u8>, end: usize, bytes: &[u8]) -> Result<usize, AllocError>
    requires { end ≤ length json.old.items }
    ensures end { IfOk result (λ next. next ≡ end + length bytes.now) }
    ensures room { IfOk result (λ next. next ≤ length json.new.items) }
    ensures written { IfOk result (λ next. take next json.new.items ≡ take end json.old.items ++ bytes.now) }
{
    make_way(json, end, bytes.len())?;
    Ok(put(json.as_mut_slice(), end, bytes))
}
