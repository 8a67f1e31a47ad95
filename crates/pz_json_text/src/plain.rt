//! The text of cells, not quoted, for callers that read it back. It is seldom needed: `escaped` writes the same text for each frame.

ghost use Rattle.std.specs.Prelude.{◌≡◌, ℕ, ◌<◌, ◌+◌, ◌%◌, ◌++◌, ◌∷◌, [], length, All, IfOk, None, OnOk, decimal, map, replicate, string_bytes};
ghost use Rattle.pz_json_text.specs.Labels.{text_at};
ghost use Rattle.pz_json_text.specs.CellTexts.{line_end, text_of_cells};

use crate::labels::KnownTexts;
use itoa::Buffer;
use std::alloc::{AllocError, Global};

/// Writes a number and a comma.
fn write_number(text: &mut String, number: usize) -> Result<(), AllocError>
    ensures { OnOk result (string_bytes text.new ≡ string_bytes text.old ++ (decimal number ++ 44 ∷ [])) }
{
    let mut digits = Buffer::new();
    text.push_str(digits.format(number))?;
    text.push_str(",")?;
    Ok(())
}

/// Writes a new text, a colon, its number and a comma.
fn write_new(text: &mut String, name: &str, number: usize) -> Result<(), AllocError>
    ensures { OnOk result (string_bytes text.new ≡
        string_bytes text.old ++ (name.now ++ 58 ∷ [] ++ decimal number ++ 44 ∷ [])) }
{
    text.push_str(name)?;
    text.push_str(":")?;
    write_number(text, number)?;
    Ok(())
}

/// Counts one more cell in the last line, and ends the line if it then has as many cells as the level is wide. Gives how many cells the
/// last line then has.
fn end_line(text: &mut String, width: usize, column: usize) -> Result<usize, AllocError>
    requires { column < width }
    ensures ended { OnOk result
        ((count : ℕ) → column ≡ count % width →
        string_bytes text.new ≡ string_bytes text.old ++ line_end width (count + 1)) }
    ensures column { IfOk result (λ next. (count : ℕ) → column ≡ count % width → next ≡ (count + 1) % width) }
{
    if column + 1 < width {
        return Ok(column + 1);
    }
    text.push_str("\n")?;
    Ok(0)
}

/// A list of numbers in which no label has one yet.
fn no_numbers(alloc: Global, count: usize) -> Result<Vec<Option<usize>>, AllocError>
    ensures { IfOk result (λ numbers. numbers.items ≡ replicate count None) }
{
    let mut numbers = Vec::new(alloc);
    numbers.resize(count, None)?;
    Ok(numbers)
}

/// The text of cells with these labels, not quoted, for a level of this width. Err: memory was refused.
pub fn plain_text(
    alloc: Global,
    texts: &KnownTexts,
    labels: &[usize],
    width: usize,
) -> Result<String, AllocError>
    requires wide { 0 < width }
    requires within { All (λ label. label < length texts.now) labels.now }
    ensures { IfOk result (λ text. string_bytes text ≡ text_of_cells width (map (text_at texts.now) labels.now)) }
{
    let mut text = String::new(alloc);
    let mut numbers = no_numbers(alloc, texts.len())?;
    let mut count = 0;
    let mut column = 0;
    for cell in labels {
        let label = *cell;
        match numbers[label] {
            Some(number) => write_number(&mut text, number)?,
            None => {
                write_new(&mut text, texts.text(label), count)?;
                numbers[label] = Some(count);
                count += 1;
            }
        }
        column = end_line(&mut text, width, column)?;
    }
    Ok(text)
}
