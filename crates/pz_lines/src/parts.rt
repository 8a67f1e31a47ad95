//! The parts of a line: a key, with what stands before it, and its value.

ghost use Rattle.std.specs.Prelude.{◌≡◌, ◌++◌, OnOk, decimal};
ghost use Rattle.json.specs.Print.{quoted};

use itoa::Buffer;
use pz_json_text::quoted::QuotedText;
use std::alloc::AllocError;

/// Writes a key, with what stands before it, and its value, as it is written.
pub fn put_json(lines: &mut Vec<u8>, key: &[u8], value: &[u8]) -> Result<(), AllocError>
    ensures { OnOk result (lines.new.items ≡ lines.old.items ++ (key.now ++ value.now)) }
{
    lines.extend_from_slice(key)?;
    lines.extend_from_slice(value)
}

/// Writes a key, with what stands before it, and its text, as it is kept.
pub fn put_quoted(lines: &mut Vec<u8>, key: &[u8], text: &QuotedText) -> Result<(), AllocError>
    ensures { OnOk result (lines.new.items ≡ lines.old.items ++ (key.now ++ quoted text.now)) }
{
    put_json(lines, key, text.as_json())
}

/// Writes a key, with what stands before it, and its text. The text is quoted in its own room, because a writer of JSON first
/// clears all the room that it has, and lines have much.
pub fn put_text(lines: &mut Vec<u8>, key: &[u8], text: &str) -> Result<(), AllocError>
    ensures { OnOk result (lines.new.items ≡ lines.old.items ++ (key.now ++ quoted text.now)) }
{
    let text = QuotedText::of_str(*lines.allocator(), text)?;
    put_quoted(lines, key, &text)
}

/// Writes a key, with what stands before it, and its number.
pub fn put_number(lines: &mut Vec<u8>, key: &[u8], number: u64) -> Result<(), AllocError>
    ensures { OnOk result (lines.new.items ≡ lines.old.items ++ (key.now ++ decimal number)) }
{
    let mut digits = Buffer::new();
    lines.extend_from_slice(key)?;
    lines.extend_from_slice(digits.format(number).as_bytes())?;
    Ok(())
}
