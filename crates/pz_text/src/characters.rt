//! Lists of characters.

ghost use Rattle.std.specs.Prelude.{◌≡◌, ◌≤◌, length, IfOk};
ghost use Rattle.std.specs.Str.{chars};
ghost use Rattle.pz_text.specs.Characters.{trimmed_text, is_word, ends_in};

use std::alloc::{AllocError, Global};

/// The characters of a text.
pub fn characters(alloc: Global, text: &str) -> Result<Vec<char>, AllocError>
    ensures value { IfOk result (λ cs. cs.items ≡ chars text.now) }
    ensures fewer { IfOk result (λ cs. length cs.items ≤ length text.now) }
{
    text.chars().collect(alloc)
}

/// The characters without the white space at both ends. Rule `text.white-space`.
pub fn trimmed(line: &[char]) -> &[char]
    ensures value { result.now ≡ trimmed_text line.now }
    ensures shorter { length result.now ≤ length line.now }
{
    let mut rest = line;
    while let [first, others @ ..] = rest {
        if !first.is_whitespace() {
            break;
        }
        rest = others;
    }
    while let Some((last, others)) = rest.split_last() {
        if !last.is_whitespace() {
            break;
        }
        rest = others;
    }
    rest
}

/// Whether the characters spell a keyword, in any case. The keyword itself is in small letters.
pub fn is_word(cs: &[char], word: &[u8]) -> bool
    ensures { result ≡ is_word cs.now word.now }
{
    let mut rest = cs;
    for b in word {
        match rest {
            [c, others @ ..] if c.to_ascii_lowercase() == char::from(*b) => rest = others,
            _ => return false,
        }
    }
    rest.is_empty()
}

/// Whether the last character is this one.
pub fn ends_in(cs: &[char], mark: char) -> bool
    ensures { result ≡ ends_in mark cs.now }
{
    match cs.last() {
        Some(c) => *c == mark,
        None => false,
    }
}
