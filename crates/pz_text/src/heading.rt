//! The headings of sections.

ghost use Rattle.std.specs.Prelude.{◌≡◌};
ghost use Rattle.pz_text.specs.Heading.{heading_of, begins_with_word, heading_in};

use crate::characters::is_word;
use crate::line::Section;

fn heading_of(line: &[char]) -> Option<Section>
    ensures { result ≡ heading_of line.now }
{
    if is_word(line, b"objects") {
        Some(Section::Objects)
    } else if is_word(line, b"legend") {
        Some(Section::Legend)
    } else if is_word(line, b"sounds") {
        Some(Section::Sounds)
    } else if is_word(line, b"collisionlayers") {
        Some(Section::Layers)
    } else if is_word(line, b"rules") {
        Some(Section::Rules)
    } else if is_word(line, b"winconditions") {
        Some(Section::Wins)
    } else if is_word(line, b"levels") {
        Some(Section::Levels)
    } else {
        None
    }
}

/// Whether a keyword is the first word of a line, in any case. The keyword itself is in small letters, and the line must not begin with
/// white space.
pub fn begins_with_word(line: &[char], word: &[u8]) -> bool
    ensures { result ≡ begins_with_word line.now word.now }
{
    let mut rest = line;
    for b in word {
        match rest {
            [c, others @ ..] if c.to_ascii_lowercase() == char::from(*b) => rest = others,
            _ => return false,
        }
    }
    match rest {
        [] => true,
        [c, ..] => c.is_whitespace(),
    }
}

/// The section that a line begins, if it is a heading. `section` is the one in which it stands. Rule `sections.headings`.
pub fn heading_in(section: Section, line: &[char]) -> Option<Section>
    ensures { result ≡ heading_in section line.now }
{
    if section == Section::Prelude && begins_with_word(line, b"objects") {
        Some(Section::Objects)
    } else {
        heading_of(line)
    }
}
