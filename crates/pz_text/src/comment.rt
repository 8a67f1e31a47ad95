//! Comments: they stand in round brackets, nest, and may span lines.

ghost use Rattle.std.specs.Prelude.{◌≡◌, ◌≤◌, ◌<◌, ◌+◌, ◌^◌, ◌==◌, length, IfOk, OnOk, [], true};
ghost use Rattle.std.specs.List.{list_any};
ghost use Rattle.pz_text.specs.Comment.{is_bracket, ends_arrow, is_first_plus, ends_word, word_after, is_first_after, ends_message, is_plain_from, depth_past, outside, depth_after};

use crate::characters::{ends_in, is_word};
use crate::line::Section;
use std::alloc::{AllocError, Global};

/// Whether a character is a square bracket or a bar. Each is a word of its own in RULES.
pub fn is_bracket(c: char) -> bool
    ensures { result ≡ is_bracket c }
{
    c == '[' || c == ']' || c == '|'
}

/// Where a reader of a line stands. `word` has the characters read of the current word, and is empty between words. `is_first`: no other
/// word stands before it on the line.
#[derive(Drop, Debug)]
pub struct Cursor {
    pub is_first: bool,
    pub word: Vec<char>,
}

impl Cursor {
    /// At the beginning of a line.
    pub fn new(alloc: Global) -> Cursor
        ensures first { result.is_first ≡ true }
        ensures no_word { result.word.items ≡ [] }
    {
        Cursor {
            is_first: true,
            word: Vec::new(alloc),
        }
    }

    /// Whether a character ends an arrow, `->`.
    pub fn ends_arrow(&self, c: char) -> bool
        ensures { result ≡ ends_arrow self.now.word.items c }
    {
        c == '>' && ends_in(self.word.as_slice(), '-')
    }

    /// Whether a character is a plus sign with only white space before it on its line.
    pub fn is_first_plus(&self, c: char) -> bool
        ensures { result ≡ is_first_plus self.now.is_first self.now.word.items c }
    {
        self.is_first && self.word.is_empty() && c == '+'
    }

    /// Whether a character ends the word, in a section.
    pub fn ends_word(&self, section: Section, c: char) -> bool
        ensures { result ≡ ends_word section self.now.is_first self.now.word.items c }
    {
        match section {
            Section::Rules => {
                c.is_whitespace() || is_bracket(c) || self.ends_arrow(c) || self.is_first_plus(c)
            }
            _ => c.is_whitespace(),
        }
    }

    /// Whether a character ends the word `message` of a line of RULES. Rule `text.glued-bracket`.
    pub fn ends_message(&self, c: char) -> bool
        ensures { result ≡ ends_message self.now.word.items c }
    {
        let word = self.word.as_slice();
        is_word(word, b"message") && (c.is_whitespace() || is_bracket(c))
            || is_word(word, b"message-") && c == '>'
    }

    /// Whether the rest of the line is plain text from a character on. Rules `text.prelude`, `text.message`.
    pub fn is_plain_from(&self, section: Section, c: char) -> bool
        ensures { result ≡ is_plain_from section self.now.is_first self.now.word.items c }
    {
        match section {
            Section::Prelude => !c.is_whitespace(),
            Section::Levels => {
                self.is_first && is_word(self.word.as_slice(), b"message") && c.is_whitespace()
            }
            Section::Rules => self.ends_message(c),
            _ => false,
        }
    }

    /// Takes a character.
    pub fn pass(&mut self, section: Section, c: char) -> Result<(), AllocError>
        ensures word { OnOk result (self.new.word.items ≡ word_after section self.old.is_first self.old.word.items c) }
        ensures first { OnOk result
            (self.new.is_first ≡ is_first_after section self.old.is_first self.old.word.items c) }
    {
        if self.ends_word(section, c) {
            self.is_first = self.is_first && self.word.is_empty() && c.is_whitespace();
            self.word.clear();
        } else {
            self.word.push(c)?;
        }
        Ok(())
    }
}

fn depth_past(depth: usize, c: char) -> usize
    requires { depth + 1 < 2 ^ 64 }
    ensures { result ≡ depth_past depth c }
{
    match c {
        '(' => depth + 1,
        ')' => depth.saturating_sub(1),
        _ => depth,
    }
}

/// Whether a line has an opening bracket. Without one it has no comment, unless one is open before it.
pub fn opens_bracket(line: &[char]) -> bool
    ensures { result ≡ list_any (λ c. c == 40) line.now }
{
    line.iter().any(|c| *c == '(')
}

/// What is left of a line without its comments, and how many brackets are open after it. `opened` brackets are open before it.
/// Rule `text.comments`.
pub fn outside(
    alloc: Global,
    section: Section,
    opened: usize,
    line: &[char],
) -> Result<(Vec<char>, usize), AllocError>
    requires { opened + length line.now < 2 ^ 64 }
    ensures text { IfOk result (λ r. r.0.items ≡ outside section true [] opened line.now) }
    ensures depth { IfOk result (λ r. r.1 ≡ depth_after section true [] opened line.now) }
    ensures bound { IfOk result (λ r. r.1 ≤ opened + length line.now) }
{
    let mut text = Vec::new(alloc);
    let mut cursor = Cursor::new(alloc);
    let mut depth = opened;
    let mut rest = line;
    while let Some((c, others)) = rest.split_first() {
        if depth > 0 {
            depth = depth_past(depth, *c);
        } else if *c == '(' {
            depth = 1;
        } else if cursor.is_plain_from(section, *c) {
            text.extend_from_slice(rest)?;
            break;
        } else {
            text.push(*c)?;
            cursor.pass(section, *c)?;
        }
        rest = others;
    }
    Ok((text, depth))
}
