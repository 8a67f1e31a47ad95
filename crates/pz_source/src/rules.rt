//! The lines of RULES.

ghost use Rattle.std.specs.Prelude.{◌≡◌, ◌≤◌, ◌++◌, ◌∷◌, [], length, take, drop, map, if◌then◌else◌, IfOk, OnOk};
ghost use Rattle.pz_base.specs.Name.{name_of};
ghost use Rattle.pz_text.specs.Characters.{trimmed_text};
ghost use Rattle.pz_text.specs.Comment.{ends_word, word_after, is_first_after};
ghost use Rattle.pz_text.specs.declared.line.Section.TheVariants.{Rules};
ghost use Rattle.pz_source.specs.Rules.{word_if_any, words_behind, words_from, rule_words};

use pz_base::listed::Listed;
use pz_base::name::Name;
use pz_text::characters::trimmed;
use pz_text::comment::Cursor;
use pz_text::line::Section;
use std::alloc::{AllocError, Global};

/// Adds a word, folded.
pub(crate) fn push_word(
    alloc: Global,
    words: &mut Vec<Name>,
    word: &[char],
) -> Result<(), AllocError>
    ensures { OnOk result (words.new.items ≡ words.old.items ++ name_of word.now ∷ []) }
{
    let name = Name::of_word(alloc, word)?;
    words.push(name)?;
    Ok(())
}

fn push_closed(alloc: Global, words: &mut Vec<Name>, word: &[char]) -> Result<(), AllocError>
    ensures { OnOk result (words.new.items ≡ words.old.items ++ map name_of (word_if_any word.now)) }
{
    if word.is_empty() {
        return Ok(());
    }
    push_word(alloc, words, word)
}

/// Adds the words that a character ends.
fn push_ended(
    alloc: Global,
    words: &mut Vec<Name>,
    cursor: &Cursor,
    c: char,
) -> Result<(), AllocError>
    ensures { OnOk result (words.new.items ≡ words.old.items ++ map name_of (words_behind cursor.now.word.items c)) }
{
    let word = cursor.word.as_slice();
    if c.is_whitespace() {
        return push_closed(alloc, words, word);
    }
    if cursor.ends_arrow(c) {
        push_closed(alloc, words, &word[..word.len() - 1])?;
        return push_word(alloc, words, &['-', '>']);
    }
    push_closed(alloc, words, word)?;
    push_word(alloc, words, &[c])
}

/// Adds the word `message` and its text. The text begins in `word` and goes on to the end of the line.
fn push_message(
    alloc: Global,
    words: &mut Vec<Name>,
    word: &[char],
    rest: &[char],
) -> Result<(), AllocError>
    requires { 7 ≤ length word.now }
    ensures { OnOk result (words.new.items ≡
        words.old.items ++ map name_of (take 7 word.now ∷ word_if_any (trimmed_text (drop 7 word.now ++ rest.now)))) }
{
    let (message, begun) = word.split_at(7);
    push_word(alloc, words, message)?;
    let mut text = begun.to_vec(alloc)?;
    text.extend_from_slice(rest)?;
    push_closed(alloc, words, trimmed(text.as_slice()))
}

/// Takes a character, and adds the words that it ends.
fn pass(
    alloc: Global,
    words: &mut Vec<Name>,
    cursor: &mut Cursor,
    c: char,
) -> Result<(), AllocError>
    ensures words { OnOk result
        (words.new.items ≡ words.old.items ++ map name_of
        (if ends_word Rules cursor.old.is_first cursor.old.word.items c then words_behind cursor.old.word.items c else [])) }
    ensures word { OnOk result (cursor.new.word.items ≡ word_after Rules cursor.old.is_first cursor.old.word.items c) }
    ensures first { OnOk result
        (cursor.new.is_first ≡ is_first_after Rules cursor.old.is_first cursor.old.word.items c) }
{
    if cursor.ends_word(Section::Rules, c) {
        push_ended(alloc, words, cursor, c)?;
    }
    cursor.pass(Section::Rules, c)
}

/// Adds the words of a rule line from a character on.
fn push_words(
    alloc: Global,
    words: &mut Vec<Name>,
    cursor: &mut Cursor,
    text: &[char],
) -> Result<(), AllocError>
    ensures { OnOk result (words.new.items ≡
        words.old.items ++ map name_of (words_from cursor.old.is_first cursor.old.word.items text.now)) }
{
    let mut rest = text;
    while let Some((c, others)) = rest.split_first() {
        if cursor.ends_message(*c) {
            return push_message(alloc, words, cursor.word.as_slice(), rest);
        }
        pass(alloc, words, cursor, *c)?;
        rest = others;
    }
    push_closed(alloc, words, cursor.word.as_slice())
}

/// The words of a rule line, folded. The text after `message` is one word. Rule `text.marks`.
pub fn rule_words(alloc: Global, text: &[char]) -> Result<Listed<Name>, AllocError>
    ensures { IfOk result (λ words. words ≡ rule_words text.now) }
{
    let mut words = Vec::new(alloc);
    let mut cursor = Cursor::new(alloc);
    push_words(alloc, &mut words, &mut cursor, text)?;
    // all games are kept until the last session is played
    words.shrink_to_fit();
    Ok(Listed::new(words))
}
