//! The profile: which keywords and words are outside it, and which options the prelude sets.

ghost use Rattle.std.specs.Prelude.{◌≡◌, Ok, IfOk};
ghost use Rattle.pz_base.specs.Fault.{unless, and_then};
ghost use Rattle.pz_text.specs.Section.{lines_in};
ghost use Rattle.pz_text.specs.declared.line.Section.TheVariants as section;
ghost use Rattle.pz_source.specs.Rules.{rule_words, rule_lines};
ghost use Rattle.pz_source.specs.Profile.{is_outside_word, has_outside_word, is_outside, outside_profile, has_keyword, options_of};

use crate::rules::rule_words;
use pz_base::fault::{Code, SourceFault};
use pz_base::name::Name;
use pz_game::options::Options;
use pz_game::rule_line::RuleLine;
use pz_names::objects::is_blank;
use pz_text::heading::begins_with_word;
use pz_text::line::{Line, Section};
use pz_text::section::around;
use std::alloc::{AllocError, Global};

fn is_outside_word(word: &Name) -> bool
    ensures { result ≡ is_outside_word word.now }
{
    word.is("random") || word.is("randomdir") || word.is("rigid")
}

fn has_outside_word(words: &[Name]) -> bool
    ensures { result ≡ has_outside_word words.now }
{
    for word in words {
        if word.is("message") {
            return false;
        }
        if is_outside_word(word) {
            return true;
        }
    }
    false
}

/// Whether a line is outside the profile, where these are its words as a rule line.
fn is_outside_by(line: &Line, words: &[Name]) -> bool
    requires { words.now ≡ rule_words line.now.text }
    ensures { result ≡ is_outside line.now.section line.now.text }
{
    match line.section {
        Section::Prelude => begins_with_word(line.text.items(), b"realtime_interval"),
        Section::Rules => has_outside_word(words),
        _ => false,
    }
}

fn is_outside(alloc: Global, line: &Line) -> Result<bool, AllocError>
    ensures { IfOk result (λ r. r ≡ is_outside line.now.section line.now.text) }
{
    match line.section {
        Section::Prelude => Ok(begins_with_word(line.text.items(), b"realtime_interval")),
        Section::Rules => {
            let words = rule_words(alloc, line.text.items())?;
            Ok(has_outside_word(words.items()))
        }
        _ => Ok(false),
    }
}

/// `OutsideProfile` at the first line outside the profile, if there is one: of the prelude with the keyword `realtime_interval`, or of RULES
/// with a word `random`, `randomdir` or `rigid`. Rule `checks.profile`.
fn outside_profile(alloc: Global, lines: &[Line]) -> Result<Option<SourceFault>, AllocError>
    ensures { IfOk result (λ fault. fault ≡ outside_profile lines.now) }
{
    for line in lines {
        if is_outside(alloc, line)? {
            return Ok(Some(SourceFault {
                code: Code::OutsideProfile,
                line: line.number,
            }));
        }
    }
    Ok(None)
}

/// The rule lines of lines that are in the profile: those that aren't blank, cut into words. Else `OutsideProfile`, at the first line that is
/// outside. Rule `checks.profile`.
fn rules_in_profile(
    alloc: Global,
    lines: &[Line],
) -> Result<Result<Vec<RuleLine>, SourceFault>, AllocError>
    ensures { IfOk result
        (λ read. and_then (λ rules. Ok rules.items) read ≡
        unless (outside_profile lines.now) (Ok (rule_lines lines.now))) }
{
    let mut rules = Vec::new(alloc);
    for line in lines {
        let words = rule_words(alloc, line.text.items())?;
        if is_outside_by(line, words.items()) {
            return Ok(Err(SourceFault {
                code: Code::OutsideProfile,
                line: line.number,
            }));
        }
        if is_blank(line) {
            continue;
        }
        rules.push(RuleLine {
            number: line.number,
            words,
        })?;
    }
    Ok(Ok(rules))
}

/// The rule lines of a source in the profile. Else `OutsideProfile`, at its line: the first line of the prelude with the keyword
/// `realtime_interval`, or of RULES with a word `random`, `randomdir` or `rigid`. Err: memory was refused.
pub fn read_rules(
    alloc: Global,
    lines: &[Line],
) -> Result<Result<Vec<RuleLine>, SourceFault>, AllocError>
    ensures { IfOk result
        (λ read. and_then (λ rules. Ok rules.items) read ≡
        unless (outside_profile lines.now) (Ok (rule_lines (lines_in section.Rules lines.now)))) }
{
    let (before, own, behind) = around(Section::Rules, lines);
    if let Some(fault) = outside_profile(alloc, before)? {
        return Ok(Err(fault));
    }
    let rules = or_fault!(rules_in_profile(alloc, own)?);
    if let Some(fault) = outside_profile(alloc, behind)? {
        return Ok(Err(fault));
    }
    Ok(Ok(rules))
}

fn has_keyword(lines: &[Line], keyword: &[u8]) -> bool
    ensures { result ≡ has_keyword keyword.now lines.now }
{
    lines
        .iter()
        .any(|line| begins_with_word(line.text.items(), keyword))
}

/// The options that the lines of the prelude set. A keyword sets its option, whatever its value. Rule `sections.options`.
pub fn options_of(lines: &[Line]) -> Options
    ensures { result ≡ options_of lines.now }
{
    Options {
        run_rules_on_level_start: has_keyword(lines, b"run_rules_on_level_start"),
        require_player_movement: has_keyword(lines, b"require_player_movement"),
    }
}
