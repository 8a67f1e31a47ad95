//! The lines of loops.
#![tactic(auto, unfolding(crate::specs::Loop::loop_word, crate::specs::Loop::next_loop))]

ghost use Rattle.std.specs.Prelude.{◌≡◌};
ghost use Rattle.pz_grammar.specs.Loop.{loop_word, next_loop};

use pz_base::name::Name;
use pz_game::rule_line::RuleLine;

/// A word that begins or ends a loop of groups.
#[derive(Clone, Copy)]
pub enum LoopWord {
    Start,
    End,
}

/// The loop word of a line with no other word, if it is one. Rule `rules.loop-lines`.
pub fn loop_word(words: &[Name]) -> Option<LoopWord>
    ensures { result ≡ loop_word words.now }
{
    match words {
        [word] => match word.as_str() {
            "startloop" => Some(LoopWord::Start),
            "endloop" => Some(LoopWord::End),
            _ => None,
        },
        _ => None,
    }
}

/// The first loop word of lines.
pub fn next_loop(lines: &[RuleLine]) -> Option<LoopWord>
    ensures { result ≡ next_loop lines.now }
{
    for line in lines {
        if let Some(word) = loop_word(line.words.items()) {
            return Some(word);
        }
    }
    None
}
