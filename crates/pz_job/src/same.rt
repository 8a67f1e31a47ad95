//! Games whose rules are the same. Like the games of a suite, they differ only in their levels, or in where their lines stand.

ghost use Rattle.std.specs.Prelude.{◌≡◌, true, All};
ghost use Rattle.pz_base.specs.NameSet.{number_in};
ghost use Rattle.pz_job.specs.SameRules.{AreSameLines, HaveSameRules, IsSameLine};

use pz_base::listed::Listed;
use pz_base::name::Name;
use pz_game::denotation::Denotation;
use pz_game::game::Game;
use pz_game::rule_line::RuleLine;

/// How parts of two games are compared.
trait Same {
    /// Whether another one is the same.
    fn same(&self, other: &Self) -> bool
        ensures { result ≡ true → self.now ≡ other.now };
}

/// Whether two lists have the same items in the same order.
fn same_items<T: Same>(items: &[T], others: &[T]) -> bool
    ensures { result ≡ true → items.now ≡ others.now }
{
    if items.len() != others.len() {
        return false;
    }
    for number in 0..items.len() {
        if !items[number].same(&others[number]) {
            return false;
        }
    }
    true
}

impl<T: Same> Same for Listed<T> {
    fn same(&self, other: &Listed<T>) -> bool {
        same_items(self.items(), other.items())
    }
}

impl Same for usize {
    fn same(&self, other: &usize) -> bool {
        *self == *other
    }
}

impl Same for Name {
    fn same(&self, other: &Name) -> bool {
        self.as_str() == other.as_str()
    }
}

impl Same for Denotation {
    fn same(&self, other: &Denotation) -> bool {
        self.kind == other.kind && self.number == other.number && self.members.same(&other.members)
    }
}

/// Whether two numbers are the same, or both are missing.
fn same_number(number: Option<usize>, other: Option<usize>) -> bool
    ensures { result ≡ true → number ≡ other }
{
    match (number, other) {
        (Some(number), Some(other)) => number == other,
        (None, None) => true,
        _ => false,
    }
}

/// Whether each of the words is the same name in two games.
fn same_numbers(game: &Game, other: &Game, words: &[Name]) -> bool
    ensures { result ≡ true → All (λ word. number_in game.now.names word ≡ number_in other.now.names word) words.now }
{
    for number in 0..words.len() {
        let word = words[number].as_str();
        if !same_number(game.number_of(word), other.number_of(word)) {
            return false;
        }
    }
    true
}

/// Whether a rule line of each of two games says the same. If the games are known to have the same names, no word is looked up.
fn same_line(
    game: &Game,
    other: &Game,
    have_same_names: bool,
    line: &RuleLine,
    others: &RuleLine,
) -> bool
    requires { have_same_names ≡ true → game.now.names ≡ other.now.names }
    ensures { result ≡ true → IsSameLine game.now.names other.now.names line.now others.now }
{
    line.words.same(&others.words)
        && (have_same_names || same_numbers(game, other, line.words.items()))
}

/// Whether the rule lines of two games say the same, one by one.
fn same_lines(game: &Game, other: &Game) -> bool
    ensures { result ≡ true → AreSameLines game.now.names other.now.names game.now.rules other.now.rules }
{
    let lines = game.rules();
    let others = other.rules();
    if lines.len() != others.len() {
        return false;
    }
    let have_same_names = game.has_names_of(other);
    for number in 0..lines.len() {
        if !same_line(
            game,
            other,
            have_same_names,
            &lines[number],
            &others[number],
        ) {
            return false;
        }
    }
    true
}

/// Whether two games have the same rules, and so the same program.
pub(crate) fn same_rules(game: &Game, other: &Game) -> bool
    ensures { result ≡ true → HaveSameRules game.now other.now }
{
    same_lines(game, other)
        && same_items(game.layers(), other.layers())
        && same_items(game.values(), other.values())
}
