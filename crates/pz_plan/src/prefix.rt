//! The prefixes of a rule.
#![tactic(auto, unfolding(crate::specs::Prefix::is_late_rule, crate::specs::Prefix::directions_of))]

ghost use Rattle.std.specs.Prelude.{◌≡◌, IfOk, OnOk};
ghost use Rattle.std.specs.List.{list_any};
ghost use Rattle.pz_plan.specs.Prefix.{is_late_word, is_late_rule, prefix_directions, mentioned_directions, directions_of};
ghost use Rattle.pz_game.specs.Direction.{same_dir};
ghost use Rattle.pz_base.specs.Lists.{added_all};

use pz_base::listed::Listed;
use pz_game::direction::Dir;
use pz_grammar::rule::Rule;
use pz_grammar::token::{Class, Lead, Token};
use std::alloc::{AllocError, Global};

fn is_late_word(token: &Token) -> bool
    ensures { result ≡ is_late_word token.now }
{
    matches!(token, Token::Late)
}

/// Whether `late` stands before a rule.
pub fn is_late_rule(rule: &Rule) -> bool
    ensures { result ≡ is_late_rule rule.now }
{
    rule.prefixes
        .items()
        .iter()
        .any(|token| is_late_word(token))
}

/// The directions that a prefix stands for. Rule `rules.directions`.
fn prefix_directions(token: Token) -> &'static [Dir]
    ensures { result.now ≡ prefix_directions token }
{
    match token {
        Token::Lead(Lead::Toward(Dir::Up)) => &[Dir::Up],
        Token::Lead(Lead::Toward(Dir::Down)) => &[Dir::Down],
        Token::Lead(Lead::Toward(Dir::Left)) => &[Dir::Left],
        Token::Lead(Lead::Toward(Dir::Right)) => &[Dir::Right],
        Token::Lead(Lead::OneOf(Class::Horizontal)) => &[Dir::Left, Dir::Right],
        Token::Lead(Lead::OneOf(Class::Vertical)) => &[Dir::Up, Dir::Down],
        Token::Lead(Lead::OneOf(Class::Orthogonal)) => &[Dir::Up, Dir::Down, Dir::Left, Dir::Right],
        _ => &[],
    }
}

/// Whether two directions are the same.
pub fn same_dir(a: Dir, b: Dir) -> bool
    ensures { result ≡ same_dir a b }
{
    a == b
}

fn has_dir(directions: &[Dir], direction: Dir) -> bool
    ensures { result ≡ list_any (λ other. same_dir other direction) directions.now }
{
    directions.iter().any(|other| same_dir(*other, direction))
}

/// Adds the directions that aren't there yet.
fn add_directions(directions: &mut Vec<Dir>, more: &[Dir]) -> Result<(), AllocError>
    ensures { OnOk result (directions.new.items ≡ added_all same_dir directions.old.items more.now) }
{
    for direction in more {
        if !has_dir(directions, *direction) {
            directions.push(*direction)?;
        }
    }
    Ok(())
}

/// The directions that prefixes mention, each once.
#[tactic(auto, using(crate::proofs::Directions::mentioning), unfolding(crate::specs::Prefix::mentioned_directions))]
fn mentioned_directions(alloc: Global, prefixes: &[Token]) -> Result<Vec<Dir>, AllocError>
    ensures { IfOk result (λ directions. directions.items ≡ mentioned_directions prefixes.now) }
{
    let mut directions = Vec::new(alloc);
    for token in prefixes {
        add_directions(&mut directions, prefix_directions(*token))?;
    }
    Ok(directions)
}

/// The directions of a rule: all four if its prefixes mention none. Rule `rules.directions`.
pub fn directions_of(alloc: Global, rule: &Rule) -> Result<Listed<Dir>, AllocError>
    ensures { IfOk result (λ directions. directions ≡ directions_of rule.now) }
{
    let mentioned = mentioned_directions(alloc, rule.prefixes.items())?;
    if mentioned.is_empty() {
        return Ok(Listed::new(Vec::from_slice(
            alloc,
            &[Dir::Up, Dir::Down, Dir::Left, Dir::Right],
        )?));
    }
    Ok(Listed::new(mentioned))
}
