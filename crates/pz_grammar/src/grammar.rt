//! The rule of a line.
#![tactic(auto, unfolding(crate::specs::Parsed::prefixes_of, crate::specs::Parsed::after_prefixes, crate::specs::Parsed::commands_of, crate::specs::Parsed::rule_of_tokens))]

ghost use Rattle.std.specs.Prelude.{◌≡◌, Option, Some, None, IfOk, MatchOption};
ghost use Rattle.pz_grammar.specs.Parsed.{rule_of_tokens, command_of, commands_of, begins_joined, after_joined, prefixes_of, after_prefixes, after_arrow};
ghost use Rattle.pz_grammar.specs.Written.{is_direction, is_prefix, IsWritten, IsNoRule};

use crate::rows::read_rows;
use crate::rule::Rule;
use crate::token::{Class, Command, Lead, Token};
use pz_base::listed::Listed;
use pz_game::direction::Dir;
use std::alloc::{AllocError, Global};

fn is_direction(lead: Lead<Class>) -> bool
    ensures { result ≡ is_direction lead }
{
    match lead {
        Lead::Toward(direction) => !matches!(direction, Dir::Action),
        Lead::OneOf(class) => matches!(
            class,
            Class::Horizontal | Class::Vertical | Class::Orthogonal
        ),
        _ => false,
    }
}

fn is_prefix(token: &Token) -> bool
    ensures { result ≡ is_prefix token.now }
{
    match token {
        Token::Late => true,
        Token::Lead(lead) => is_direction(*lead),
        _ => false,
    }
}

/// The prefixes that tokens begin with, and what follows them. Rule `rules.prefixes`.
fn read_prefixes<'a>(
    alloc: Global,
    tokens: &'a [Token],
) -> Result<(Listed<Token>, &'a [Token]), AllocError>
    ensures prefixes { IfOk result (λ p. p.0 ≡ prefixes_of tokens.now) }
    ensures rest { IfOk result (λ p. p.1.now ≡ after_prefixes tokens.now) }
{
    let mut prefixes = Vec::new(alloc);
    let mut rest = tokens;
    while let Some((token, more)) = rest.split_first() {
        if !is_prefix(token) {
            return Ok((Listed::new(prefixes), rest));
        }
        prefixes.push(*token)?;
        rest = more;
    }
    Ok((Listed::new(prefixes), rest))
}

fn command_of(token: &Token) -> Option<Command>
    ensures { result ≡ command_of token.now }
{
    match token {
        Token::Command(command) => Some(*command),
        _ => None,
    }
}

/// The tokens as commands, if all of them are commands. Rule `rules.commands`.
fn commands_of(alloc: Global, tokens: &[Token]) -> Result<Option<Listed<Command>>, AllocError>
    ensures { IfOk result (λ commands. commands ≡ commands_of tokens.now) }
{
    let mut commands = Vec::new(alloc);
    for token in tokens {
        let Some(command) = command_of(token) else {
            return Ok(None)
        };
        commands.push(command)?;
    }
    Ok(Some(Listed::new(commands)))
}

fn after_arrow(tokens: &[Token]) -> Option<&[Token]>
    ensures { MatchOption result (after_arrow tokens.now ≡ None) (λ rest. after_arrow tokens.now ≡ Some rest.now) }
{
    match tokens {
        [Token::Arrow, rest @ ..] => Some(rest),
        _ => None,
    }
}

fn after_joined(tokens: &[Token]) -> (bool, &[Token])
    ensures is_joined { result.0 ≡ begins_joined tokens.now }
    ensures rest { result.1.now ≡ after_joined tokens.now }
{
    match tokens {
        [Token::Plus, rest @ ..] => (true, rest),
        _ => (false, tokens),
    }
}

/// The rule that these tokens write, if they write one.
fn read_rule(alloc: Global, tokens: &[Token]) -> Result<Option<Rule>, AllocError>
    ensures { IfOk result (λ rule. rule ≡ rule_of_tokens tokens.now) }
{
    let (is_joined, rest) = after_joined(tokens);
    let (prefixes, rest) = read_prefixes(alloc, rest)?;
    let Some((left, rest)) = read_rows(alloc, rest)? else {
        return Ok(None)
    };
    if left.items().is_empty() {
        return Ok(None);
    }
    let Some(rest) = after_arrow(rest) else {
        return Ok(None)
    };
    let Some((right, rest)) = read_rows(alloc, rest)? else {
        return Ok(None)
    };
    let Some(commands) = commands_of(alloc, rest)? else {
        return Ok(None)
    };
    Ok(Some(Rule {
        is_joined,
        prefixes,
        left,
        right,
        commands,
    }))
}

/// The rule that these tokens write, if they write one. Rule `rules.form`.
#[tactic(auto, using(crate::proofs::Complete::exact))]
pub fn parse(alloc: Global, tokens: &[Token]) -> Result<Option<Rule>, AllocError>
    ensures value { IfOk result (λ rule. rule ≡ rule_of_tokens tokens.now) }
    ensures exact { IfOk result (λ rule. MatchOption rule (IsNoRule tokens.now) (IsWritten tokens.now)) }
{
    read_rule(alloc, tokens)
}
