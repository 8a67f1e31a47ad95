//! The words of a rule line, as rule words and names.
#![tactic(auto, unfolding(crate::specs::Words::lead_of, crate::specs::Words::command_of_word, crate::specs::Words::mark_of, crate::specs::Words::rule_word, crate::specs::Words::token_of, crate::specs::Words::tokens_from, crate::specs::Words::tokens_of))]

ghost use Rattle.std.specs.Prelude.{◌≡◌, ◌++◌, OnOk, IfOk, codes};
ghost use Rattle.std.specs.Str.{bytes_eq};
ghost use Rattle.pz_grammar.specs.Words.{lead_of, command_of_word, mark_of, rule_word, token_of, tokens_from, tokens_of};

use crate::token::{Class, Command, Lead, Token, Turn};
use pz_base::name::Name;
use pz_game::direction::Dir;
use pz_game::game::Game;
use std::alloc::{AllocError, Global};

fn lead_of(word: &str) -> Option<Lead<Class>>
    ensures { result ≡ lead_of word.now }
{
    match word {
        "no" => Some(Lead::No),
        "up" => Some(Lead::Toward(Dir::Up)),
        "down" => Some(Lead::Toward(Dir::Down)),
        "left" => Some(Lead::Toward(Dir::Left)),
        "right" => Some(Lead::Toward(Dir::Right)),
        "action" => Some(Lead::Toward(Dir::Action)),
        "^" => Some(Lead::Turned(Turn::Up)),
        "v" => Some(Lead::Turned(Turn::Down)),
        "<" => Some(Lead::Turned(Turn::Back)),
        ">" => Some(Lead::Turned(Turn::Ahead)),
        "stationary" => Some(Lead::Stationary),
        "moving" => Some(Lead::OneOf(Class::Moving)),
        "orthogonal" => Some(Lead::OneOf(Class::Orthogonal)),
        "horizontal" => Some(Lead::OneOf(Class::Horizontal)),
        "vertical" => Some(Lead::OneOf(Class::Vertical)),
        "parallel" => Some(Lead::OneOf(Class::Parallel)),
        "perpendicular" => Some(Lead::OneOf(Class::Perpendicular)),
        _ => None,
    }
}

fn command_of_word(word: &str) -> Option<Command>
    ensures { result ≡ command_of_word word.now }
{
    match word {
        "again" => Some(Command::Again),
        "cancel" => Some(Command::Cancel),
        "checkpoint" => Some(Command::Checkpoint),
        "restart" => Some(Command::Restart),
        "win" => Some(Command::Win),
        "sfx0" => Some(Command::Sound(0)),
        "sfx1" => Some(Command::Sound(1)),
        "sfx2" => Some(Command::Sound(2)),
        "sfx3" => Some(Command::Sound(3)),
        "sfx4" => Some(Command::Sound(4)),
        "sfx5" => Some(Command::Sound(5)),
        "sfx6" => Some(Command::Sound(6)),
        "sfx7" => Some(Command::Sound(7)),
        "sfx8" => Some(Command::Sound(8)),
        "sfx9" => Some(Command::Sound(9)),
        "sfx10" => Some(Command::Sound(10)),
        _ => None,
    }
}

fn mark_of(word: &str) -> Option<Token>
    ensures { result ≡ mark_of word.now }
{
    match word {
        "[" => Some(Token::Open),
        "]" => Some(Token::Close),
        "|" => Some(Token::Bar),
        "->" => Some(Token::Arrow),
        "..." => Some(Token::Gap),
        "late" => Some(Token::Late),
        "startloop" => Some(Token::StartLoop),
        "endloop" => Some(Token::EndLoop),
        _ => None,
    }
}

/// The rule word that a text spells, if it spells one. Rule `rules.words`.
fn rule_word(word: &str) -> Option<Token>
    ensures { result ≡ rule_word word.now }
{
    if let Some(token) = mark_of(word) {
        return Some(token);
    }
    match lead_of(word) {
        Some(lead) => Some(Token::Lead(lead)),
        None => match command_of_word(word) {
            Some(command) => Some(Token::Command(command)),
            None => None,
        },
    }
}

/// The token of a word.
fn token_of(game: &Game, word: &str) -> Token
    ensures { result ≡ token_of game.now.names word.now }
{
    match rule_word(word) {
        Some(token) => token,
        None => Token::Name(game.number_of(word)),
    }
}

fn is_message(word: &str) -> bool
    ensures { result ≡ bytes_eq word.now (codes "message") }
{
    word == "message"
}

fn is_plus(word: &str) -> bool
    ensures { result ≡ bytes_eq word.now (codes "+") }
{
    word == "+"
}

/// Adds the tokens of words.
fn add_tokens(game: &Game, words: &[Name], tokens: &mut Vec<Token>) -> Result<(), AllocError>
    ensures { OnOk result (tokens.new.items ≡ tokens.old.items ++ tokens_from game.now.names words.now) }
{
    for word in words {
        if is_message(word.as_str()) {
            tokens.push(Token::Command(Command::Message))?;
            return Ok(());
        }
        tokens.push(token_of(game, word.as_str()))?;
    }
    Ok(())
}

/// The tokens of a line.
pub fn tokens_of(alloc: Global, game: &Game, words: &[Name]) -> Result<Vec<Token>, AllocError>
    ensures { IfOk result (λ tokens. tokens.items ≡ tokens_of game.now.names words.now) }
{
    let mut tokens = Vec::new(alloc);
    let Some((first, others)) = words.split_first() else {
        return Ok(tokens);
    };
    if is_plus(first.as_str()) {
        tokens.push(Token::Plus)?;
        add_tokens(game, others, &mut tokens)?;
        return Ok(tokens);
    }
    add_tokens(game, words, &mut tokens)?;
    Ok(tokens)
}
