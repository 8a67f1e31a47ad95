//! A game.

ghost use Rattle.std.specs.Prelude.{◌≡◌, ◌↔◌, IsTrue, option_map, option_copied};
ghost use Rattle.pz_game.specs.Game.{denotation_in, players_of, IsGame};
ghost use Rattle.pz_base.specs.NameSet.{number_in};

use crate::denotation::{Denotation, Kind};
use crate::level::LevelEntry;
use crate::options::Options;
use crate::rule_line::RuleLine;
use crate::win_line::WinLine;
use pz_base::listed::Listed;
use pz_base::name::Name;
use pz_base::name_set::NameSet;
use std::marker::Model;

/// What a game is made of: the names of its objects, in the order of OBJECTS; all its names, in the order of first mention, and what
/// each denotes; the collision layer of each object, and the number of layers; the lines of RULES and WINCONDITIONS; the entries of
/// LEVELS; and its options.
pub struct GameParts {
    pub objects: Listed<Name>,
    pub names: NameSet,
    pub values: Listed<Denotation>,
    pub layers: Listed<usize>,
    pub depth: usize,
    pub rules: Listed<RuleLine>,
    pub wins: Listed<WinLine>,
    pub levels: Listed<LevelEntry>,
    pub options: Options,
}

/// Written out, so that dropping one is a single call everywhere.
impl Drop for GameParts {
    fn drop(self) {
        let GameParts {
            objects,
            names,
            values,
            layers,
            depth: _,
            rules,
            wins,
            levels,
            options: _,
        } = self;
        drop(objects);
        drop(names);
        drop(values);
        drop(layers);
        drop(rules);
        drop(wins);
        drop(levels);
    }
}

/// A game, which contracts see as its parts.
#[derive(Drop)]
pub struct Game {
    parts: GameParts,
}

impl Model for Game {
    ghost use Rattle.pz_game.specs.Game.{IsGame};
    ghost use Rattle.pz_game.specs.declared.game.GameParts.{GameParts};

    ghost Value = { GameParts };

    ghost view = { λ g. g.parts };

    ghost invariant = { λ g. IsGame g.parts };
}

impl Game {
    /// The game of these parts.
    pub fn new(parts: GameParts) -> Game
        requires { IsGame parts }
        ensures { result ≡ parts }
    {
        Game { parts }
    }

    /// The names of the objects, in the order of OBJECTS: the first name on each line.
    pub fn objects(&self) -> &[Name]
        ensures objects { result.now ≡ self.now.objects }
        ensures game { IsGame self.now }
    {
        self.parts.objects.items()
    }

    /// The collision layer of each object, counted from 0 in the order of the layers.
    pub fn layers(&self) -> &[usize]
        ensures layers { result.now ≡ self.now.layers }
        ensures game { IsGame self.now }
    {
        self.parts.layers.items()
    }

    /// The number of collision layers.
    pub fn depth(&self) -> usize
        ensures depth { result ≡ self.now.depth }
        ensures game { IsGame self.now }
    {
        self.parts.depth
    }

    /// The lines of RULES, as words.
    pub fn rules(&self) -> &[RuleLine]
        ensures { result.now ≡ self.now.rules }
    {
        self.parts.rules.items()
    }

    /// The lines of WINCONDITIONS.
    pub fn wins(&self) -> &[WinLine]
        ensures { result.now ≡ self.now.wins }
    {
        self.parts.wins.items()
    }

    /// The entries of LEVELS, messages included.
    pub fn levels(&self) -> &[LevelEntry]
        ensures levels { result.now ≡ self.now.levels }
        ensures game { IsGame self.now }
    {
        self.parts.levels.items()
    }

    /// The options that the prelude sets.
    pub fn options(&self) -> Options
        ensures { result ≡ self.now.options }
    {
        self.parts.options
    }

    /// What each name denotes, by its number.
    pub fn values(&self) -> &[Denotation]
        ensures values { result.now ≡ self.now.values }
        ensures game { IsGame self.now }
    {
        self.parts.values.items()
    }

    /// The number of a name, which is looked up among the folded names as it is given. None: there is no such name.
    pub fn number_of(&self, name: &str) -> Option<usize>
        ensures { result ≡ number_in self.now.names name.now }
    {
        self.parts.names.number_of(name)
    }

    /// Whether another game has the same names in the same order.
    pub fn has_names_of(&self, other: &Game) -> bool
        ensures { IsTrue result ↔ (self.now.names ≡ other.now.names) }
    {
        self.parts.names.same(&other.parts.names)
    }

    fn denotation(&self, name: &str) -> Option<&Denotation>
        ensures { option_copied result ≡ denotation_in self.now name.now }
    {
        let number = self.parts.names.number_of(name)?;
        self.parts.values.items().get(number)
    }

    /// The members of a name, by their places among the objects, in the order of first mention. The name is looked up among the
    /// folded names as it is given. None: there is no such name.
    pub fn members(&self, name: &str) -> Option<&[usize]>
        ensures members { option_copied result ≡ option_map (λ d. d.members) (denotation_in self.now name.now) }
        ensures game { IsGame self.now }
    {
        // (brings the proof the law of games)
        let _ = &self.parts;
        match self.denotation(name) {
            Some(denotation) => Some(denotation.members.items()),
            None => None,
        }
    }

    /// The objects that are the player, in the order of first mention.
    pub fn players(&self) -> &[usize]
        ensures players { result.now ≡ players_of self.now }
        ensures game { IsGame self.now }
    {
        match self.members("player") {
            Some(members) => members,
            None => &[],
        }
    }

    /// The kind of a name; None: there is no such name.
    pub fn kind(&self, name: &str) -> Option<Kind>
        ensures { result ≡ option_map (λ d. d.kind) (denotation_in self.now name.now) }
    {
        match self.denotation(name) {
            Some(denotation) => Some(denotation.kind),
            None => None,
        }
    }
}
