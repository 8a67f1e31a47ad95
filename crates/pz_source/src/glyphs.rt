//! What the glyphs of LEVELS draw.

ghost use Rattle.std.specs.Prelude.{◌≡◌, IfOk, IfSome, option_and_then, slice_get, if◌then◌else◌, Some, None};
ghost use Rattle.pz_source.specs.Levels.{draws, glyph_of};

use pz_base::name::Name;
use pz_base::name_set::NameSet;
use pz_game::denotation::{Denotation, Kind};
use std::alloc::{AllocError, Global};
use std::marker::Model;

/// How many glyphs are remembered at most.
const ROOM: usize = 16;

/// A glyph that draws something, and the number of its name.
#[derive(Clone, Copy)]
struct Met {
    character: char,
    number: usize,
}

/// What each character draws, by the names and what they denote. A glyph is remembered at a place that depends on its code, so that its
/// name is mostly looked up only once.
#[derive(Drop)]
pub(crate) struct Glyphs<'a> {
    names: &'a NameSet,
    values: &'a [Denotation],
    met: [Option<Met>; ROOM],
}

impl<'a> Model for Glyphs<'a> {
    ghost use Rattle.std.specs.Prelude.{◌≡◌, IfSome, Some};
    ghost use Rattle.std.specs.List.{All};
    ghost use Rattle.pz_source.specs.Glyphs.{Drawing};
    ghost use Rattle.pz_source.specs.Levels.{glyph_of};

    ghost Value = { Drawing };

    ghost view = { λ g. record { names = g.names.now; values = g.values.now } };

    ghost invariant = { λ g. All
        (λ slot. IfSome slot (λ met. glyph_of g.names.now g.values.now met.character ≡ Some met.number)) g.met };
}

impl<'a> Glyphs<'a> {
    pub(crate) fn new(names: &'a NameSet, values: &'a [Denotation]) -> Glyphs<'a>
        ensures { result ≡ record { names = names.entry.now; values = values.entry.now } }
    {
        Glyphs {
            names,
            values,
            met: [None; ROOM],
        }
    }

    /// The number of a glyph, if it is remembered.
    fn kept(&self, character: char) -> Option<usize>
        ensures { IfSome result (λ number. glyph_of self.now.names self.now.values character ≡ Some number) }
    {
        let slot = self.met[character as usize % ROOM];
        match slot {
            Some(met) if met.character == character => Some(met.number),
            _ => None,
        }
    }

    fn keep(&mut self, character: char, number: usize)
        requires { glyph_of self.old.names self.old.values character ≡ Some number }
        ensures { self.new ≡ self.old }
    {
        self.met[character as usize % ROOM] = Some(Met { character, number });
    }

    /// The number of the name that a glyph stands for, if it draws something: an object or an aggregate.
    pub(crate) fn number_of(
        &mut self,
        alloc: Global,
        character: char,
    ) -> Result<Option<usize>, AllocError>
        ensures number { IfOk result (λ r. r ≡ glyph_of self.old.names self.old.values character) }
        ensures same { self.new ≡ self.old }
    {
        if let Some(number) = self.kept(character) {
            return Ok(Some(number));
        }
        let found = glyph(alloc, self.names, self.values, character)?;
        if let Some(number) = found {
            self.keep(character, number);
        }
        Ok(found)
    }
}

/// The number of a name, if it is that of an object or an aggregate.
fn drawing(values: &[Denotation], number: usize) -> Option<usize>
    ensures { result ≡ option_and_then (λ d. if draws d.kind then Some number else None) (slice_get values.now number) }
{
    match values.get(number) {
        Some(
            Denotation {
                kind: Kind::Object | Kind::Aggregate,
                ..
            },
        ) => Some(number),
        _ => None,
    }
}

/// The number of the name that a glyph stands for, if it draws something: an object or an aggregate. Rule `levels.glyphs`.
fn glyph(
    alloc: Global,
    names: &NameSet,
    values: &[Denotation],
    character: char,
) -> Result<Option<usize>, AllocError>
    ensures { IfOk result (λ r. r ≡ glyph_of names.now values.now character) }
{
    let name = Name::of_word(alloc, &[character])?;
    match names.number_of(name.as_str()) {
        Some(number) => Ok(drawing(values, number)),
        None => Ok(None),
    }
}
