//! Texts, each once.

ghost use Rattle.std.specs.Prelude.{◌≡◌, ◌<◌, ◌++◌, ◌∷◌, [], OnOk, false, length, slice_index_or};
ghost use Rattle.pz_base.specs.NameSet.{is_name_of, number_in};
ghost use Rattle.pz_describe.specs.Recordings.{place_in};
ghost use Rattle.pz_describe.specs.Values.{names_array};
ghost use Rattle.pz_json_text.specs.CellTexts.{with_cell};

use crate::page::Page;
use indexmap::IndexSet;
use std::alloc::{AllocError, Global};
use std::marker::Model;

/// Texts of which none stands twice, in the order in which they came. Contracts see that list.
pub(crate) struct Distinct {
    texts: IndexSet<String>,
}

/// Written out: where they go out of scope, the prover then sees one call.
impl Drop for Distinct {
    fn drop(self) {
        let Distinct { texts } = self;
        drop(texts);
    }
}

impl Model for Distinct {
    ghost use Rattle.std.specs.Prelude.{List, ℕ, map, string_bytes};

    ghost Value = { List (List ℕ) };

    ghost view = { λ d. map string_bytes d.texts.keys };
}

impl Distinct {
    /// No text.
    pub fn new(alloc: Global) -> Distinct
        ensures { result ≡ [] }
    {
        Distinct {
            texts: IndexSet::new(alloc),
        }
    }

    /// The place of a text, or none.
    fn find(&self, text: &str) -> Option<usize>
        ensures { result ≡ number_in self.now text.now }
    {
        self.texts.get_index_of(text)
    }

    /// Adds a text behind the others.
    fn push(&mut self, alloc: Global, text: &str) -> Result<(), AllocError>
        requires { is_name_of self.old text.now ≡ false }
        ensures { OnOk result (self.new ≡ self.old ++ text.now ∷ []) }
    {
        let copy = String::from_str(alloc, text)?;
        self.texts.insert(copy)?;
        Ok(())
    }

    /// Adds a text behind the others, if it is new.
    #[tactic(auto, unfolding(pz_json_text::specs::CellTexts::with_cell))]
    pub fn add(&mut self, alloc: Global, text: &str) -> Result<(), AllocError>
        ensures { OnOk result (self.new ≡ with_cell self.old text.now) }
    {
        match self.find(text) {
            Some(_) => Ok(()),
            None => self.push(alloc, text),
        }
    }

    /// The place of a text among them; 0 of a text that is not among them.
    pub fn place_of(&self, text: &str) -> usize
        ensures { result ≡ place_in self.now text.now }
    {
        match self.find(text) {
            Some(place) => place,
            None => 0,
        }
    }

    /// How many they are.
    fn len(&self) -> usize
        ensures { result ≡ length self.now }
    {
        self.texts.len()
    }

    /// The text at a place.
    fn text(&self, place: usize) -> &str
        requires { place < length self.now }
        ensures { result.now ≡ slice_index_or self.now place [] }
    {
        match self.texts.get_index(place) {
            Some(text) => text.as_str(),
            None => "",
        }
    }

    /// Puts the texts on a page, as a list.
    pub fn put(&self, page: &mut Page) -> Result<(), AllocError>
        ensures { OnOk result (page.new ≡ page.old ++ names_array self.now) }
    {
        page.begin_array()?;
        for place in 0..self.len() {
            page.string(self.text(place))?;
        }
        page.end_array()
    }
}
