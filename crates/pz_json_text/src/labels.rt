//! The labels of cells: different texts, each with a number.

ghost use Rattle.std.specs.Prelude.{◌≡◌, ◌<◌, ◌^◌, ◌++◌, ◌∷◌, [], length, false, IfOk, OnOk, take, string_bytes};
ghost use Rattle.pz_base.specs.NameSet.{is_name_of, number_in};
ghost use Rattle.pz_json_text.specs.Labels.{AreDistinct, text_at};

use crate::quoted::QuotedText;
use indexmap::IndexSet;
use std::alloc::{AllocError, Global};
use std::marker::Model;

/// Different texts of cells, by their numbers. The same texts are also kept quoted, because each is written many times.
pub struct KnownTexts {
    texts: IndexSet<String>,
    quoted: Vec<QuotedText>,
}

/// Written out: where they go out of scope, the prover then sees one call, in other crates too.
impl Drop for KnownTexts {
    fn drop(self) {
        let KnownTexts { texts, quoted } = self;
        drop(texts);
        drop(quoted);
    }
}

impl Model for KnownTexts {
    ghost use Rattle.std.specs.Prelude.{◌≡◌, List, ℕ, map, string_bytes};
    ghost use Rattle.pz_json_text.specs.Labels.{AreDistinct};

    ghost Value = { List (List ℕ) };

    ghost view = { λ n. map string_bytes n.texts.keys };

    ghost invariant = { λ n. AreDistinct (map string_bytes n.texts.keys) ×
        (n.quoted.items ≡ map string_bytes n.texts.keys) };
}

impl KnownTexts {
    /// No text is known.
    pub fn new(alloc: Global) -> KnownTexts
        ensures { result ≡ [] }
    {
        KnownTexts {
            texts: IndexSet::new(alloc),
            quoted: Vec::new(alloc),
        }
    }

    pub(crate) fn len(&self) -> usize
        ensures count { result ≡ length self.now }
        ensures small { result < 2 ^ 63 }
        ensures distinct { AreDistinct self.now }
    {
        self.texts.len()
    }

    /// The text of a label.
    pub(crate) fn text(&self, label: usize) -> &str
        requires { label < length self.now }
        ensures { result.now ≡ text_at self.now label }
    {
        match self.texts.get_index(label) {
            Some(text) => text.as_str(),
            None => "",
        }
    }

    /// The text of a label, quoted.
    pub(crate) fn quoted(&self, label: usize) -> &QuotedText
        requires { label < length self.now }
        ensures text { result.now ≡ text_at self.now label }
        ensures distinct { AreDistinct self.now }
    {
        &self.quoted[label]
    }

    /// The label of a text, if it is known.
    fn number_of(&self, text: &str) -> Option<usize>
        ensures { result ≡ number_in self.now text.now }
    {
        self.texts.get_index_of(text)
    }

    /// Adds a new text after the others. Err: memory was refused.
    fn add(&mut self, alloc: Global, text: String) -> Result<(), AllocError>
        requires { is_name_of self.old (string_bytes text) ≡ false }
        ensures added { OnOk result (self.new ≡ self.old ++ string_bytes text ∷ []) }
        ensures kept { take (length self.old) self.new ≡ self.old }
    {
        let quoted = QuotedText::of_str(alloc, text.as_str())?;
        self.quoted.reserve(1)?;
        self.texts.insert(text)?;
        self.quoted.push_reserved(quoted);
        Ok(())
    }

    /// The label of a text. A new text is added after the others. Err: memory was refused. The texts known before always keep their labels.
    pub fn label_of(&mut self, alloc: Global, text: String) -> Result<usize, AllocError>
        ensures label { IfOk result
            (λ label. (label < length self.new) × (text_at self.new label ≡ string_bytes text)) }
        ensures kept { take (length self.old) self.new ≡ self.old }
    {
        match self.number_of(text.as_str()) {
            Some(label) => Ok(label),
            None => {
                let label = self.len();
                self.add(alloc, text)?;
                Ok(label)
            }
        }
    }
}
