//! The page that a description is written on.

ghost use Rattle.std.specs.Prelude.{◌≡◌, ◌++◌, ◌∷◌, [], OnOk, decimal};
ghost use Rattle.json.specs.Print.{print};
ghost use Rattle.json.specs.Token.{begin_array, begin_object, boolean, end_array, end_object, key, null, string};
ghost use Rattle.pz_describe.specs.Values.{line_member, names_array, numeral, text};

use json::Writer;
use pz_base::name::Name;
use std::alloc::{AllocError, Global};
use std::marker::Model;

/// A JSON text that is being written. Contracts see its tokens.
#[derive(Drop)]
pub(crate) struct Page {
    writer: Writer,
}

impl Model for Page {
    ghost use Rattle.std.specs.Prelude.{◌≡◌, List, []};
    ghost use Rattle.json.specs.Token.{Token, tokens_code};

    ghost Value = { List Token };

    ghost coded = { tokens_code };

    ghost view = { λ p. p.writer.tokens };

    ghost invariant = { λ p. p.writer.before ≡ [] };
}

impl Page {
    /// An empty page.
    pub fn new(alloc: Global) -> Page
        ensures { result ≡ [] }
    {
        Page {
            writer: Writer::new(Vec::new(alloc)),
        }
    }

    /// The text.
    pub fn into_text(self) -> Vec<u8>
        ensures { result.items ≡ print self }
    {
        let Page { writer } = self;
        writer.into_inner()
    }

    pub fn begin_object(&mut self) -> Result<(), AllocError>
        ensures { OnOk result (self.new ≡ self.old ++ begin_object ∷ []) }
    {
        self.writer.begin_object()
    }

    pub fn end_object(&mut self) -> Result<(), AllocError>
        ensures { OnOk result (self.new ≡ self.old ++ end_object ∷ []) }
    {
        self.writer.end_object()
    }

    pub fn begin_array(&mut self) -> Result<(), AllocError>
        ensures { OnOk result (self.new ≡ self.old ++ begin_array ∷ []) }
    {
        self.writer.begin_array()
    }

    pub fn end_array(&mut self) -> Result<(), AllocError>
        ensures { OnOk result (self.new ≡ self.old ++ end_array ∷ []) }
    {
        self.writer.end_array()
    }

    pub fn key(&mut self, name: &str) -> Result<(), AllocError>
        ensures { OnOk result (self.new ≡ self.old ++ key name.now ∷ []) }
    {
        self.writer.key(name)
    }

    pub fn null(&mut self) -> Result<(), AllocError>
        ensures { OnOk result (self.new ≡ self.old ++ null ∷ []) }
    {
        self.writer.null()
    }

    pub fn truth(&mut self, truth: bool) -> Result<(), AllocError>
        ensures { OnOk result (self.new ≡ self.old ++ boolean truth ∷ []) }
    {
        self.writer.boolean(truth)
    }

    pub fn number(&mut self, number: u64) -> Result<(), AllocError>
        ensures { OnOk result (self.new ≡ self.old ++ numeral number) }
    {
        self.writer.u64(number)
    }

    pub fn string(&mut self, text: &str) -> Result<(), AllocError>
        ensures { OnOk result (self.new ≡ self.old ++ string text.now ∷ []) }
    {
        self.writer.string(text)
    }

    /// A text of characters.
    pub fn text(&mut self, alloc: Global, characters: &[char]) -> Result<(), AllocError>
        ensures { OnOk result (self.new ≡ self.old ++ text characters.now) }
    {
        let text: String = characters.iter().copied().collect(alloc)?;
        self.string(text.as_str())
    }

    /// The number of a line, as a member.
    pub fn line(&mut self, number: u32) -> Result<(), AllocError>
        ensures { OnOk result (self.new ≡ self.old ++ line_member number) }
    {
        self.key("line")?;
        self.number(number as u64)
    }

    /// A list of names.
    pub fn names(&mut self, names: &[Name]) -> Result<(), AllocError>
        ensures { OnOk result (self.new ≡ self.old ++ names_array names.now) }
    {
        self.begin_array()?;
        for name in names {
            self.string(name.as_str())?;
        }
        self.end_array()
    }
}
