//! Names, as rules, legends and levels give them.

ghost use Rattle.std.specs.Prelude.{◌≡◌, IfOk};
ghost use Rattle.std.specs.Str.{bytes_eq};
ghost use Rattle.pz_base.specs.Name.{name_of};

use std::alloc::{AllocError, Global};
use std::marker::Model;

/// A name, folded to lower case, which contracts see as its bytes.
#[derive(Drop, Debug)]
pub struct Name {
    text: String,
}

impl Model for Name {
    ghost use Rattle.std.specs.Prelude.{List, ℕ, string_bytes};

    ghost Value = { List ℕ };

    ghost view = { λ n. string_bytes n.text };
}

impl Name {
    pub fn as_str(&self) -> &str
        ensures { result.now ≡ self.now }
    {
        self.text.as_str()
    }

    /// The name that a word of the source spells, with its ASCII letters in lower case. Rule `text.folding`.
    pub fn of_word(alloc: Global, word: &[char]) -> Result<Name, AllocError>
        ensures { IfOk result (λ name. name ≡ name_of word.now) }
    {
        let text: String = word.iter().map(|c| c.to_ascii_lowercase()).collect(alloc)?;
        Ok(Name { text })
    }

    pub fn copy(&self, alloc: Global) -> Result<Name, AllocError>
        ensures { IfOk result (λ name. name ≡ self.now) }
    {
        let text = String::from_str(alloc, self.text.as_str())?;
        Ok(Name { text })
    }

    pub fn is(&self, word: &str) -> bool
        ensures { result ≡ bytes_eq self.now word.now }
    {
        self.text.as_str() == word
    }
}
