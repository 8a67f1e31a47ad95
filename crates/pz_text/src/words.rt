//! The words of a line.

ghost use Rattle.std.specs.Prelude.{◌≡◌, IfOk, map};
ghost use Rattle.pz_text.specs.Words.{words, names_of};

use pz_base::listed::Listed;
use pz_base::name::Name;
use std::alloc::{AllocError, Global};

/// The words of a line, separated by white space only. Rule `text.words`.
pub fn words<'a>(alloc: Global, line: &'a [char]) -> Result<Vec<&'a [char]>, AllocError>
    ensures { IfOk result (λ parts. map (λ part. part.now) parts.items ≡ words line.entry.now) }
{
    line.split(|c| c.is_whitespace())
        .filter(|part| !part.is_empty())
        .collect(alloc)
}

/// The words of a line, folded to names.
pub fn names_of(alloc: Global, line: &[char]) -> Result<Listed<Name>, AllocError>
    ensures { IfOk result (λ names. names ≡ names_of line.now) }
{
    let words = words(alloc, line)?;
    let mut names = Vec::new(alloc);
    for word in &words {
        names.push(Name::of_word(alloc, word)?)?;
    }
    Ok(Listed::new(names))
}
