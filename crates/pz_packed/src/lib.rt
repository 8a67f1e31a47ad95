//! Numbers one behind another, packed as small as the largest of them allows: two to a byte while all are below 16, a byte each while
//! all are below 256, else four bytes each.
#![tactic(auto)]

ghost use Rattle.std.specs.Prelude.{◌≡◌, ◌+◌, ◌<◌, ◌≤◌, ◌↔◌, [], ◌∷◌, ◌++◌, length, take, drop, slice_get, Some, OnOk, OnErr, IsTrue};

use std::alloc::{AllocError, Global};
use std::marker::Model;

mod form;
mod pairs;
#[cfg(test)]
mod tests;

use form::Form;
use pairs::Pairs;

/// Numbers in order. A number that doesn't fit has all of them packed anew.
pub struct Packed {
    form: Form,
}

/// Written out, so that each place where one goes out of scope is one call.
impl Drop for Packed {
    fn drop(self) {
        let Packed { form } = self;
        drop(form);
    }
}

impl Model for Packed {
    ghost use Rattle.std.specs.Prelude.{List, ℕ};

    ghost Value = { List ℕ };

    ghost use Rattle.pz_packed.specs.Form.{numbers_of};

    ghost view = { λ p. numbers_of p.form };
}

impl Packed {
    /// No numbers, and no memory.
    pub fn new(alloc: Global) -> Packed
        ensures { result ≡ [] }
    {
        Packed {
            form: Form::Pairs(Pairs::new(alloc)),
        }
    }

    /// How many numbers there are.
    pub fn len(&self) -> usize
        ensures { result ≡ length self.now }
    {
        match &self.form {
            Form::Pairs(pairs) => pairs.len(),
            Form::Bytes(bytes) => bytes.len(),
            Form::Words(words) => words.len(),
        }
    }

    /// The number at a place, counted from 0.
    pub fn get(&self, index: usize) -> u32
        requires { index < length self.now }
        ensures { slice_get self.now index ≡ Some result }
    {
        match &self.form {
            Form::Pairs(pairs) => u32::from(pairs.get(index)),
            Form::Bytes(bytes) => u32::from(bytes[index]),
            Form::Words(words) => words[index],
        }
    }

    /// Adds a number. Err: memory was refused.
    pub fn push(&mut self, number: u32) -> Result<(), AllocError>
        ensures ok { OnOk result (self.new ≡ self.old ++ number ∷ []) }
        ensures err { OnErr result (self.new ≡ self.old) }
    {
        self.form.widen(number)?;
        match &mut self.form {
            Form::Pairs(pairs) => pairs.push(number as u8)?,
            Form::Bytes(bytes) => bytes.push(number as u8)?,
            Form::Words(words) => words.push(number)?,
        }
        Ok(())
    }

    /// Adds all numbers, or none. Err: memory was refused.
    pub fn extend(&mut self, numbers: &[u32]) -> Result<(), AllocError>
        ensures ok { OnOk result (self.new ≡ self.old ++ numbers.now) }
        ensures err { OnErr result (self.new ≡ self.old) }
    {
        self.reserve(numbers.len())?;
        let len = self.len();
        for number in numbers {
            if self.push(*number).is_err() {
                self.truncate(len);
                return Err(AllocError);
            }
        }
        Ok(())
    }

    /// Makes room for more numbers at once. Err: memory was refused.
    fn reserve(&mut self, more: usize) -> Result<(), AllocError>
        ensures { self.new ≡ self.old }
    {
        match &mut self.form {
            Form::Pairs(pairs) => pairs.reserve(more),
            Form::Bytes(bytes) => bytes.reserve(more),
            Form::Words(words) => words.reserve(more),
        }
    }

    /// Keeps the first numbers.
    pub fn truncate(&mut self, len: usize)
        requires { len ≤ length self.old }
        ensures { self.new ≡ take len self.old }
    {
        match &mut self.form {
            Form::Pairs(pairs) => pairs.truncate(len),
            Form::Bytes(bytes) => bytes.truncate(len),
            Form::Words(words) => words.truncate(len),
        }
    }

    /// Whether these numbers stand there.
    pub fn has_at(&self, from: usize, numbers: &[u32]) -> bool
        requires { from + length numbers.now ≤ length self.now }
        ensures { IsTrue result ↔ (take (length numbers.now) (drop from self.now) ≡ numbers.now) }
    {
        // (brings the proof how many there may be)
        let _ = self.len();
        for index in 0..numbers.len() {
            if self.get(from + index) != numbers[index] {
                return false;
            }
        }
        true
    }
}
