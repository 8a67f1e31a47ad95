//! Numbers below 16, two to a byte.

ghost use Rattle.std.specs.Prelude.{◌≡◌, ◌<◌, ◌≤◌, [], ◌∷◌, ◌++◌, length, take, slice_get, Some, OnOk, OnErr, IfOk};

use std::alloc::{AllocError, Global};
use std::marker::Model;

/// Pairs, the first of each plus 16 times the second, and a number behind them that has no second yet.
pub(crate) struct Pairs {
    bytes: Vec<u8>,
    odd: Option<u8>,
}

/// Written out, so that each place where one goes out of scope is one call.
impl Drop for Pairs {
    fn drop(self) {
        let Pairs { bytes, odd: _ } = self;
        drop(bytes);
    }
}

impl Model for Pairs {
    ghost use Rattle.std.specs.Prelude.{List, ℕ, ◌++◌, ◌<◌};
    ghost use Rattle.std.specs.Option.{ForSome, option_to_list};
    ghost use Rattle.pz_packed.specs.Paired.{bytes_of_numbers};

    ghost Value = { List ℕ };

    ghost view = { λ p. bytes_of_numbers p.bytes.items ++ option_to_list p.odd };

    ghost invariant = { λ p. ForSome p.odd (λ odd. odd < 16) };
}

impl Pairs {
    pub(crate) fn new(alloc: Global) -> Pairs
        ensures { result ≡ [] }
    {
        Pairs {
            bytes: Vec::new(alloc),
            odd: None,
        }
    }

    pub(crate) fn len(&self) -> usize
        ensures { result ≡ length self.now }
    {
        let pairs = 2 * self.bytes.len();
        if self.odd.is_some() { pairs + 1 } else { pairs }
    }

    pub(crate) fn get(&self, index: usize) -> u8
        requires { index < length self.now }
        ensures number { slice_get self.now index ≡ Some result }
        ensures low { result < 16 }
    {
        if index / 2 < self.bytes.len() {
            let byte = self.bytes[index / 2];
            if index % 2 == 0 { byte % 16 } else { byte / 16 }
        } else {
            self.odd.unwrap_or(0)
        }
    }

    /// Adds a number. Err: memory was refused.
    pub(crate) fn push(&mut self, number: u8) -> Result<(), AllocError>
        requires { number < 16 }
        ensures ok { OnOk result (self.new ≡ self.old ++ number ∷ []) }
        ensures err { OnErr result (self.new ≡ self.old) }
    {
        match self.odd {
            Some(first) => {
                self.bytes.push(first + 16 * number)?;
                self.odd = None;
            }
            None => self.odd = Some(number),
        }
        Ok(())
    }

    /// Makes room for more numbers at once. Err: memory was refused.
    pub(crate) fn reserve(&mut self, more: usize) -> Result<(), AllocError>
        ensures { self.new ≡ self.old }
    {
        self.bytes.reserve(more / 2 + 1)
    }

    /// Keeps the first numbers.
    pub(crate) fn truncate(&mut self, len: usize)
        requires { len ≤ length self.old }
        ensures { self.new ≡ take len self.old }
    {
        let odd = if len % 2 == 0 {
            None
        } else {
            Some(self.get(len - 1))
        };
        self.bytes.truncate(len / 2);
        self.odd = odd;
    }

    /// A byte for each number. Err: memory was refused.
    pub(crate) fn to_bytes(&self) -> Result<Vec<u8>, AllocError>
        ensures { IfOk result (λ bytes. bytes.items ≡ self.now) }
    {
        let mut bytes = Vec::with_capacity(*self.bytes.allocator(), self.len())?;
        for index in 0..self.len() {
            bytes.push(self.get(index))?;
        }
        Ok(bytes)
    }
}
