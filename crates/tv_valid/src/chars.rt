//! Characters of any number.

ghost use Rattle.std.specs.Prelude.{◌≡◌, ◌↔◌, IfOk, IsTrue};

use crate::sequence::Sequence;
use std::alloc::{AllocError, Global};

/// A quoted text of a description, of any length. Contracts see the list of its characters.
pub type Chars = Sequence<char>;

impl Sequence<char> {
    /// Makes a text of copies of these characters.
    pub fn from_slice(alloc: Global, chars: &[char]) -> Result<Chars, AllocError>
        ensures { IfOk result (λ copy. copy ≡ chars.now) }
    {
        Ok(Sequence::from_vec(Vec::from_slice(alloc, chars)?))
    }

    /// Copies the characters.
    pub fn copy(&self, alloc: Global) -> Result<Chars, AllocError>
        ensures { IfOk result (λ copy. copy ≡ self.now) }
    {
        Chars::from_slice(alloc, self.as_slice())
    }

    /// Whether these are the same characters.
    pub fn is(&self, other: &Chars) -> bool
        ensures { IsTrue result ↔ (self.now ≡ other.now) }
    {
        self.as_slice() == other.as_slice()
    }
}
