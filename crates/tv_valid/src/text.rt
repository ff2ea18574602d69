//! The text of an input.

ghost use Rattle.std.specs.Prelude.{◌≡◌, ◌+◌, ◌<◌, ◌≤◌, ◌↔◌, [], ◌∷◌, ◌++◌, length, insert, remove, slice_get, Some, IsTrue, IsSome, IfSome};

use arrayvec::ArrayVec;
use std::marker::Model;

/// At most 120 characters.
#[derive(Drop, Debug)]
pub struct Text {
    chars: ArrayVec<char, 120>,
}

impl Model for Text {
    ghost use Rattle.std.specs.Prelude.{ℕ, List, ◌≤◌, length};

    ghost Value = { List ℕ };

    ghost view = { λ t. t.chars.items };

    ghost invariant = { λ t. length t.chars.items ≤ 120 };
}

/// Two texts are equal where they have the same characters.
impl PartialEq for Text {
    ghost use Rattle.std.specs.Prelude.{nat_eq};
    ghost use Rattle.std.specs.Cmp.{on_per, partial_equiv_from_equiv};
    ghost use Rattle.std.specs.Cmp.Lexicographic.{nat_list_eq_equiv, pointwise};

    ghost eq = { λ a b. pointwise nat_eq a b };

    ghost laws = { on_per (λ t. t) (partial_equiv_from_equiv nat_list_eq_equiv) };

    fn eq(&self, other: &Text) -> bool {
        self.chars == other.chars
    }
}

impl Text {
    /// The most characters of a text.
    pub const CAPACITY: usize = 120;

    /// Makes the empty text.
    pub fn new() -> Text
        ensures { result ≡ [] }
    {
        Text {
            chars: ArrayVec::new(),
        }
    }

    /// Makes a text of these characters, or returns `None` where there are more than 120.
    pub fn from_chars(chars: &[char]) -> Option<Text>
        ensures variant { IsSome result ↔ (length chars.now ≤ 120) }
        ensures value { IfSome result (λ text. text ≡ chars.now) }
    {
        match ArrayVec::try_from(chars) {
            Ok(chars) => Some(Text { chars }),
            Err(_) => None,
        }
    }

    /// Copies the text.
    pub fn copy(&self) -> Text
        ensures { result ≡ self.now }
    {
        let chars = ArrayVec::try_from(self.chars.as_slice()).unwrap();
        Text { chars }
    }

    pub fn len(&self) -> usize
        ensures value { result ≡ length self.now }
        ensures within { length self.now ≤ 120 }
    {
        self.chars.len()
    }

    pub fn is_empty(&self) -> bool
        ensures { IsTrue result ↔ (self.now ≡ []) }
    {
        self.chars.is_empty()
    }

    pub fn is_full(&self) -> bool
        ensures full { IsTrue result ↔ (length self.now ≡ 120) }
        ensures within { length self.now ≤ 120 }
    {
        self.chars.is_full()
    }

    pub fn as_slice(&self) -> &[char]
        ensures value { result.now ≡ self.now }
        ensures within { length result.now ≤ 120 }
    {
        self.chars.as_slice()
    }

    /// Adds a character at the end.
    pub fn push(&mut self, ch: char)
        requires { length self.old < 120 }
        ensures { self.new ≡ self.old ++ ch ∷ [] }
    {
        self.chars.push(ch);
    }

    /// Inserts a character before the one at `at`.
    pub fn insert(&mut self, at: usize, ch: char)
        requires in_bounds { at ≤ length self.old }
        requires room { length self.old < 120 }
        ensures { self.new ≡ insert self.old at ch }
    {
        self.chars.insert(at, ch);
    }

    /// Removes the character at `at`, and returns it.
    pub fn remove(&mut self, at: usize) -> char
        requires { at < length self.old }
        ensures text { self.new ≡ remove self.old at }
        ensures taken { slice_get self.old at ≡ Some result }
    {
        self.chars.remove(at)
    }

    pub fn clear(&mut self)
        ensures { self.new ≡ [] }
    {
        self.chars.clear();
    }
}
