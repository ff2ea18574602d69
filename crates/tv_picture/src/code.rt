//! A picture as code for a machine with a stack.

ghost use Rattle.std.specs.Prelude.{◌↔◌, IsTrue};
ghost use Rattle.tv_picture.specs.Pattern.{Allows};
ghost use Rattle.tv_picture.specs.Table.{NamesNext};

use crate::row::Next;

/// The most patterns that stand on the stack at once.
pub const HEIGHT: usize = 20;

/// What one character of a text may be.
#[derive(Clone, Copy, Debug, PartialEq, Eq)]
pub enum Mark {
    /// `#`, one of `0` to `9`.
    Digit,
    /// `?`, an ASCII letter.
    Letter,
    /// `&`, one of `A` to `Z`.
    Capital,
    /// `@`, any character.
    Any,
    /// `!`, any character but `a` to `z`.
    NotLower,
    /// A character that stands for itself.
    Literal(char),
    /// The character after `;`.
    Quoted(char),
}

impl Mark {
    /// Whether it stands for the character.
    pub fn allows(self, ch: char) -> bool
        ensures { IsTrue result ↔ Allows self ch }
    {
        match self {
            Mark::Digit => ch.is_ascii_digit(),
            Mark::Letter => ch.is_ascii_alphabetic(),
            Mark::Capital => ch.is_ascii_uppercase(),
            Mark::Any => true,
            Mark::NotLower => !ch.is_ascii_lowercase(),
            Mark::Literal(own) | Mark::Quoted(own) => ch == own,
        }
    }

    /// Returns the characters that it stands for.
    pub fn next(self) -> Next
        ensures { NamesNext (Allows self) result }
    {
        match self {
            Mark::Literal(own) | Mark::Quoted(own) => Next::Only(own),
            _ => Next::Several,
        }
    }
}

/// An operation over a stack of patterns. The parts of a pattern come before what joins them.
#[derive(Clone, Copy, Debug, PartialEq, Eq)]
pub enum Op {
    /// Puts the empty sequence on the stack.
    Empty,
    /// Puts one character on the stack.
    One(Mark),
    /// Joins the two on top, one after the other.
    Sequence,
    /// Joins the two on top as alternatives.
    Either,
    /// Makes the one on top optional.
    Optional,
    /// Puts the one on top between braces.
    Group,
    /// Repeats the one on top any number of times.
    Many,
    /// Repeats the one on top so many times.
    Times(u8),
}
