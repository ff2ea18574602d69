//! What is known of a pattern from one place of a text on.

ghost use Rattle.std.specs.Prelude.{◌≡◌, ◌↔◌, ◌≤◌, ◌⊎◌, ℕ, IsTrue, length};
ghost use Rattle.tv_picture.specs.Pattern.{Pattern, sequence, one, many};
ghost use Rattle.tv_picture.specs.Table.{HasPlace, IsTableRow, either_next};

use crate::code::Mark;
use crate::places::Places;

/// The characters that may follow a text.
#[derive(Clone, Copy, PartialEq, Eq)]
pub enum Next {
    Nothing,
    Only(char),
    Several,
}

impl Next {
    /// Returns the characters of either.
    #[inline(always)]
    pub fn join(self, other: Next) -> Next
        ensures { result ≡ either_next self other }
    {
        match (self, other) {
            (Next::Nothing, next) | (next, Next::Nothing) => next,
            (Next::Only(a), Next::Only(b)) if a == b => Next::Only(a),
            _ => Next::Several,
        }
    }
}

/// From one place on: where a member can end, and what may follow the end of the text inside one.
#[derive(Clone, Copy, PartialEq, Eq)]
pub struct Row {
    pub ends: Places,
    pub next: Next,
}

impl Row {
    pub const NONE: Row = Row {
        ends: Places::NONE,
        next: Next::Nothing,
    };

    /// Returns only what may follow, without the ends.
    #[inline(always)]
    pub fn unended(self) -> Row
        ensures { result ≡ record { ends = record { bits = 0 }; next = self.next } }
    {
        Row {
            ends: Places::NONE,
            next: self.next,
        }
    }

    /// Returns the row from the text's first place on of a sequence: what has this row there, then one character.
    pub fn append(self, mark: Mark, text: &[char]) -> Row
        requires { length text.now ≤ 120 }
        ensures { (a : Pattern) → IsTableRow a text.now 0 self → IsTableRow (sequence a (one mark)) text.now 0 result }
    {
        Row {
            ends: self.ends.after(mark, text),
            next: if self.ends.has(text.len()) {
                self.next.join(mark.next())
            } else {
                self.next
            },
        }
    }

    /// Returns the row from the text's first place on of a sequence: what has this row there, then one character any number of
    /// times.
    pub fn append_many(self, mark: Mark, text: &[char]) -> Row
        requires { length text.now ≤ 120 }
        ensures { (a : Pattern) → IsTableRow a text.now 0 self → IsTableRow (sequence a (many (one mark))) text.now 0 result }
    {
        let ends = self.ends.spread(mark, text);
        Row {
            ends,
            next: if ends.has(text.len()) {
                self.next.join(mark.next())
            } else {
                self.next
            },
        }
    }

    #[inline(always)]
    pub fn is(self, other: Row) -> bool
        ensures { IsTrue result → self ≡ other }
    {
        self == other
    }

    /// Returns what either row has.
    #[inline(always)]
    pub fn join(self, other: Row) -> Row
        ensures ends { (k : ℕ) → HasPlace result.ends k ↔ (HasPlace self.ends k ⊎ HasPlace other.ends k) }
        ensures next { result.next ≡ either_next self.next other.next }
    {
        Row {
            ends: self.ends.union(other.ends),
            next: self.next.join(other.next),
        }
    }
}
