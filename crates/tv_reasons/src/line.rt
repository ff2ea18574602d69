//! A line that a terminal shows below the screen.

ghost use Rattle.std.specs.Prelude.{◌≡◌, ◌≤◌, ◌++◌, [], ◌∷◌, ℕ, List, All, IfSome, OnOk, length, map, take};
ghost use Rattle.std.specs.Str.{chars};
ghost use Rattle.tv_cells.specs.Glyph.{IsNarrow};
ghost use Rattle.tv_reasons.specs.Reasons.{IsAdded, printed};

use arrayvec::ArrayVec;
use std::fmt::{self, Write};
use std::marker::Model;
use tv_cells::is_narrow;

/// At most 132 characters, each of one column. What doesn't fit is cut, and `?` stands for any other character.
#[derive(Debug, Drop)]
pub struct Line {
    chars: ArrayVec<char, 132>,
}

impl Model for Line {
    ghost use Rattle.std.specs.Prelude.{ℕ, List, ◌≤◌, All, length};
    ghost use Rattle.tv_cells.specs.Glyph.{IsNarrow};

    ghost Value = { List ℕ };

    ghost view = { λ l. l.chars.items };

    ghost invariant = { λ l. (length l.chars.items ≤ 132) × All IsNarrow l.chars.items };
}

impl Line {
    /// The most characters of a line: the widest screen has so many columns.
    pub const CAPACITY: usize = 132;

    /// Makes the empty line.
    pub fn new() -> Line
        ensures { result ≡ [] }
    {
        Line {
            chars: ArrayVec::new(),
        }
    }

    /// Returns the characters.
    pub fn as_slice(&self) -> &[char]
        ensures value { result.now ≡ self.now }
        ensures within { length self.now ≤ 132 }
        ensures narrow { All IsNarrow self.now }
    {
        self.chars.as_slice()
    }

    /// Adds characters, as far as there is room.
    pub fn push_all(&mut self, more: &[char])
        ensures { self.new ≡ take 132 (self.old ++ map printed more.now) }
    {
        push_all(&mut self.chars, more);
    }

    /// Adds a text, as far as there is room.
    pub fn push_str(&mut self, more: &str)
        ensures { self.new ≡ take 132 (self.old ++ map printed (chars more.now)) }
    {
        push_str(&mut self.chars, more);
    }

    /// Adds what the value writes, as far as there is room: all that its `output` has, unless it fails.
    pub fn push_shown<D: fmt::Display + Drop>(&mut self, value: D) -> fmt::Result
        ensures added { (more : List ℕ) × (self.new ≡ take 132 (self.old ++ map printed more)) }
        ensures shown { OnOk result (IfSome (D.output value) (λ bytes. IsAdded self.old bytes self.new)) }
    {
        // Written apart: no contract says that a value with no `output` only adds to what a writer has.
        let mut more = Line::new();
        let result = write!(more, "{value}");
        self.push_all(more.as_slice());
        result
    }
}

/// A line takes all that is written, and keeps what there is room for.
impl fmt::Write for Line {
    ghost use Rattle.std.specs.Prelude.{IsOk};
    ghost use Rattle.tv_reasons.specs.Reasons.{IsAdded};

    ghost write_str_gives = { IsAdded };

    fn write_str(&mut self, text: &str) -> fmt::Result
        ensures always { IsOk result }
        ensures added { IsAdded self.old text.now self.new }
    {
        self.push_str(text);
        Ok(())
    }
}

fn push_all(chars: &mut ArrayVec<char, 132>, more: &[char])
    requires { length chars.old.items ≤ 132 }
    ensures { chars.new.items ≡ take 132 (chars.old.items ++ map printed more.now) }
{
    for ch in more {
        push(chars, *ch);
    }
}

fn push_str(line: &mut ArrayVec<char, 132>, more: &str)
    requires { length line.old.items ≤ 132 }
    ensures { line.new.items ≡ take 132 (line.old.items ++ map printed (chars more.now)) }
{
    for ch in more.chars() {
        push(line, ch);
    }
}

fn push(chars: &mut ArrayVec<char, 132>, ch: char)
    ensures { chars.new.items ≡ take 132 (chars.old.items ++ printed ch ∷ []) }
{
    if !chars.is_full() {
        chars.push(printed(ch));
    }
}

/// Returns the character, or `?` where it doesn't take one column.
pub(crate) fn printed(ch: char) -> char
    ensures { result ≡ printed ch }
{
    if is_narrow(ch) { ch } else { '?' }
}
