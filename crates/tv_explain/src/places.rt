//! The place of each line of the canonical text in the user's own text.

ghost use Rattle.std.specs.Prelude.{◌≡◌, ◌≤◌, ◌++◌, length, IfOk, OnOk, Some, slice_index};
ghost use Rattle.tv_explain.specs.Places.{StandAtTheirPlaces, are_words, places_of, said, says_something};

use std::alloc::{AllocError, Global};
use std::marker::Model;
use tv_model::Desc;
use tv_words::{Lines, Word, words_of};

/// The places of the lines of a canonical text in the text that was read. Contracts see their numbers, after a 0.
#[derive(Drop)]
pub struct Places {
    numbers: Vec<usize>,
}

impl Model for Places {
    ghost use Rattle.std.specs.Prelude.{List, ℕ};

    ghost Value = { List ℕ };

    ghost view = { λ places. places.numbers.items };
}

// Whether there are words.
fn are_words(words: &[Word]) -> bool
    ensures { result ≡ are_words (Some words.now) }
{
    !words.is_empty()
}

// Whether a line has words: empty lines and comments have none.
fn says_something(alloc: Global, line: &[u8]) -> Result<bool, AllocError>
    ensures { IfOk result (λ says. says ≡ says_something line.now) }
{
    let Some(list) = words_of(alloc, line)? else {
        return Ok(false);
    };
    let words = list.as_slice();
    Ok(are_words(words))
}

// Adds the number of a line that says something.
fn note(
    alloc: Global,
    numbers: &mut Vec<usize>,
    line: &[u8],
    number: usize,
) -> Result<(), AllocError>
    ensures { OnOk result (numbers.new.items ≡ numbers.old.items ++ said number line.now) }
{
    if says_something(alloc, line)? {
        numbers.push(number)?;
    }
    Ok(())
}

impl Places {
    /// Counts the lines of a text that say something.
    pub fn new(alloc: Global, text: &[u8]) -> Result<Places, AllocError>
        requires { length text.now ≤ 262144 }
        ensures { IfOk result (λ places. places ≡ places_of text.now) }
    {
        let mut numbers = Vec::new(alloc);
        numbers.push(0)?;
        let mut number = 1;
        for line in Lines::new(text) {
            note(alloc, &mut numbers, line, number)?;
            number += 1;
        }
        Ok(Places { numbers })
    }

    /// Returns the number of the line of the text that says this line of the canonical text, or 0.
    pub fn place(&self, line: u32) -> usize
        ensures { result ≡ slice_index self.now line }
    {
        self.numbers.get(line as usize).copied().unwrap_or(0)
    }
}

/// A theorem, as a function without a body: where a text spells the description, the line whose number `place` gives
/// spells that line of the canonical text.
pub fn lines_stand_at_their_places(_desc: &Desc)
    ensures { StandAtTheirPlaces _desc.now }
{}
