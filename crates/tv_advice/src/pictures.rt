//! Where a picture is spelled wrong, and how.

use std::alloc::{AllocError, Global};

/// A character of a picture that can't stand there, by its place, what is said of it, and how to mend it.
#[derive(Clone, Copy, Debug, PartialEq, Eq)]
pub struct Flaw {
    pub place: usize,
    pub label: &'static str,
    pub mend: &'static str,
}

// What waits for more, after some characters.
#[derive(Drop)]
struct Pending {
    // Where the brackets stand that are open, and how each is closed.
    brackets: Vec<Bracket>,
    // Where the `*` stands that repeats what comes next.
    star: Option<usize>,
    // Whether the next character comes behind `;`.
    quoted: bool,
}

#[derive(Clone, Copy)]
struct Bracket {
    place: usize,
    end: char,
}

impl Pending {
    // Reads a character that can stand at this place.
    fn read(&mut self, place: usize, ch: char) -> Result<(), AllocError> {
        if self.quoted {
            self.quoted = false;
            self.star = None;
            return Ok(());
        }
        match ch {
            ';' => self.quoted = true,
            '*' => self.star = Some(place),
            '0'..='9' if self.star.is_some() => {}
            '[' => self.open(place, ']')?,
            '{' => self.open(place, '}')?,
            ']' | '}' => {
                self.brackets.pop();
            }
            _ => self.star = None,
        }
        Ok(())
    }

    fn open(&mut self, place: usize, end: char) -> Result<(), AllocError> {
        self.star = None;
        self.brackets.push(Bracket { place, end })?;
        Ok(())
    }

    // What is wrong where the picture ends after so many characters.
    fn flaw_at_end(&self, count: usize) -> Flaw {
        if self.quoted {
            return Flaw {
                place: count.saturating_sub(1),
                label: "no character stands behind this `;`",
                mend: "write the character that stands for itself behind it",
            };
        }
        if let Some(place) = self.star {
            return Flaw {
                place,
                label: "nothing stands behind this that it could repeat",
                mend: "write what is repeated behind it, or `;*` for the character",
            };
        }
        match self.brackets.last() {
            Some(bracket) if bracket.end == ']' => Flaw {
                place: bracket.place,
                label: "this `[` isn't closed",
                mend: "write `]` where the part ends, or `;[` for the character",
            },
            Some(bracket) => Flaw {
                place: bracket.place,
                label: "this `{` isn't closed",
                mend: "write `}` where the part ends, or `;{` for the character",
            },
            None => Flaw {
                place: count,
                label: "the picture ends too early",
                mend: "write what is missing",
            },
        }
    }

    // What is wrong with a character at this place.
    fn flaw_of(&self, place: usize, ch: char) -> Flaw {
        let (label, mend) = match ch {
            '0'..='9' => (
                "how often a part is repeated is 1 to 120",
                "write a number from 1 to 120, or `;` before the digit",
            ),
            '[' | '{' => (
                "8 brackets are open already",
                "close one before, or write `;` before the character",
            ),
            '*' => (
                "this repeats a `*`",
                "write what is repeated, or `;*` for the character",
            ),
            _ if self.star.is_some() => (
                "what `*` repeats is missing before this",
                "write what is repeated, or `;*` for the character",
            ),
            _ => self.wrong_end(ch),
        };
        Flaw { place, label, mend }
    }

    // What is wrong with a bracket that ends a part.
    fn wrong_end(&self, ch: char) -> (&'static str, &'static str) {
        match (self.brackets.last(), ch) {
            (Some(_), ']') => ("the part that is open begins with `{`", "write `}` here"),
            (Some(_), _) => ("the part that is open begins with `[`", "write `]` here"),
            (None, ']') => (
                "no `[` stands before it that this could close",
                "write `[` where the part begins, or `;]` for the character",
            ),
            (None, _) => (
                "no `{` stands before it that this could close",
                "write `{` where the part begins, or `;}` for the character",
            ),
        }
    }
}

/// Finds what is wrong with a text that is no picture, where some picture begins with so many characters of it, and none with
/// one more.
pub fn find_flaw(alloc: Global, picture: &[char], count: usize) -> Result<Flaw, AllocError> {
    let mut pending = Pending {
        brackets: Vec::new(alloc),
        star: None,
        quoted: false,
    };
    for (place, ch) in picture.iter().take(count).enumerate() {
        pending.read(place, *ch)?;
    }
    Ok(match picture.get(count) {
        Some(ch) => pending.flaw_of(count, *ch),
        None => pending.flaw_at_end(count),
    })
}
