//! A shortest text that an input takes.

use std::alloc::{AllocError, Global};
use tv_valid::{DomainSpec, InputSpec, Text};

/// A text of more characters is no input's.
const MOST: usize = 120;

/// How often the next part of a picture comes.
#[derive(Clone, Copy)]
enum Repeat {
    Once,
    Many,
    Times(u8),
}

/// What stands between two brackets of a picture: the shortest text of the alternatives so far, and of the one that is read.
#[derive(Drop)]
struct Level {
    shortest: Option<Vec<char>>,
    text: Vec<char>,
    repeat: Repeat,
}

impl Level {
    fn new(alloc: Global) -> Level {
        Level {
            shortest: None,
            text: Vec::new(alloc),
            repeat: Repeat::Once,
        }
    }

    // A part of the picture has this shortest text.
    fn add(&mut self, part: &[char]) -> Result<(), AllocError> {
        let times = match self.repeat {
            Repeat::Once => 1,
            Repeat::Many => 0,
            Repeat::Times(times) => times,
        };
        for _ in 0..times {
            if self.text.len() > MOST {
                break;
            }
            self.text.extend_from_slice(part)?;
        }
        self.repeat = Repeat::Once;
        Ok(())
    }

    // An alternative is read.
    fn divide(&mut self, alloc: Global) {
        let text = std::mem::replace(&mut self.text, Vec::new(alloc));
        let is_shorter = match &self.shortest {
            Some(shortest) => text.len() < shortest.len(),
            None => true,
        };
        if is_shorter {
            self.shortest = Some(text);
        }
    }

    fn digit(&mut self, ch: char, digit: u8) -> Result<(), AllocError> {
        match self.repeat {
            Repeat::Once => self.add(&[ch]),
            Repeat::Many => {
                self.repeat = Repeat::Times(digit);
                Ok(())
            }
            Repeat::Times(times) => {
                let times = times.saturating_mul(10).saturating_add(digit);
                self.repeat = Repeat::Times(times);
                Ok(())
            }
        }
    }

    // The shortest text of all alternatives.
    fn into_shortest(mut self, alloc: Global) -> Vec<char> {
        self.divide(alloc);
        let Level { shortest, .. } = self;
        match shortest {
            Some(text) => text,
            None => Vec::new(alloc),
        }
    }
}

/// A picture while it is read from the left.
#[derive(Drop)]
struct Reading {
    /// What stands around the brackets that are open, the outermost first.
    around: Vec<Level>,
    level: Level,
    /// Whether the next character comes after `;`.
    is_quoted: bool,
}

impl Reading {
    fn open(&mut self, alloc: Global) -> Result<(), AllocError> {
        let level = std::mem::replace(&mut self.level, Level::new(alloc));
        self.around.push(level)?;
        Ok(())
    }

    // Ends brackets, whose part may be left out if they are square.
    fn close(&mut self, alloc: Global, is_optional: bool) -> Result<(), AllocError> {
        let Some(around) = self.around.pop() else {
            return Ok(());
        };
        let inner = std::mem::replace(&mut self.level, around);
        let text = inner.into_shortest(alloc);
        if is_optional {
            self.level.add(&[])
        } else {
            self.level.add(&text)
        }
    }

    fn take(&mut self, alloc: Global, ch: char) -> Result<(), AllocError> {
        if self.is_quoted {
            self.is_quoted = false;
            return self.level.add(&[ch]);
        }
        match ch {
            '#' => self.level.add(&['0']),
            '?' | '@' => self.level.add(&['a']),
            '&' | '!' => self.level.add(&['A']),
            ';' => {
                self.is_quoted = true;
                Ok(())
            }
            '*' => {
                self.level.repeat = Repeat::Many;
                Ok(())
            }
            '[' | '{' => self.open(alloc),
            ']' => self.close(alloc, true),
            '}' => self.close(alloc, false),
            ',' => {
                self.level.divide(alloc);
                Ok(())
            }
            '0'..='9' => self.level.digit(ch, (ch as u32 - 48) as u8),
            _ => self.level.add(&[ch]),
        }
    }
}

// A shortest text of the picture.
fn of_picture(alloc: Global, picture: &[char]) -> Result<Vec<char>, AllocError> {
    let mut reading = Reading {
        around: Vec::new(alloc),
        level: Level::new(alloc),
        is_quoted: false,
    };
    for ch in picture {
        reading.take(alloc, *ch)?;
    }
    let Reading { level, .. } = reading;
    Ok(level.into_shortest(alloc))
}

// The digits of the number between both that is nearest to 0.
fn of_range(alloc: Global, least: i32, greatest: i32) -> Result<Vec<char>, AllocError> {
    let number = if least > 0 {
        least
    } else if greatest < 0 {
        greatest
    } else {
        0
    };
    let digits = format!(in alloc; "{number}")?;
    digits.as_str().chars().collect(alloc)
}

/// Returns a short text that lies in the domain: none where the empty one does, the number nearest to 0, or a shortest text
/// of the picture.
pub(crate) fn member(alloc: Global, spec: &InputSpec) -> Result<Vec<char>, AllocError> {
    if spec.optional {
        return Ok(Vec::new(alloc));
    }
    match &spec.domain {
        DomainSpec::Any | DomainSpec::Filter(_) => Ok(Vec::new(alloc)),
        DomainSpec::Range { least, greatest } => of_range(alloc, *least, *greatest),
        DomainSpec::Picture(picture) => of_picture(alloc, picture.as_slice()),
    }
}
