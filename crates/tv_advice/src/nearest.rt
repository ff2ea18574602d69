//! The known word that is nearest to one that isn't known.

use std::alloc::{AllocError, Global};
use strsim::osa_distance;

// A longer word is no slip of a short one.
const LONGEST: usize = 24;

/// A word that isn't known.
#[derive(Drop)]
pub struct Unknown {
    // In lower case, so that another case is no edit.
    word: String,
    // The most edits that lead to what was meant.
    most: usize,
}

/// The place of the known word that is nearest so far, and how many edits lead to it.
#[derive(Clone, Copy)]
pub struct Nearest {
    pub place: Option<usize>,
    edits: usize,
}

impl Nearest {
    /// Returns none.
    pub fn none() -> Nearest {
        Nearest {
            place: None,
            edits: usize::MAX,
        }
    }
}

// How many edits a word of so many characters may be away from the one that was meant: a third of them, and not all.
fn most_edits(count: usize) -> usize {
    let third = count.max(3) / 3;
    third.min(count.saturating_sub(1))
}

impl Unknown {
    /// Makes ready to look for what a word was meant to be.
    pub fn new(alloc: Global, word: &str) -> Result<Unknown, AllocError> {
        Ok(Unknown {
            word: word.to_ascii_lowercase(alloc)?,
            most: most_edits(word.len()),
        })
    }

    // Whether so many edits may lead from it to a word of this length.
    fn may_be(&self, word: &str) -> bool {
        let (len, other) = (self.word.len(), word.len());
        len <= LONGEST && len.abs_diff(other) <= self.most
    }

    /// Returns the nearer of the known word at this place and the one that is nearest so far, if it is near at all.
    pub fn compare(
        &self,
        alloc: Global,
        nearest: Nearest,
        place: usize,
        word: &str,
    ) -> Result<Nearest, AllocError> {
        if !self.may_be(word) {
            return Ok(nearest);
        }
        let known = word.to_ascii_lowercase(alloc)?;
        let edits = osa_distance(alloc, &self.word, &known)?;
        if edits <= self.most && edits < nearest.edits {
            Ok(Nearest {
                place: Some(place),
                edits,
            })
        } else {
            Ok(nearest)
        }
    }
}

/// Finds the word of these that is nearest to one that isn't among them, if one is near. Upper and lower case are alike.
pub fn nearest_of<'a>(
    alloc: Global,
    word: &str,
    known: &[&'a str],
) -> Result<Option<&'a str>, AllocError> {
    let unknown = Unknown::new(alloc, word)?;
    let mut nearest = Nearest::none();
    for (place, other) in known.iter().enumerate() {
        nearest = unknown.compare(alloc, nearest, place, other)?;
    }
    Ok(match nearest.place {
        Some(place) => known.get(place).copied(),
        None => None,
    })
}
