//! Texts.

use std::alloc::{AllocError, Global};

/// The characters of the text.
pub fn characters(alloc: Global, text: &str) -> Result<Vec<char>, AllocError> {
    text.chars().collect(alloc)
}

/// The text and a character after it.
pub fn longer(alloc: Global, text: &[char], ch: char) -> Result<Vec<char>, AllocError> {
    let mut text = Vec::from_slice(alloc, text)?;
    text.push(ch)?;
    Ok(text)
}

/// Every text of at most so many of these characters, the shorter ones first.
pub fn texts(alloc: Global, letters: &[char], most: usize) -> Result<Vec<Vec<char>>, AllocError> {
    let mut texts = Vec::new(alloc);
    texts.push(Vec::new(alloc))?;
    let mut longest = Vec::new(alloc);
    longest.push(Vec::new(alloc))?;
    for _ in 0..most {
        let mut next = Vec::new(alloc);
        for text in &longest {
            for ch in letters {
                texts.push(longer(alloc, text, *ch)?)?;
                next.push(longer(alloc, text, *ch)?)?;
            }
        }
        longest = next;
    }
    Ok(texts)
}
