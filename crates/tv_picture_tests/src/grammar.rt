//! Every short picture, made by the rules of the grammar.

use crate::tree::{Mark, Tree, spell};
use std::alloc::{AllocError, Global};

/// The most characters of a picture.
pub const PICTURE: usize = 4;

/// What the pictures are written with.
pub static WRITTEN: [char; 10] = ['#', 'a', '*', '[', ']', '{', '}', ',', '2', ';'];

/// A picture and how it is written.
#[derive(Drop)]
pub struct Made {
    pub tree: Tree,
    pub text: Vec<char>,
}

/// What the rules have made so far.
#[derive(Drop)]
struct Grammar {
    bases: Vec<Made>,
    elements: Vec<Made>,
    sequences: Vec<Made>,
    alternatives: Vec<Made>,
}

impl Made {
    fn new(alloc: Global, tree: Tree) -> Result<Made, AllocError> {
        let mut text = Vec::new(alloc);
        spell(&tree, &mut text)?;
        Ok(Made { tree, text })
    }

    fn part(&self, alloc: Global) -> Result<Box<Tree>, AllocError> {
        Ok(Box::new(alloc, self.tree.clone()?)?)
    }

    fn same(&self, alloc: Global) -> Result<Made, AllocError> {
        Made::new(alloc, self.tree.clone()?)
    }

    fn then(&self, alloc: Global, next: &Made) -> Result<Made, AllocError> {
        Made::new(alloc, Tree::Sequence(self.part(alloc)?, next.part(alloc)?))
    }

    fn or(&self, alloc: Global, other: &Made) -> Result<Made, AllocError> {
        Made::new(alloc, Tree::Either(self.part(alloc)?, other.part(alloc)?))
    }

    fn times(&self, alloc: Global, count: u8) -> Result<Made, AllocError> {
        Made::new(alloc, Tree::Times(count, self.part(alloc)?))
    }

    /// Whether it is a digit that stands for itself, which `*` doesn't repeat.
    fn is_digit(&self) -> bool {
        self.text.as_slice() == ['2'].as_slice()
    }

    /// Whether so many characters more make this length.
    fn lacks(&self, len: usize, more: usize) -> bool {
        len.checked_sub(more) == Some(self.text.len())
    }
}

impl Grammar {
    fn add_marks(&mut self, alloc: Global) -> Result<(), AllocError> {
        for mark in [Mark::Digit, Mark::Literal('a'), Mark::Literal('2')] {
            self.bases.push(Made::new(alloc, Tree::One(mark))?)?;
        }
        for ch in &WRITTEN {
            let quoted = Tree::One(Mark::Quoted(*ch));
            self.bases.push(Made::new(alloc, quoted)?)?;
        }
        Ok(())
    }

    /// Makes what has so many characters from what has fewer.
    fn add(&mut self, alloc: Global, len: usize) -> Result<(), AllocError> {
        self.add_bases(alloc, len)?;
        self.add_elements(alloc, len)?;
        self.add_sequences(alloc, len)?;
        self.add_alternatives(alloc, len)
    }

    fn add_bases(&mut self, alloc: Global, len: usize) -> Result<(), AllocError> {
        for inner in &self.alternatives {
            if inner.lacks(len, 2) {
                let optional = Tree::Optional(inner.part(alloc)?);
                self.bases.push(Made::new(alloc, optional)?)?;
                let group = Tree::Group(inner.part(alloc)?);
                self.bases.push(Made::new(alloc, group)?)?;
            }
        }
        Ok(())
    }

    fn add_elements(&mut self, alloc: Global, len: usize) -> Result<(), AllocError> {
        for base in &self.bases {
            if base.lacks(len, 0) {
                self.elements.push(base.same(alloc)?)?;
            } else if base.is_digit() {
                continue;
            } else if base.lacks(len, 1) {
                let many = Tree::Many(base.part(alloc)?);
                self.elements.push(Made::new(alloc, many)?)?;
            } else if base.lacks(len, 2) {
                self.elements.push(base.times(alloc, 2)?)?;
            } else if base.lacks(len, 3) {
                self.elements.push(base.times(alloc, 22)?)?;
            }
        }
        Ok(())
    }

    fn add_sequences(&mut self, alloc: Global, len: usize) -> Result<(), AllocError> {
        let mut longer = Vec::new(alloc);
        for first in &self.sequences {
            for next in &self.elements {
                if first.lacks(len, next.text.len()) {
                    longer.push(first.then(alloc, next)?)?;
                }
            }
        }
        self.sequences.append(&mut longer)?;
        Ok(())
    }

    fn add_alternatives(&mut self, alloc: Global, len: usize) -> Result<(), AllocError> {
        let mut longer = Vec::new(alloc);
        for first in &self.alternatives {
            for other in &self.sequences {
                if first.lacks(len.saturating_sub(1), other.text.len()) {
                    longer.push(first.or(alloc, other)?)?;
                }
            }
        }
        for sequence in &self.sequences {
            if sequence.lacks(len, 0) {
                longer.push(sequence.same(alloc)?)?;
            }
        }
        self.alternatives.append(&mut longer)?;
        Ok(())
    }
}

/// All pictures of at most 4 characters.
pub fn pictures(alloc: Global) -> Result<Vec<Made>, AllocError> {
    let mut grammar = Grammar {
        bases: Vec::new(alloc),
        elements: Vec::new(alloc),
        sequences: Vec::new(alloc),
        alternatives: Vec::new(alloc),
    };
    grammar.add_marks(alloc)?;
    grammar.sequences.push(Made::new(alloc, Tree::Empty)?)?;
    grammar.alternatives.push(Made::new(alloc, Tree::Empty)?)?;
    for len in 1..PICTURE + 1 {
        grammar.add(alloc, len)?;
    }
    let Grammar { alternatives, .. } = grammar;
    Ok(alternatives)
}
