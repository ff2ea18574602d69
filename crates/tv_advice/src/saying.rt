//! What is told of a fault, before it is known where its words stand.

use crate::spans::Span;
use std::alloc::{AllocError, Global};

/// Which words of a line something is about. The keyword is word 0.
#[derive(Clone, Copy, Debug, PartialEq, Eq)]
pub enum LinePart {
    /// So many words from this one on.
    Words { first: usize, count: usize },
    /// The first mark of the letter.
    FirstMark(char),
    /// The last mark of the letter.
    LastMark(char),
    /// What stands there, wherever words do.
    At(Span),
}

impl LinePart {
    /// Returns one word.
    pub fn word(at: usize) -> LinePart {
        LinePart::Words {
            first: at,
            count: 1,
        }
    }
}

/// A part of a line, and what is said of it.
#[derive(Debug, Drop)]
pub struct Remark {
    pub part: LinePart,
    pub label: String,
}

impl Remark {
    /// Says this of a part.
    pub fn new(alloc: Global, part: LinePart, label: &str) -> Result<Remark, AllocError> {
        Ok(Remark {
            part,
            label: String::from_str(alloc, label)?,
        })
    }
}

/// What is told of a fault.
#[derive(Debug, Drop)]
pub struct Saying {
    pub message: String,
    pub own: Remark,
    /// What is said of the other line, where there is one.
    pub other: Option<Remark>,
    /// How to mend it.
    pub mend: String,
}

impl Saying {
    /// Says this of a part of the fault's own line, and how to mend it.
    pub fn new(
        alloc: Global,
        message: &str,
        part: LinePart,
        label: &str,
        mend: &str,
    ) -> Result<Saying, AllocError> {
        Ok(Saying {
            message: String::from_str(alloc, message)?,
            own: Remark::new(alloc, part, label)?,
            other: None,
            mend: String::from_str(alloc, mend)?,
        })
    }

    /// Says this of a part of the other line too.
    pub fn with_other(
        self,
        alloc: Global,
        part: LinePart,
        label: &str,
    ) -> Result<Saying, AllocError> {
        let other = Some(Remark::new(alloc, part, label)?);
        Ok(Saying { other, ..self })
    }
}
