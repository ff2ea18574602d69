//! What is said of a finding, before it is known where the words of its lines stand.

use std::alloc::{AllocError, Global};
use tv_advice::Met;
use tv_model::Id;

/// Which words of a line something is about. The keyword is word 0.
#[derive(Clone, Copy)]
pub(crate) enum Part {
    Word(usize),
    /// The last that is this word.
    Named(&'static str),
    /// The quoted one with this number, from 0.
    Quoted(usize),
    /// The one behind the first that is quoted.
    BehindQuoted,
    /// All of them.
    All,
}

/// A part of a line, and what is said of it.
#[derive(Drop)]
pub(crate) struct Remark {
    pub(crate) part: Part,
    pub(crate) label: String,
}

impl Remark {
    pub(crate) fn new(alloc: Global, part: Part, label: &str) -> Result<Remark, AllocError> {
        Ok(Remark {
            part,
            label: String::from_str(alloc, label)?,
        })
    }
}

/// A part of another line.
#[derive(Drop)]
pub(crate) struct Elsewhere {
    pub(crate) line: Id,
    pub(crate) remark: Remark,
}

/// What is said of a finding.
#[derive(Drop)]
pub(crate) struct Saying {
    pub(crate) message: String,
    pub(crate) own: Remark,
    pub(crate) other: Option<Elsewhere>,
    /// Events after which a user meets it.
    pub(crate) met: Option<Met>,
    /// How to mend it.
    pub(crate) mend: Option<String>,
}

impl Saying {
    /// Says this of a part of the finding's own line.
    pub(crate) fn new(
        alloc: Global,
        message: &str,
        part: Part,
        label: &str,
    ) -> Result<Saying, AllocError> {
        Ok(Saying {
            message: String::from_str(alloc, message)?,
            own: Remark::new(alloc, part, label)?,
            other: None,
            met: None,
            mend: None,
        })
    }

    /// Says how to mend it.
    pub(crate) fn mended_by(self, alloc: Global, mend: &str) -> Result<Saying, AllocError> {
        let mend = Some(String::from_str(alloc, mend)?);
        Ok(Saying { mend, ..self })
    }

    /// Says after which events a user meets it.
    pub(crate) fn met_by(self, met: Met) -> Saying {
        Saying {
            met: Some(met),
            ..self
        }
    }

    /// Says this of another line, all of it.
    pub(crate) fn with_other(
        self,
        alloc: Global,
        line: Id,
        label: &str,
    ) -> Result<Saying, AllocError> {
        let remark = Remark::new(alloc, Part::All, label)?;
        let other = Some(Elsewhere { line, remark });
        Ok(Saying { other, ..self })
    }
}
