//! What is wrong with a line that can't be read.

use crate::context::Unclosed;
use crate::forms::Form;
use crate::spans::Span;
use std::alloc::{AllocError, Global};

/// What is wrong with a line, before its number is known.
#[derive(Debug, Drop)]
pub struct Complaint {
    pub message: String,
    pub span: Span,
    pub label: String,
    /// The form that the line has to have.
    pub form: Option<&'static str>,
    /// How to mend it.
    pub mend: Option<String>,
    /// What has to end before it.
    pub unclosed: Option<Unclosed>,
}

impl Complaint {
    /// Says this of a part of the line.
    pub fn new(
        alloc: Global,
        message: &str,
        span: Span,
        label: &str,
    ) -> Result<Complaint, AllocError> {
        Ok(Complaint {
            message: String::from_str(alloc, message)?,
            span,
            label: String::from_str(alloc, label)?,
            form: None,
            mend: None,
            unclosed: None,
        })
    }

    /// Says how to mend it.
    pub fn mended_by(self, alloc: Global, mend: &str) -> Result<Complaint, AllocError> {
        let mend = Some(String::from_str(alloc, mend)?);
        Ok(Complaint { mend, ..self })
    }

    /// Says that the line has to have this form.
    pub fn of_form(self, form: &Form) -> Complaint {
        let form = Some(form.text);
        Complaint { form, ..self }
    }

    /// Says that this has to end before it, if anything has to.
    pub fn behind(self, unclosed: Option<Unclosed>) -> Complaint {
        Complaint { unclosed, ..self }
    }
}
