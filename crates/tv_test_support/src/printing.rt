//! Canonical texts of descriptions.

use crate::findings::desc_of;
use crate::tables::{Question, expect_answer};
use std::alloc::{AllocError, Global};
use std::test::Fail;
use tv_lang::print;
use tv_model::Desc;

/// The canonical text of what a text spells.
#[derive(Clone, Copy)]
pub struct Printing;

impl Question for Printing {
    fn answer(&self, alloc: Global, text: &[u8]) -> Result<String, Fail> {
        let printed = reprinted(alloc, text)?;
        expect_canonical(alloc, &printed)?;
        Ok(printed)
    }
}

fn reprinted(alloc: Global, text: &[u8]) -> Result<String, Fail> {
    let desc = desc_of(alloc, text)?;
    Ok(print_of(alloc, &desc)?)
}

// The canonical text of a description.
pub(crate) fn print_of(alloc: Global, desc: &Desc) -> Result<String, AllocError> {
    print(alloc, desc)
}

/// Fails where a text isn't its own canonical text.
pub fn expect_canonical(alloc: Global, text: &str) -> Result<(), Fail> {
    let printed = reprinted(alloc, text.as_bytes())?;
    if printed.as_str() == text {
        return Ok(());
    }
    Err(Fail::new(format_args!("printed:\n{printed}for:\n{text}")))
}
