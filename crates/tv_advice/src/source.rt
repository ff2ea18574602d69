//! Texts of which is told.

use crate::manner::Manner;

/// The text of a file, and in which form is told of it.
#[derive(Clone, Copy)]
pub struct Source<'a> {
    pub manner: Manner,
    pub name: &'a str,
    pub text: &'a [u8],
}
