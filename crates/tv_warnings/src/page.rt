//! A description and its text, by their lines.

ghost use Rattle.std.specs.Prelude.{◌≡◌, slice_index};

use tv_advice::Index;
use tv_explain::Places;
use tv_model::{Desc, Id};

/// A description and its text, by their lines.
#[derive(Drop)]
pub(crate) struct Page<'a> {
    pub(crate) desc: &'a Desc,
    pub(crate) index: Index<'a>,
    pub(crate) places: Places,
}

impl Page<'_> {
    /// Returns the number of the line of the text, counted from 1, that has what stands on the line of the canonical text.
    pub(crate) fn line(&self, id: Id) -> usize
        ensures { result ≡ slice_index self.now.places id.0 }
    {
        self.places.place(id.0)
    }
}
