//! Columns and rows.

ghost use Rattle.std.specs.Prelude.{◌≡◌, fold, max};
ghost use Rattle.tv_boxes.specs.Sizes.{longest, size};

use tv_valid::Chars;

/// Returns the number, or 255 where it is more: past every limit of a description.
pub(crate) fn size(count: usize) -> u8
    ensures { result ≡ size count }
{
    count.min(255) as u8
}

/// Returns how many columns the longest of these texts has.
pub(crate) fn longest(texts: &[Chars]) -> u8
    ensures { result ≡ longest texts.now }
{
    texts.iter().fold(0, |columns, text| {
        columns.max(size(text.as_slice().len()))
    })
}
