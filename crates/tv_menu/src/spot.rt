//! Texts side by side, each with a space at both sides.

ghost use Rattle.std.specs.Prelude.{◌≡◌, ◌<◌, ◌+◌, ◌^◌, ◌&&◌, All, IfSome, int_le, int_lt, length, pos, ℕ};
ghost use Rattle.tv_machine.specs.Screen.Bars.{columns_of, spot_in, status_text};
ghost use Rattle.tv_menu.specs.Lawful.{IsLawfulStatusItem};
ghost use Rattle.tv_menu.specs.Spots.{seen_spot};

use tv_model::StatusItem;

/// What stands in a column of the status line.
#[derive(Drop)]
pub(crate) struct Spot<'a> {
    pub(crate) entry: &'a StatusItem,
    /// Its place in the line, from 0.
    pub(crate) place: usize,
    /// The column, seen from the space before its text.
    pub(crate) column: usize,
}

/// Returns how many columns a text takes with a space at both sides.
pub(crate) fn columns_of(text: &[char]) -> usize
    ensures { result ≡ columns_of text.now }
{
    text.len() + 2
}

/// Whether a screen of a width has the column.
pub(crate) fn has_column(column: &i32, width: &i32) -> bool
    ensures { result ≡ (int_le (pos 0) column.now && int_lt column.now width.now) }
{
    0 <= *column && *column < *width
}

/// Finds what stands in a column. Columns count from the first one of the first item, which has the given place.
#[tactic(auto, using(crate::proofs::LawfulLemmas::items_behind, crate::proofs::LawfulLemmas::item_ahead))]
pub(crate) fn spot_in(items: &[StatusItem], place: usize, column: usize) -> Option<Spot>
    requires places { place + length items.now < 2 ^ 64 }
    requires lawful { All IsLawfulStatusItem items.now }
    ensures is { (first : ℕ) → seen_spot result ≡ spot_in status_text place first items.now (first + column) }
    ensures lawful { IfSome result (λ spot. IsLawfulStatusItem spot.entry.now) }
{
    let (entry, behind) = items.split_first()?;
    let columns = columns_of(entry.text.as_slice());
    if column < columns {
        Some(Spot {
            entry,
            place,
            column,
        })
    } else {
        spot_in(behind, place + 1, column - columns)
    }
}
