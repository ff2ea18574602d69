//! Views by what they take of their owner.

ghost use Rattle.std.specs.Prelude.{◌≡◌, fold};
ghost use Rattle.tv_overlaps.specs.Marks.{collide, span_of_both, nowhere};
ghost use Rattle.tv_overlaps.specs.Placing.{weight_of};

use crate::span::Span;
use tv_model::Kind;

/// A view that has points.
#[derive(Clone, Copy)]
pub struct Placed {
    /// The view's place among all views.
    pub place: usize,
    /// A number that siblings share, and no other views.
    pub owner: usize,
    pub rows: Span,
    pub columns: Span,
    /// A point has room for 3. So a pane weighs 3, a control 2 and any other view 1.
    pub weight: u8,
}

impl Placed {
    /// Whether the two share a point, which hasn't room for both.
    pub fn collides(&self, other: &Placed) -> bool
        ensures { result ≡ collide self.now other.now }
    {
        self.rows.meets(&other.rows)
            && self.columns.meets(&other.columns)
            && u16::from(self.weight) + u16::from(other.weight) > 3
    }
}

/// Returns what a view of this kind weighs.
pub fn weight(kind: &Kind) -> u8
    ensures { result ≡ weight_of kind.now }
{
    if kind.is_pane() {
        3
    } else if kind.is_control() {
        2
    } else {
        1
    }
}

/// Returns the columns of all items and those between.
pub fn columns_of(items: &[Placed]) -> Span
    ensures { result ≡ fold (λ span item. span_of_both span item.columns) nowhere items.now }
{
    items
        .iter()
        .fold(Span::EMPTY, |columns, item| columns.around(&item.columns))
}

/// Returns the rows of all items and those between.
pub fn rows_of(items: &[Placed]) -> Span
    ensures { result ≡ fold (λ span item. span_of_both span item.rows) nowhere items.now }
{
    items
        .iter()
        .fold(Span::EMPTY, |rows, item| rows.around(&item.rows))
}
