//! The bounds of a group.

ghost use Rattle.std.specs.Prelude.{◌≡◌};
ghost use Rattle.tv_cells.specs.Rectangle.{IsRectNear};
ghost use Rattle.tv_model.specs.Description.Rectangles.{IsSmallRect};

use std::marker::Model;
use tv_cells::Rect;

/// A rectangle within -300 to 300.
#[derive(Clone, Copy, Debug, PartialEq, Eq)]
pub(crate) struct Bounds {
    rect: Rect,
}

impl Model for Bounds {
    ghost use Rattle.tv_cells.specs.declared.rect.Rect.{Rect};
    ghost use Rattle.tv_model.specs.Description.Rectangles.{IsSmallRect};

    ghost Value = { Rect };

    ghost view = { λ b. b.rect };

    ghost invariant = { λ b. IsSmallRect b.rect };

    ghost inverse = { λ r. record { rect = r } };
}

impl Bounds {
    pub(crate) fn new(rect: Rect) -> Bounds
        requires { IsSmallRect rect }
        ensures { result ≡ rect }
    {
        Bounds { rect }
    }

    pub(crate) fn rect(self) -> Rect
        ensures is { result ≡ self }
        ensures small { IsSmallRect result }
        ensures near { IsRectNear result }
    {
        self.rect
    }
}
