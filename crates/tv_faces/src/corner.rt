//! Where windows and dialogs may stand.

ghost use Rattle.std.specs.Prelude.{◌≡◌};
ghost use Rattle.tv_cells.specs.Rectangle.{IsRectNear};
ghost use Rattle.tv_faces.specs.Corners.{IsCorner, IsFrameSize};
ghost use Rattle.tv_model.specs.Description.Rectangles.{rect, IsSmallRect};

use crate::place::rect_at;
use std::marker::Model;
use tv_cells::{Point, Rect};

/// The corner of a window or a dialog on the screen, or off it: column and row lie within -132 to 132.
#[derive(Clone, Copy, Debug, PartialEq, Eq)]
pub struct Corner {
    point: Point,
}

impl Model for Corner {
    ghost use Rattle.tv_cells.specs.declared.rect.Point.{Point};
    ghost use Rattle.tv_faces.specs.Corners.{IsCorner};

    ghost Value = { Point };

    ghost view = { λ c. c.point };

    ghost invariant = { λ c. IsCorner c.point };

    ghost inverse = { λ p. record { point = p } };
}

impl Corner {
    /// Makes the corner of a point within -132 to 132.
    pub fn new(point: Point) -> Corner
        requires { IsCorner point }
        ensures { result ≡ point }
    {
        Corner { point }
    }

    /// Returns the point.
    pub fn point(&self) -> Point
        ensures is { result ≡ self.now }
        ensures corner { IsCorner result }
    {
        self.point
    }

    #[tactic(auto, using(crate::proofs::CornerLemmas::frame_small, crate::proofs::CornerLemmas::small_near))]
    /// Returns the rectangle of a width and a height that has this corner.
    pub fn rect(&self, w: &i32, h: &i32) -> Rect
        requires { IsFrameSize w.now h.now }
        ensures is { result ≡ rect self.now.x self.now.y w.now h.now }
        ensures small { IsSmallRect result }
        ensures near { IsRectNear result }
    {
        rect_at(&self.point.x, &self.point.y, w, h)
    }
}
