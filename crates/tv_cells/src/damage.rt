//! What is to be painted again.

ghost use Rattle.std.specs.Prelude.{◌≡◌, ◌≤◌, ◌↔◌, ◌+ℤ◌, ℤ, [], All, IsTrue, MatchOption, ◌<◌, length};
ghost use Rattle.std.specs.List.{list_any};
ghost use Rattle.tv_cells.specs.Damage.{AddsAll, Grows, HasAll, HasMoved, HasWithin, Holds, IsPart, IsSolid, has, is_part, seen_along, seen_within, with_shadow};
ghost use Rattle.tv_cells.specs.Layers.{is_in};
ghost use Rattle.tv_cells.specs.Rectangle.{IsIn, IsPointNear, IsRectNear, shifted};
ghost use Rattle.tv_cells.specs.declared.rect.Rect.{Rect as Declared};

use crate::line::lesser;
use crate::rect::{Point, Rect};
use arrayvec::ArrayVec;
use std::marker::Model;

// How many points more than two rectangles together their hull may have, so that it takes their place. To paint one
// rectangle more costs a pass over the views, about as much as to paint this many cells.
const PASS: u64 = 40;

/// The points that are to be painted again: those of at most 16 rectangles, which may overlap. Its calls allocate nothing.
///
/// Contracts see the list of the rectangles, none of which is empty, and speak of its points. Which rectangles have
/// them is free, and so is the order.
#[derive(Debug, Drop)]
pub struct Damage {
    rects: ArrayVec<Rect, 16>,
}

impl Model for Damage {
    ghost use Rattle.std.specs.Prelude.{List, All, length, ◌≤◌};
    ghost use Rattle.tv_cells.specs.Damage.{IsSolid};
    ghost use Rattle.tv_cells.specs.declared.rect.Rect.{Rect};

    ghost Value = { List Rect };

    ghost view = { λ d. d.rects.items };

    ghost invariant = { λ d. All IsSolid d.rects.items × (length d.rects.items ≤ 16) };
}

// Whether a rectangle has the point, as the test that `has` is made of.
fn has_point(rect: &Rect, point: Point) -> bool
    ensures { result ≡ is_in rect.now point.x point.y }
{
    rect.contains(point)
}

// Whether a rectangle has a point.
fn is_solid(rect: &Rect) -> bool
    ensures { IsTrue result ↔ IsSolid rect.now }
{
    rect.a.x < rect.b.x && rect.a.y < rect.b.y
}

// How many points a rectangle has.
fn area(rect: &Rect) -> u64 {
    u64::from(rect.width()) * u64::from(rect.height())
}

// By how many points a rectangle grows when another is joined to it.
fn growth(rect: &Rect, other: Rect) -> u64 {
    area(&rect.hull(other)).saturating_sub(area(rect))
}

// A coordinate that is seen from the first edge of a frame, or the nearer edge where it lies outside.
fn within(from: &i32, at: &i32, to: &i32) -> i32
    ensures { result ≡ seen_along from.now at.now to.now }
{
    if *at <= 0 {
        lesser(from, to)
    } else if *from as i64 + (*at as i64) < *to as i64 {
        *from + *at
    } else {
        *to
    }
}

// What of a rectangle that is seen from the corner of a frame lies in the frame.
fn cut_within(rect: &Rect, frame: Rect) -> Rect
    ensures corners { result ≡ seen_within rect.now frame }
    ensures seen { (x y : ℤ) → IsIn rect.now x y → IsIn frame (x +ℤ frame.a.x) (y +ℤ frame.a.y)
        → IsIn result (x +ℤ frame.a.x) (y +ℤ frame.a.y) }
    ensures part { IsPart result frame }
{
    Rect {
        a: Point {
            x: within(&frame.a.x, &rect.a.x, &frame.b.x),
            y: within(&frame.a.y, &rect.a.y, &frame.b.y),
        },
        b: Point {
            x: within(&frame.a.x, &rect.b.x, &frame.b.x),
            y: within(&frame.a.y, &rect.b.y, &frame.b.y),
        },
    }
}

impl Damage {
    /// Makes the damage without a point.
    pub fn new() -> Damage
        ensures { result ≡ [] }
    {
        Damage {
            rects: ArrayVec::new(),
        }
    }

    /// Adds the points of a rectangle.
    ///
    /// Neighbours are merged: where the smallest rectangle round two has few points more than the two together, it takes
    /// their place. If there is no room for another rectangle, it is merged with the one that grows least by it.
    pub fn add(&mut self, rect: Rect)
        ensures added { HasAll rect self.new }
        ensures grown { Grows rect self.old self.new }
    {
        if is_solid(&rect) && !self.has_part(rect) {
            self.put(rect);
        }
    }

    /// Adds the points of a rectangle that casts a shadow, and those on which the shadow falls: two columns to the right
    /// and one row below.
    pub fn add_with_shadow(&mut self, rect: Rect)
        requires { IsRectNear rect }
        ensures { AddsAll (with_shadow rect) self.old self.new }
    {
        self.add(rect);
        self.add(rect.shift(Point { x: 2, y: 1 }));
    }

    /// Adds the points of another damage, moved by the coordinates of a point.
    pub fn add_all(&mut self, other: &Damage, by: Point)
        requires near { All IsRectNear other.now }
        requires by { IsPointNear by }
        ensures added { HasMoved by other.now self.new }
        ensures grown { (r : Declared) → Holds r other.now → Grows (shifted r by) self.old self.new }
    {
        for rect in other.rects() {
            self.add(rect.shift(by));
        }
    }

    /// Adds the points of another damage, which are seen from the corner of a frame, if they lie in the frame.
    pub fn add_within(&mut self, inner: &Damage, frame: Rect)
        ensures added { HasWithin frame inner.now self.new }
        ensures grown { Grows frame self.old self.new }
    {
        for rect in inner.rects() {
            self.add(cut_within(rect, frame));
        }
    }

    /// Whether the point is to be painted again.
    pub fn has(&self, point: Point) -> bool
        ensures { result ≡ has self.now point.x point.y }
    {
        self.rects
            .as_slice()
            .iter()
            .any(|rect| has_point(rect, point))
    }

    /// Returns the rectangles.
    pub fn rects(&self) -> &[Rect]
        ensures rects { result.now ≡ self.now }
        ensures few { length result.now ≤ 16 }
        ensures solid { All IsSolid result.now }
    {
        self.rects.as_slice()
    }

    /// Takes all points out.
    pub fn clear(&mut self)
        ensures { self.new ≡ [] }
    {
        self.rects.clear();
    }

    // Whether one of the rectangles has the whole of another.
    fn has_part(&self, rect: Rect) -> bool
        ensures { result ≡ list_any (is_part rect) self.now }
    {
        self.rects
            .as_slice()
            .iter()
            .any(|other| other.has_part(rect))
    }

    // Where the rectangle is that grows least when another is joined to it, and by how many points.
    fn nearest(&self, rect: Rect) -> Option<(usize, u64)>
        ensures { MatchOption result (self.now ≡ []) (λ near. near.0 < length self.now) }
    {
        self.rects
            .as_slice()
            .iter()
            .map(|other| growth(other, rect))
            .enumerate()
            .min_by_key(|(_, growth)| *growth)
    }

    // Joins a rectangle that isn't empty to the one at a place, which becomes the hull of both.
    fn grow(&mut self, place: usize, rect: Rect)
        requires place { place < length self.old }
        requires solid { IsSolid rect }
        ensures added { HasAll rect self.new }
        ensures grown { Grows rect self.old self.new }
    {
        self.rects[place] = self.rects[place].hull(rect);
    }

    // Adds a rectangle that isn't empty: to the one that grows least by it, if that is cheap or there is no room for
    // another, and else beside the others.
    fn put(&mut self, rect: Rect)
        requires { IsSolid rect }
        ensures added { HasAll rect self.new }
        ensures grown { Grows rect self.old self.new }
    {
        let cheap = area(&rect).saturating_add(PASS);
        match self.nearest(rect) {
            Some((place, growth)) if growth <= cheap || self.rects.is_full() => {
                self.grow(place, rect);
            }
            _ => self.rects.push(rect),
        }
    }
}
