//! Damage by itself: which points it has.

ghost use Rattle.std.specs.Prelude.{All, IsTrue};
ghost use Rattle.tv_cells.specs.Rectangle.{IsPointNear, IsRectNear};

use std::process::Abort;
use std::test::Fail;
use tv_cells::{Damage, Point, Rect};

fn rect(left: i32, top: i32, right: i32, bottom: i32) -> Rect {
    Rect {
        a: Point { x: left, y: top },
        b: Point {
            x: right,
            y: bottom,
        },
    }
}

fn damage_of(rects: &[Rect]) -> Damage {
    let mut damage = Damage::new();
    for rect in rects {
        damage.add(*rect);
    }
    damage
}

fn is_point_near(point: Point) -> bool
    ensures { IsTrue result → IsPointNear point }
{
    -100_000 <= point.x && point.x <= 100_000 && -100_000 <= point.y && point.y <= 100_000
}

fn is_rect_near(rect: &Rect) -> bool
    ensures { IsTrue result → IsRectNear rect.now }
{
    is_point_near(rect.a) && is_point_near(rect.b)
}

// Whether the rectangles may be moved.
fn are_near(damage: &Damage) -> bool
    ensures { IsTrue result → All IsRectNear damage.now }
{
    damage.rects().iter().all(|rect| is_rect_near(rect))
}

// Fails unless a damage has the points of these rectangles and no others, as far as a square round the origin goes.
fn expect_points(damage: &Damage, rects: &[Rect]) -> Result<(), Fail> {
    for y in -20..80 {
        for x in -20..80 {
            let point = Point { x, y };
            if damage.has(point) != rects.iter().any(|rect| rect.contains(point)) {
                return Err(Fail::new(format_args!("{point:?} of {damage:?}")));
            }
        }
    }
    Ok(())
}

// Fails unless a damage is told as these rectangles.
fn expect_rects(damage: &Damage, rects: &[Rect]) -> Result<(), Fail> {
    if damage.rects() == rects {
        return Ok(());
    }
    Err(Fail::new(format_args!("{damage:?}")))
}

// Points in a rectangle, and beside its edges, and whether it has them.
const POINTS: [(i32, i32, bool); 6] = [
    (2, 3, true),
    (4, 3, true),
    (1, 3, false),
    (5, 3, false),
    (2, 2, false),
    (4, 4, false),
];

// An empty rectangle adds nothing, and a half open one neither its right column nor its bottom row.
#[test]
fn rectangles_are_half_open(rt: HostRuntime) -> Result<(), Fail> {
    let empty = [rect(3, 3, 3, 9), rect(3, 3, 9, 3), rect(9, 9, 3, 3)];
    expect_rects(&Damage::new(), &[])?;
    expect_rects(&damage_of(&empty), &[])?;
    let half_open = damage_of(&[rect(2, 3, 5, 4)]);
    for &(x, y, has_point) in &POINTS {
        assert_eq!(rt; half_open.has(Point { x, y }), has_point, "{x} {y}");
    }
    let overlapping = [rect(2, 3, 9, 6), rect(0, 5, 4, 20), rect(3, 4, 5, 5)];
    expect_points(&damage_of(&overlapping), &overlapping)
}

// One of forty cells on the line from the lower left of a square to the upper right, too far apart to be merged.
fn cell(place: i32) -> Rect {
    let x = place.saturating_mul(7);
    let y = 273i32.saturating_sub(x);
    rect(x, y, x.saturating_add(1), y.saturating_add(1))
}

// A rectangle beside another, or across it, becomes one with it where that takes few cells more.
#[test]
fn neighbours_are_merged(rt: HostRuntime) -> Result<(), Fail> {
    let row = damage_of(&[rect(4, 4, 14, 5), rect(4, 3, 14, 4)]);
    expect_rects(&row, &[rect(4, 3, 14, 5)])?;
    let window = damage_of(&[rect(2, 2, 16, 6), rect(4, 3, 18, 7)]);
    expect_rects(&window, &[rect(2, 2, 18, 7)])?;
    let apart = damage_of(&[rect(0, 0, 20, 1), rect(0, 20, 20, 21)]);
    assert_eq!(rt; apart.rects().len(), 2);
    Ok(())
}

// Where there is no room for another rectangle, all points are there still, and none outside their hull.
#[test]
fn more_than_sixteen(rt: HostRuntime) -> Result<(), Fail> {
    let hull = rect(0, 0, 280, 280);
    let mut damage = Damage::new();
    for x in 0..40 {
        damage.add(cell(x));
        assert!(rt; damage.rects().len() <= 16);
        for at in 0..=x {
            assert!(rt; damage.has(cell(at).a), "{at} of {x}");
        }
    }
    for rect in damage.rects() {
        assert!(rt; hull.has_part(*rect), "{rect:?}");
    }
    Ok(())
}

// What is added from another damage is moved, and cut where it is seen in a frame. What was there stays.
#[test]
fn from_another() -> Result<(), Fail> {
    let old = rect(0, 0, 1, 1);
    let inner = damage_of(&[rect(-2, -2, 3, 3), rect(8, 12, 30, 13), rect(0, 19, 9, 22)]);
    let mut framed = damage_of(&[old]);
    framed.add_within(&inner, rect(10, 5, 20, 20));
    expect_points(&framed, &[old, rect(10, 5, 13, 8), rect(18, 17, 20, 18)])?;
    if !are_near(&inner) {
        return Err("far rectangles".into());
    }
    let mut moved = damage_of(&[old]);
    moved.add_all(&inner, Point { x: 15, y: 7 });
    let all = [
        old,
        rect(13, 5, 18, 10),
        rect(23, 19, 45, 20),
        rect(15, 26, 24, 29),
    ];
    expect_points(&moved, &all)?;
    moved.clear();
    expect_rects(&moved, &[])
}
