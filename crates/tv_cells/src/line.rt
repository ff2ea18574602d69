//! Numbers on one axis of the screen.

ghost use Rattle.std.specs.Int.{int_gap, int_max, int_min};
ghost use Rattle.std.specs.Int.Signed.{le_z};
ghost use Rattle.std.specs.Prelude.{◌&&◌, ◌^◌, ◌↔◌, ◌≡◌, ◌≤◌, ◌<◌, ◌≤ℤ◌, ◌<ℤ◌, IfSome, IfNone, IsTrue, ℕ, pos};
ghost use Rattle.tv_cells.specs.Canvas.{IsAlong};

// Whether a coordinate lies at or after one end and before the other.
pub(crate) fn is_between(from: &i32, at: &i32, to: &i32) -> bool
    ensures { IsTrue result ↔ ((from.now ≤ℤ at.now) × (at.now <ℤ to.now)) }
{
    *from <= *at && *at < *to
}

// Whether the part of the line from `first` to `last` lies in another part.
pub(crate) fn has_span(from: &i32, to: &i32, first: &i32, last: &i32) -> bool
    ensures { result ≡ (le_z from.now first.now && le_z last.now to.now) }
{
    *from <= *first && *last <= *to
}

pub(crate) fn greater(a: &i32, b: &i32) -> i32
    ensures { result ≡ int_max a.now b.now }
{
    (*a).max(*b)
}

pub(crate) fn lesser(a: &i32, b: &i32) -> i32
    ensures { result ≡ int_min a.now b.now }
{
    (*a).min(*b)
}

// How far a coordinate lies after another, or 0.
pub(crate) fn gap(from: &i32, to: &i32) -> u32
    ensures { result ≡ int_gap from.now to.now }
{
    if *from < *to {
        (*to as i64 - *from as i64) as u32
    } else {
        0
    }
}

// The place on a line of this length that lies at a distance from the origin, inside a part of the line.
pub(crate) fn place(from: &i32, to: &i32, length: u32, origin: &i32, distance: &i32) -> Option<u32>
    ensures some { IfSome result (λ p. (p < length) × IsAlong from.now to.now origin.now distance.now p) }
    ensures none { IfNone result ((p : ℕ) → p < length → IsAlong from.now to.now origin.now distance.now p → ⊥) }
{
    let at = *origin as i64 + *distance as i64;
    if at < 0 || at < *from as i64 || at >= *to as i64 {
        return None;
    }
    let place = at as u64;
    if place < length as u64 {
        Some(place as u32)
    } else {
        None
    }
}

// The range of the places of a line of this length that lie between `from` and `to` and between `start` and `end`.
pub(crate) fn visible(from: &i32, to: &i32, length: u32, start: &i64, end: &i64) -> (u32, u32)
    ensures within { (result.0 ≤ result.1) × (result.1 ≤ length) }
    ensures places { (p : ℕ) → p < length → ((result.0 ≤ p) × (p < result.1))
        ↔ ((from.now ≤ℤ pos p) × (pos p <ℤ to.now) × (start.now ≤ℤ pos p) × (pos p <ℤ end.now)) }
{
    let first = (*start).max(*from as i64).max(0);
    let last = (*end).min(*to as i64).min(length as i64);
    if first < last {
        (first as u32, last as u32)
    } else {
        (0, 0)
    }
}

// How far a place on a line lies from the origin, or 0 where it lies before it.
pub(crate) fn distance(origin: &i32, place: u32) -> u32
    requires { place < 2 ^ 31 }
    ensures { result ≡ int_gap origin.now (pos place) }
{
    gap(origin, &(place as i32))
}
