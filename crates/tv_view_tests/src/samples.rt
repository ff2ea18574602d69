//! Nodes and groups that several tests use.

ghost use Rattle.std.specs.Prelude.{◌≤◌, ◌≤ℤ◌, pos, length, IfOk};
ghost use Rattle.tv_model.specs.Description.Rectangles.{place_of_node, IsSmallRect};

use std::alloc::Global;
use std::test::Fail;
use tv_cells::{Point, Rect, Screen};
use tv_event::CommandSet;
use tv_group::{Group, Member};
use tv_model::{Id, Kind, Node, StaticText};
use tv_palette::{Chain, Owner};
use tv_valid::Chars;
use tv_view::Env;

/// The characters of a short text.
pub fn chars(alloc: Global, text: &str) -> Result<Chars, Fail>
    ensures { IfOk result (λ chars. length chars ≤ 120) }
{
    let chars: Vec<char> = text.chars().collect(alloc)?;
    if chars.len() > 120 {
        Err("a long text")?;
    }
    Ok(Chars::from_vec(chars))
}

/// The declaration of a text in the first row and column that a frame surrounds.
pub fn text_node(alloc: Global, width: i32, text: &str) -> Result<Node, Fail>
    requires { (pos 0 ≤ℤ width) × (width ≤ℤ pos 50) }
    ensures { IfOk result (λ node. IsSmallRect (place_of_node node)) }
{
    let text = chars(alloc, text)?;
    Ok(Node {
        id: Id(2),
        depth: 0,
        x: 1,
        y: 1,
        w: width,
        kind: Kind::Text(StaticText { h: 1, text }),
    })
}

/// A rectangle of a size, from the corner.
pub fn sized(width: i32, height: i32) -> Rect
    requires across { (pos 0 ≤ℤ width) × (width ≤ℤ pos 50) }
    requires down { (pos 0 ≤ℤ height) × (height ≤ℤ pos 50) }
    ensures { IsSmallRect result }
{
    Rect {
        a: Point { x: 0, y: 0 },
        b: Point {
            x: width,
            y: height,
        },
    }
}

/// What a view of an active window or dialog is lent.
pub fn env<'a>(
    owner: Owner,
    chain: &'a Chain,
    commands: &'a CommandSet,
    views: &'a [Node],
) -> Env<'a> {
    Env {
        owner,
        chain,
        views,
        commands,
        focus: None,
        default_now: None,
        is_active: true,
    }
}

/// A group of one member.
pub fn body(alloc: Global, bounds: Rect, member: Member) -> Result<Group, Fail>
    requires { IsSmallRect bounds }
{
    let mut members = Vec::new(alloc);
    members.push(member)?;
    Ok(Group::new(bounds, members).ok().ok_or("one level")?)
}

/// Whether the characters from a place on are these.
pub fn reads(screen: &Screen, x: i32, y: i32, text: &str) -> bool {
    let mut place = Point { x, y };
    for ch in text.chars() {
        match screen.at(place) {
            Some(cell) if cell.ch() == ch => {}
            _ => return false,
        }
        place.x = place.x.saturating_add(1);
    }
    true
}
