//! How deep panes may stand in one another.

ghost use Rattle.tv_model.specs.Description.Rectangles.{IsSmallRect};

use crate::forms::{LEAVES, members};
use crate::journal::{Call, Journal};
use crate::samples::sized;
use std::alloc::Global;
use std::rc::Rc;
use std::test::Fail;
use tv_cells::Rect;
use tv_group::{Group, Member, TooDeep};

// A pane of a level, in which panes stand in one another without leaves, and nothing for the level 0.
fn nested(alloc: Global, level: u8) -> Result<Vec<Member>, Fail> {
    let mut members = Vec::new(alloc);
    for _ in 0..level {
        let group = Group::new(sized(16, 6), members).ok().ok_or("deep")?;
        members = Vec::new(alloc);
        members.push(Member::Pane(group))?;
    }
    Ok(members)
}

// The members of the form, and after them a pane of a level.
fn with_pane(alloc: Global, journal: &Rc<Journal>, level: u8) -> Result<Vec<Member>, Fail> {
    let mut members = members(alloc, journal)?;
    let mut panes = nested(alloc, level)?;
    members.push(panes.pop().ok_or("no pane")?)?;
    Ok(members)
}

// Fails unless members whose highest pane is of a level make a group of the next one. Where it is of level 8 they all come back, and
// none of them is dropped.
fn expect_grouped(
    bounds: Rect,
    members: Vec<Member>,
    level: u8,
    journal: &Journal,
) -> Result<(), Fail>
    requires { IsSmallRect bounds }
{
    let count = members.len();
    match Group::new(bounds, members) {
        Ok(group) if group.level() == level.saturating_add(1) => Ok(()),
        Err((TooDeep, back)) if level == 8 && back.len() == count => journal.expect(&[]),
        _ => Err("another level, or other members come back".into()),
    }
}

// A group may have a pane of level 7, and none of level 8.
#[test]
fn the_highest_pane_decides(rt: HostRuntime) -> Result<(), Fail> {
    let journal = Journal::new(rt.alloc())?;
    for level in 0..=8u8 {
        let panes = nested(rt.alloc(), level)?;
        expect_grouped(sized(16, 6), panes, level, &journal)?;
    }
    for level in 1..=8u8 {
        let members = with_pane(rt.alloc(), &journal, level)?;
        expect_grouped(sized(40, 12), members, level, &journal)?;
        journal.expect(&LEAVES.map(|id| (id, Call::Dropped)))?;
    }
    Ok(())
}
