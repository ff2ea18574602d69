//! Which rules of a dialog keep a goal from being reached.

use crate::outline::{Leaf, Outline};
use crate::walk::masks;
use std::alloc::{AllocError, Global};
use tv_event::Command;
use tv_model::{Dialog, Id};
use tv_reach::{Goal, Mask};

/// The most masks with which rules are dropped one by one: each takes another walk.
const FEW: usize = 256;

/// The most rules of a dialog.
const RULES: usize = 64;

/// Rules of a dialog that never hold together, and a goal wants all of them. They are places among the dialog's rules, from 0.
#[derive(Clone, Copy, Debug, PartialEq, Eq)]
pub struct Conflict {
    pub first: usize,
    /// The last of them, which is the first where one alone never holds.
    pub last: usize,
    /// How many there are.
    pub count: usize,
}

/// What wants rules to hold.
#[derive(Clone, Copy)]
enum Wanting {
    /// The leaf of the id, to be shown and enabled.
    Leaf(Id),
    /// A button of the command, to be shown and enabled.
    Button(Command),
}

impl Wanting {
    fn is_wanted_by(self, leaf: &Leaf) -> bool {
        match self {
            Wanting::Leaf(id) => leaf.node.id == id,
            Wanting::Button(command) => leaf.gives(command),
        }
    }
}

// What of the goal wants rules.
fn what_wants(goal: Goal) -> Option<Wanting> {
    match goal {
        Goal::Opens => None,
        Goal::Ends(command) => Some(Wanting::Button(command)),
        Goal::Focuses(id) | Goal::Shows(id) => Some(Wanting::Leaf(id)),
    }
}

// Whether the rules that something wants lie within one of these masks, once these are dropped.
fn may_hold(outline: &Outline, wanting: Wanting, masks: &[Mask], dropped: Mask) -> bool {
    outline.leaves.iter().any(|leaf| {
        let rules = leaf.freed_by().without(dropped);
        wanting.is_wanted_by(leaf) && masks.iter().any(|mask| mask.contains_all(rules))
    })
}

// Whether it can be without the rules that are dropped, or that is hard to tell.
fn can_be(
    alloc: Global,
    outline: &Outline,
    wanting: Wanting,
    dropped: Mask,
) -> Result<bool, AllocError> {
    let outline = outline.without(alloc, dropped)?;
    Ok(match masks(alloc, &outline)? {
        Some(masks) if masks.len() <= FEW => may_hold(&outline, wanting, &masks, dropped),
        _ => true,
    })
}

// The rules that are left of so many where each is dropped without which it still can't be.
fn left(
    alloc: Global,
    outline: &Outline,
    wanting: Wanting,
    count: usize,
) -> Result<Mask, AllocError> {
    let mut dropped = Mask::NONE;
    let mut left = Mask::NONE;
    for place in 0..count.min(RULES) {
        let more = dropped.union(Mask::only(place));
        if can_be(alloc, outline, wanting, more)? {
            left = left.union(Mask::only(place));
        } else {
            dropped = more;
        }
    }
    Ok(left)
}

// The first and the last of so many rules that are in the mask.
fn ends_of(mask: Mask, count: usize) -> Option<Conflict> {
    let mut found = None;
    for place in 0..count.min(RULES) {
        if mask.has(place) {
            found = match found {
                Some(Conflict { first, count, .. }) => Some(Conflict {
                    first,
                    last: place,
                    count: count.saturating_add(1),
                }),
                None => Some(Conflict {
                    first: place,
                    last: place,
                    count: 1,
                }),
            };
        }
    }
    found
}

/// Finds rules of the dialog because of which no events reach the goal, such that they might without any one of them. It finds none
/// where rules aren't the reason, or where radio buttons have many choices.
pub fn conflict_against(
    alloc: Global,
    dialog: &Dialog,
    goal: Goal,
) -> Result<Option<Conflict>, AllocError> {
    let Some(wanting) = what_wants(goal) else {
        return Ok(None);
    };
    let outline = Outline::new(alloc, dialog)?;
    if can_be(alloc, &outline, wanting, Mask::NONE)? {
        return Ok(None);
    }
    let count = dialog.rules.as_slice().len();
    let left = left(alloc, &outline, wanting, count)?;
    Ok(ends_of(left, count))
}

/// Finds the first rule of the dialog that shows the view or a pane around it.
pub fn first_showing(
    alloc: Global,
    dialog: &Dialog,
    view: Id,
) -> Result<Option<usize>, AllocError> {
    let outline = Outline::new(alloc, dialog)?;
    let Some(place) = outline.place_of(view) else {
        return Ok(None);
    };
    let shown_by = match outline.leaves.get(place) {
        Some(leaf) => leaf.shown_by,
        None => Mask::NONE,
    };
    let rules = ends_of(shown_by, dialog.rules.as_slice().len());
    Ok(match rules {
        Some(Conflict { first, .. }) => Some(first),
        None => None,
    })
}
