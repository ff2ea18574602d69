//! The views of a dialog by what they stand in, of which a view that is moved must overlap none.

use crate::few::are_few;
use crate::room::Room;
use std::alloc::{AllocError, Global};
use tv_model::{Id, Kind, Node};

/// A view, and the line of its owner.
#[derive(Clone, Copy)]
struct Member<'a> {
    owner: Id,
    view: &'a Node,
}

/// The views of a dialog. Beyond the limits nothing is known of them: so few are gone through, however long the text is.
#[derive(Drop)]
pub struct Kin<'a> {
    members: Vec<Member<'a>>,
    is_known: bool,
}

// Whether two such views in one place are a fault.
fn exclude(kind: &Kind, other: &Kind) -> bool {
    kind.is_pane() || other.is_pane() || (kind.is_control() && other.is_control())
}

impl<'a> Kin<'a> {
    /// Begins the dialog at this place among the dialogs, which has so many views.
    pub fn new(alloc: Global, place: usize, count: usize) -> Kin<'a> {
        Kin {
            members: Vec::new(alloc),
            is_known: are_few(place, count),
        }
    }

    /// Adds a view and what it stands in.
    pub fn add(&mut self, owner: &Node, view: &'a Node) -> Result<(), AllocError> {
        if self.is_known {
            self.members.push(Member {
                owner: owner.id,
                view,
            })?;
        }
        Ok(())
    }

    /// Whether a view of this owner can take this room: no other view of the owner is in its way, as far as is known.
    pub fn is_free(&self, owner: &Node, view: &Node, room: Room) -> bool {
        self.is_known
            && !self.members.iter().any(|member| {
                member.owner == owner.id
                    && member.view.id != view.id
                    && exclude(&member.view.kind, &view.kind)
                    && Room::of(member.view).meets(room)
            })
    }

    /// Finds a room for a view of this owner, beside or below another view of the owner, where no other is in its way.
    pub fn free_room(&self, owner: &Node, view: &Node, around: Room) -> Option<Room> {
        let own = Room::of(view);
        for member in &self.members {
            if member.owner == owner.id {
                let other = Room::of(member.view);
                for room in own.places_at(other, around) {
                    if room.is_within(around) && self.is_free(owner, view, room) {
                        return Some(room);
                    }
                }
            }
        }
        None
    }
}
