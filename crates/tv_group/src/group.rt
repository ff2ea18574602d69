//! Members and groups of them.

ghost use Rattle.std.specs.Prelude.{◌≡◌, ◌≤◌, ◌+◌, IfOk, IfErr, None, map, ℕ};
ghost use Rattle.tv_model.specs.Description.Rectangles.{IsSmallRect};
ghost use Rattle.tv_view.specs.Meaning.{inside};
ghost use Rattle.tv_group.specs.Opened.{group_bounds, joined, level_of, member_level, members_level, opened, opened_member};
ghost use Rattle.tv_group.specs.Outline.{joined_outline, members_outline};

use crate::bounds::Bounds;
use tv_cells::Rect;
use tv_view::View;

/// What stands in a group: a leaf, or a pane with members of its own.
#[cycle(tree)]
#[derive(Drop)]
pub enum MemberOf<V> {
    Leaf(V),
    Pane(GroupOf<V>),
}

/// Members one after the other in a rectangle, and which of them is current.
///
/// It means its leaves, panes opened out: `opened` lists them. A group is generic in its leaves; the toolkit's own has
/// boxed views.
#[cycle(tree)]
#[derive(Drop)]
pub struct GroupOf<V> {
    pub(crate) level: u8,
    pub(crate) bounds: Bounds,
    pub(crate) members: Vec<MemberOf<V>>,
    pub(crate) current: Option<usize>,
}

/// A member whose leaf is a boxed view.
pub type Member = MemberOf<Box<dyn View>>;

/// A group whose leaves are boxed views.
pub type Group = GroupOf<Box<dyn View>>;

/// The group would stand above level 8.
#[derive(Clone, Copy, Debug, PartialEq, Eq)]
pub struct TooDeep;

impl<V> MemberOf<V> {
    /// Returns 0 for a leaf, and a pane's own level.
    pub fn level(&self) -> u8
        ensures { result ≡ member_level self.now }
    {
        match self {
            MemberOf::Leaf(_) => 0,
            MemberOf::Pane(group) => group.level,
        }
    }
}

impl<V> GroupOf<V> {
    /// Returns how many groups stand one in another, with this one as the outermost: 1 without panes.
    pub fn level(&self) -> u8
        ensures { result ≡ level_of self.now }
    {
        self.level
    }

    /// Returns its rectangle, seen from the corner of what it stands in.
    pub fn bounds(&self) -> Rect
        ensures is { result ≡ group_bounds self.now }
        ensures small { IsSmallRect result }
    {
        self.bounds.rect()
    }
}

impl<V: View> GroupOf<V> {
    /// Makes the group of these members, of which none is current. Its bounds must lie within -300 to 300.
    ///
    /// # Errors
    ///
    /// `TooDeep`, with the members, where it would stand above level 8.
    pub fn new(
        bounds: Rect,
        members: Vec<MemberOf<V>>,
    ) -> Result<GroupOf<V>, (TooDeep, Vec<MemberOf<V>>)>
        requires { IsSmallRect bounds }
        ensures leaves { IfOk result (λ group. opened V.meaning group
            ≡ map (inside bounds) (joined None 0 (map (opened_member V.meaning) members.items))) }
        ensures outline { IfOk result (λ group. (depth : ℕ)
            → members_outline V.meaning group depth ≡ joined_outline V.meaning members.items depth) }
        ensures level { IfOk result (λ group. (level_of group ≡ members_level members.items + 1) × (level_of group ≤ 8)) }
        ensures bounds { IfOk result (λ group. group_bounds group ≡ bounds) }
        ensures refused { IfErr result (λ e. (8 ≤ members_level members.items) × (e.1 ≡ members)) }
    {
        let mut highest = 0;
        for member in &members {
            let level = member.level();
            if level > highest {
                highest = level;
            }
        }
        if highest < 8 {
            Ok(GroupOf {
                level: highest + 1,
                bounds: Bounds::new(bounds),
                members,
                current: None,
            })
        } else {
            Err((TooDeep, members))
        }
    }
}
