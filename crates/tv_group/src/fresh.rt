//! Whether a group stands as nodes declare it.

ghost use Rattle.std.specs.Prelude.{◌≡◌, ◌↔◌, ◌≤◌, ◌∷◌, ◌+◌, ◌+ℤ◌, [], IfSome, IfNone, IsTrue, List, map};
ghost use Rattle.tv_model.specs.Description.Rectangles.{rect};
ghost use Rattle.tv_view.specs.Meaning.{LeafAt, PaneAt, has_current};
ghost use Rattle.tv_model.specs.declared.node.Node.{Node};
ghost use Rattle.tv_group.specs.Outline.{Follows, IsFreshBody, body_bounds, declared, has_body, members_outline, outline_member, outlined, part_of};

use crate::group::{GroupOf, MemberOf};
use tv_cells::Rect;
use tv_model::{Kind, Node};
use tv_view::View;

fn declares_leaf<V: View>(node: &Node, view: &V) -> bool
    ensures { IsTrue result ↔ (part_of node.now ≡ LeafAt (V.meaning view.now)) }
{
    match &node.kind {
        Kind::Pane(_) => false,
        _ => view.is_fresh(node),
    }
}

fn declares_pane(node: &Node, bounds: Rect) -> bool
    ensures { IsTrue result ↔ (part_of node.now ≡ PaneAt bounds) }
{
    match &node.kind {
        Kind::Pane(pane) => is_rect(bounds, &node.x, &node.y, &node.w, &pane.h),
        _ => false,
    }
}

fn is_sum(sum: &i32, a: &i32, b: &i32) -> bool
    ensures { IsTrue result ↔ (sum.now ≡ a.now +ℤ b.now) }
{
    *sum as i64 == *a as i64 + *b as i64
}

fn is_rect(bounds: Rect, x: &i32, y: &i32, w: &i32, h: &i32) -> bool
    ensures { IsTrue result ↔ (rect x.now y.now w.now h.now ≡ bounds) }
{
    bounds.a.x == *x && bounds.a.y == *y && is_sum(&bounds.b.x, x, w) && is_sum(&bounds.b.y, y, h)
}

fn is_body(bounds: Rect, owner: &Node) -> bool
    ensures { IsTrue result ↔ (IsTrue (has_body owner.now.kind) × (body_bounds owner.now ≡ bounds)) }
{
    match &owner.kind {
        Kind::Window(head) => is_rect(bounds, &0, &0, &owner.w, &head.h),
        Kind::Dialog(head) => is_rect(bounds, &0, &0, &owner.w, &head.h),
        _ => false,
    }
}

// The nodes behind the first one, where that stands at this depth.
fn behind(depth: u32, nodes: &[Node]) -> Option<(&Node, &[Node])>
    ensures some { IfSome result (λ r. (nodes.now ≡ r.0.now ∷ r.1.now) × (depth ≡ r.0.now.depth + 1) × (depth ≤ 256)) }
    ensures none { IfNone result ((first : Node) (rest : List Node) → nodes.now ≡ first ∷ rest → depth ≡ first.depth + 1 → ⊥) }
{
    let first = nodes.first()?;
    if depth == first.depth as u32 + 1 {
        Some((first, &nodes[1..]))
    } else {
        None
    }
}

fn follow_leaf<'a, V: View>(view: &V, depth: u32, nodes: &'a [Node]) -> Option<&'a [Node]>
    ensures some { IfSome result (λ rest. Follows (outlined depth (LeafAt (V.meaning view.now)) ∷ []) nodes.now rest.now) }
    ensures none { IfNone result ((rest : List Node) → Follows (outlined depth (LeafAt (V.meaning view.now)) ∷ []) nodes.now rest → ⊥) }
{
    let (first, rest) = behind(depth, nodes)?;
    if declares_leaf(first, view) {
        Some(rest)
    } else {
        None
    }
}

fn follow_pane(bounds: Rect, depth: u32, nodes: &[Node]) -> Option<&[Node]>
    ensures some { IfSome result (λ rest. Follows (outlined depth (PaneAt bounds) ∷ []) nodes.now rest.now × (depth ≤ 256)) }
    ensures none { IfNone result ((rest : List Node) → Follows (outlined depth (PaneAt bounds) ∷ []) nodes.now rest → ⊥) }
{
    let (first, rest) = behind(depth, nodes)?;
    if declares_pane(first, bounds) {
        Some(rest)
    } else {
        None
    }
}

impl<V: View> MemberOf<V> {
    ghost use Rattle.tv_group.specs.Opened.{opened_member};

    // Whether it is a leaf, or the current members in it lead to one.
    #[cycle(has_current)]
    fn has_current(&self) -> bool
        ensures { result ≡ has_current (opened_member V.meaning self.now) }
    {
        match self {
            MemberOf::Leaf(_) => true,
            MemberOf::Pane(group) => group.has_current(),
        }
    }

    // The nodes behind those that declare the member.
    #[cycle(follow)]
    fn follow<'a>(&self, depth: u32, nodes: &'a [Node]) -> Option<&'a [Node]>
        ensures some { IfSome result (λ rest. Follows (outline_member V.meaning self.now depth) nodes.now rest.now) }
        ensures none { IfNone result ((rest : List Node) → Follows (outline_member V.meaning self.now depth) nodes.now rest → ⊥) }
    {
        match self {
            MemberOf::Leaf(view) => follow_leaf(view, depth, nodes),
            MemberOf::Pane(group) => match follow_pane(group.bounds.rect(), depth, nodes) {
                Some(inner) => group.follow(depth + 1, inner),
                None => None,
            },
        }
    }
}

impl<V: View> GroupOf<V> {
    ghost use Rattle.tv_group.specs.Opened.{opened};

    // Whether the current members lead to a leaf.
    #[cycle(has_current)]
    fn has_current(&self) -> bool
        ensures { result ≡ has_current (opened V.meaning self.now) }
    {
        match self.current {
            Some(i) => i < self.members.len() && self.members[i].has_current(),
            None => false,
        }
    }

    // The nodes behind those that declare the members.
    #[cycle(follow)]
    fn follow<'a>(&self, depth: u32, nodes: &'a [Node]) -> Option<&'a [Node]>
        ensures some { IfSome result (λ rest. Follows (members_outline V.meaning self.now depth) nodes.now rest.now) }
        ensures none { IfNone result ((rest : List Node) → Follows (members_outline V.meaning self.now depth) nodes.now rest → ⊥) }
    {
        let mut left = nodes;
        for member in &self.members {
            match member.follow(depth, left) {
                Some(rest) => left = rest,
                None => return None,
            }
        }
        Some(left)
    }

    // Whether the nodes declare its members, and nothing else.
    fn is_declared_by(&self, views: &[Node]) -> bool
        ensures { IsTrue result ↔ (members_outline V.meaning self.now 1 ≡ map declared views.now) }
    {
        match self.follow(1, views) {
            Some(rest) => rest.is_empty(),
            None => false,
        }
    }

    /// Whether it is the body of the window or dialog with these views, panes opened out, before any event.
    pub fn is_fresh(&self, owner: &Node, views: &[Node]) -> bool
        ensures { IsTrue result ↔ IsFreshBody V.meaning owner.now views.now self.now }
    {
        is_body(self.bounds(), owner) && self.is_declared_by(views) && !self.has_current()
    }
}
