//! Groups that were begun and haven't ended.

ghost use Rattle.std.specs.Option.{ForSome};
ghost use Rattle.std.specs.Prelude.{◌≡◌, ◌≤◌, ◌++◌, ◌∷◌, [], false, IfErr, IfOk, IsTrue, OnOk};
ghost use Rattle.tv_session.specs.Groups.{IsGroupOf, area_of, is_group};
ghost use Rattle.tv_session.specs.declared.build_fault.BuildFault.TheVariants.{NoMemory, WrongPlan};
ghost use Rattle.tv_faces.specs.Corners.{IsCorner};
ghost use Rattle.tv_group.specs.Opened.{members_level};
ghost use Rattle.tv_model.specs.Description.LawfulNodes.{IsLawfulNode};
ghost use Rattle.tv_model.specs.Description.Rectangles.{corner_of};
ghost use Rattle.tv_window.specs.Head.{IsLimitedWindowHead, declared_window_head};

use crate::area::{Area, area_of};
use crate::build_fault::BuildFault;
use tv_group::{GroupOf, MemberOf};
use tv_model::Node;
use tv_view::View;

/// A window, dialog or pane that was begun, and what stands in it so far.
#[derive(Drop)]
pub(crate) struct Begun<'a, V> {
    pub(crate) node: &'a Node,
    area: Area,
    pub(crate) members: Vec<MemberOf<V>>,
    ghost stands: { area.rect ≡ area_of node.now node.now.kind },
    ghost limited: { ForSome (declared_window_head node.now) IsLimitedWindowHead },
    ghost near: { IsCorner (corner_of node.now) },
}

impl<'a, V: View> Begun<'a, V> {
    // Begins a group that has these members so far.
    #[tactic(auto, using(crate::proofs::OwnerLemmas::head_of_lawful))]
    pub(crate) fn new(node: &'a Node, members: Vec<MemberOf<V>>) -> Result<Begun<'a, V>, BuildFault>
        requires { IsLawfulNode node.now }
        ensures node { IfOk result (λ begun. begun.node.now ≡ node.now) }
        ensures members { IfOk result (λ begun. begun.members.items ≡ members.items) }
        ensures group { OnOk result (IsTrue (is_group node.now.kind)) }
        ensures refused { IfErr result (λ fault. (fault ≡ WrongPlan) × (is_group node.now.kind ≡ false)) }
    {
        let area = area_of(node)?;
        Ok(Begun {
            node,
            area,
            members,
        })
    }

    // Adds a member after the others.
    pub(crate) fn add(&mut self, member: MemberOf<V>) -> Result<(), BuildFault>
        ensures node { self.new.node.now ≡ self.old.node.now }
        ensures added { OnOk result (self.new.members.items ≡ self.old.members.items ++ member ∷ []) }
        ensures kept { IfErr result (λ _. self.new.members.items ≡ self.old.members.items) }
        ensures refused { IfErr result (λ fault. fault ≡ NoMemory) }
    {
        self.members.push(member)?;
        Ok(())
    }

    // Makes the group of its members.
    pub(crate) fn end(self) -> Result<GroupOf<V>, BuildFault>
        ensures is { IfOk result (λ group. IsGroupOf V.meaning self.entry.node.now self.entry.members.items group) }
        ensures refused { IfErr result (λ fault. 8 ≤ members_level self.entry.members.items) }
    {
        match GroupOf::new(self.area.rect, self.members) {
            Ok(group) => Ok(group),
            Err(_) => Err(BuildFault::WrongPlan),
        }
    }
}
