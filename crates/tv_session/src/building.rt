//! Views, put together step by step.

ghost use Rattle.std.specs.Option.{ForSome};
ghost use Rattle.std.specs.Prelude.{◌≡◌, ◌≢◌, [], false, None, IfErr, IfOk, OnOk};
ghost use Rattle.tv_session.specs.Building.{Adds, AreSameGroups, BeginsNode, EndsNode, IsMisplaced, KeepsViews, StandsWindow, begun_of, bodies_built, but_innermost, windows_of};
ghost use Rattle.tv_session.specs.Groups.{is_group};
ghost use Rattle.tv_session.specs.declared.build_fault.BuildFault.TheVariants.{WrongPlan};
ghost use Rattle.tv_faces.specs.Corners.{IsCorner};
ghost use Rattle.tv_group.specs.declared.group.MemberOf.TheVariants as members;
ghost use Rattle.tv_model.specs.Description.LawfulNodes.{IsLawfulNode};
ghost use Rattle.tv_model.specs.Description.Rectangles.{corner_of};
ghost use Rattle.tv_window.specs.Head.{IsLimitedWindowHead, declared_window_head};

use crate::begun::Begun;
use crate::build_fault::BuildFault;
use std::alloc::Global;
use tv_group::{GroupOf, MemberOf};
use tv_model::{Kind, Node};
use tv_view::View;
use tv_window::WindowOf;

/// The windows and the bodies of dialogs that a session is made of, each list in description order.
#[derive(Drop)]
pub struct Views<V> {
    pub windows: Vec<WindowOf<V>>,
    pub bodies: Vec<GroupOf<V>>,
}

/// Views that are put together step by step, as the build plan of a checked description says. A window, dialog or pane
/// begins, and what is added and begun before its end stands in it.
#[derive(Drop)]
pub struct Building<'a, V> {
    pub(crate) views: Views<V>,
    pub(crate) begun: Vec<Begun<'a, V>>,
}

impl<'a, V: View> Building<'a, V> {
    /// Starts with no views, and nothing begun.
    pub fn new(alloc: Global) -> Building<'a, V>
        ensures windows { windows_of result ≡ [] }
        ensures bodies { bodies_built result ≡ [] }
        ensures begun { begun_of result ≡ [] }
    {
        Building {
            views: Views {
                windows: Vec::new(alloc),
                bodies: Vec::new(alloc),
            },
            begun: Vec::new(alloc),
        }
    }

    /// Begins a window, a dialog or a pane.
    ///
    /// # Errors
    ///
    /// `WrongPlan` where the node isn't that of a window, dialog or pane; `NoMemory`. Nothing is begun then.
    pub fn begin(&mut self, alloc: Global, node: &'a Node) -> Result<(), BuildFault>
        requires { IsLawfulNode node.now }
        ensures same { KeepsViews self.old self.new }
        ensures begun { OnOk result (BeginsNode node.now (begun_of self.old) (begun_of self.new)) }
        ensures unbegun { IfErr result (λ _. begun_of self.new ≡ begun_of self.old) }
        ensures refused { IfErr result (λ fault. fault ≡ WrongPlan → is_group node.now.kind ≡ false) }
    {
        let begun = Begun::new(node, Vec::new(alloc))?;
        self.begun.push(begun)?;
        Ok(())
    }

    /// Adds a view to the innermost open group, after what stands there.
    ///
    /// # Errors
    ///
    /// `WrongPlan` where nothing is begun, `NoMemory`. The view is dropped then, and all that was begun stays as it was.
    pub fn add(&mut self, view: V) -> Result<(), BuildFault>
        ensures same { KeepsViews self.old self.new }
        ensures added { OnOk result (Adds (members.Leaf view) (begun_of self.old) (begun_of self.new)) }
        ensures kept { IfErr result (λ _. AreSameGroups (begun_of self.old) (begun_of self.new)) }
        ensures refused { IfErr result (λ fault. fault ≡ WrongPlan → begun_of self.old ≡ []) }
    {
        add_to(&mut self.begun, MemberOf::Leaf(view))
    }

    /// Ends the innermost open group: adds it to the windows, the bodies or its parent.
    ///
    /// # Errors
    ///
    /// `WrongPlan` where nothing is begun, where a window or dialog ends inside another group or a pane outside of any,
    /// where the node is of another kind, and where nine groups would stand one in another; `NoMemory`. The innermost
    /// open group is dropped then, and the others stay as they were.
    pub fn end(&mut self) -> Result<(), BuildFault>
        ensures ended { OnOk result (EndsNode V.meaning self.old self.new) }
        ensures same { IfErr result (λ _. KeepsViews self.old self.new) }
        ensures kept { IfErr result (λ _. AreSameGroups (but_innermost (begun_of self.old)) (begun_of self.new)) }
        ensures refused { IfErr result (λ fault. fault ≡ WrongPlan → IsMisplaced (begun_of self.old)) }
    {
        let Some(last) = self.begun.pop() else {
            return Err(BuildFault::WrongPlan);
        };
        let node = last.node;
        let group = last.end()?;
        match node.kind {
            Kind::Pane(_) => add_to(&mut self.begun, MemberOf::Pane(group)),
            Kind::Window(_) if self.begun.is_empty() => stand_window(
                &mut self.views.windows,
                node,
                group,
            ),
            Kind::Dialog(_) if self.begun.is_empty() => {
                self.views.bodies.push(group)?;
                Ok(())
            }
            _ => Err(BuildFault::WrongPlan),
        }
    }

    /// Returns the windows and bodies, once all that was begun has ended.
    ///
    /// # Errors
    ///
    /// `WrongPlan` where something was begun and hasn't ended; all is dropped then.
    pub fn finish(self) -> Result<Views<V>, BuildFault>
        ensures windows { IfOk result (λ views. views.windows.items ≡ windows_of self.entry) }
        ensures bodies { IfOk result (λ views. views.bodies.items ≡ bodies_built self.entry) }
        ensures ended { OnOk result (begun_of self.entry ≡ []) }
        ensures refused { IfErr result (λ fault. (fault ≡ WrongPlan) × (begun_of self.entry ≢ [])) }
    {
        if self.begun.is_empty() {
            Ok(self.views)
        } else {
            Err(BuildFault::WrongPlan)
        }
    }
}

// Adds a member to the innermost open group.
fn add_to<V: View>(begun: &mut Vec<Begun<V>>, member: MemberOf<V>) -> Result<(), BuildFault>
    ensures added { OnOk result (Adds member begun.old.items begun.new.items) }
    ensures kept { IfErr result (λ _. AreSameGroups begun.old.items begun.new.items) }
    ensures refused { IfErr result (λ fault. fault ≡ WrongPlan → begun.old.items ≡ []) }
{
    match begun.last_mut() {
        Some(innermost) => innermost.add(member),
        None => Err(BuildFault::WrongPlan),
    }
}

// Adds the window of the node round the body, after the other windows.
#[tactic(auto, using(crate::proofs::OwnerLemmas::head_fits))]
fn stand_window<V: View>(
    windows: &mut Vec<WindowOf<V>>,
    node: &Node,
    body: GroupOf<V>,
) -> Result<(), BuildFault>
    requires limited { ForSome (declared_window_head node.now) IsLimitedWindowHead }
    requires corner { IsCorner (corner_of node.now) }
    ensures stands { OnOk result (StandsWindow node.now body windows.old.items windows.new.items) }
    ensures same { IfErr result (λ _. windows.new.items ≡ windows.old.items) }
    ensures refused { IfErr result (λ fault. fault ≡ WrongPlan → declared_window_head node.now ≡ None) }
{
    match WindowOf::new(node, body) {
        Ok(window) => {
            windows.push(window)?;
            Ok(())
        }
        Err(_) => Err(BuildFault::WrongPlan),
    }
}
