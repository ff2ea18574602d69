//! Controls and nodes.

ghost use Rattle.std.specs.Prelude.{All};
ghost use Rattle.tv_check.specs.Plan.{IsLawfulStep};
ghost use Rattle.tv_model.specs.Description.LawfulNodes.{IsLawfulNode};

use super::ending::{Ending, expect, expect_whole, refused};
use super::fixtures::checked_of;
use std::alloc::Global;
use std::test::Fail;
use tv_check::BuildStep;
use tv_choices::{CheckBoxes, ListBox, RadioButtons};
use tv_controls::{Button, ControlFault, InputLine, Label, StaticText};
use tv_model::{Dialog, Kind, Node};

// A dialog with a view of each kind.
const KINDS: &str = r###"tvd 1
screen 40 16
dialog d 1 1 38 14 "Kinds" ends cancel
text 1 1 8 1 "a text"
label 1 2 8 "~N~ame" i
input i 10 2 8 4 picture "##" "07"
checks k 1 3 10 "~A~" "b" start 1
radios r 12 3 10 "~D~" "e" start 1
list l 24 1 10 3 "f" "g" start 1
button c 1 11 10 "~C~ancel" cancel
end
"###;

// The fault of making the view of a leaf's node, if it isn't made.
#[tactic(auto, using(tv_view::proofs::CoreLemmas::limited_small))]
fn fault_of(alloc: Global, node: &Node) -> Option<ControlFault>
    requires { IsLawfulNode node.now }
{
    match node.kind {
        Kind::Text(_) => StaticText::new(alloc, node).err(),
        Kind::Label(_) => Label::new(alloc, node).err(),
        Kind::Button(_) => Button::new(alloc, node).err(),
        Kind::Input(_) => InputLine::new(alloc, node).err(),
        Kind::CheckBoxes(_) => CheckBoxes::new(alloc, node).err(),
        Kind::RadioButtons(_) => RadioButtons::new(alloc, node).err(),
        Kind::List(_) => ListBox::new(alloc, node).err(),
        Kind::Window(_) | Kind::Dialog(_) | Kind::Pane(_) => None,
    }
}

fn made_leaf(alloc: Global, node: &Node) -> Result<(), Ending>
    requires { IsLawfulNode node.now }
{
    match fault_of(alloc, node) {
        None => Ok(()),
        Some(ControlFault::NoMemory) => refused(fault_of(alloc, node).is_none()),
        Some(ControlFault::WrongKind) => Err(Ending::Other("its kind is refused")),
    }
}

fn made_leaves(alloc: Global, plan: &[BuildStep]) -> Result<(), Ending>
    requires { All IsLawfulStep plan.now }
{
    for step in plan {
        match step {
            BuildStep::Leaf(node) => made_leaf(alloc, node)?,
            BuildStep::Open(_) | BuildStep::Close => {}
        }
    }
    Ok(())
}

fn made(alloc: Global) -> Result<(), Ending> {
    let checked = checked_of(alloc, KINDS)?;
    let plan = checked.build_plan(alloc)?;
    made_leaves(alloc, plan.as_slice())
}

#[test]
fn controls(rt: HostRuntime) -> Result<(), Fail> {
    expect_whole(made(rt.alloc()))
}

fn copied_node(alloc: Global, node: &Node) -> Result<(), Ending> {
    let copy = node.copy(alloc)?;
    expect(copy.is(node), "another node")
}

fn copied_views(alloc: Global, dialogs: &[Dialog]) -> Result<(), Ending> {
    for dialog in dialogs {
        for view in dialog.views.as_slice() {
            copied_node(alloc, view)?;
        }
    }
    Ok(())
}

fn copied(alloc: Global) -> Result<(), Ending> {
    let checked = checked_of(alloc, KINDS)?;
    copied_views(alloc, checked.desc().dialogs.as_slice())
}

#[test]
fn copies(rt: HostRuntime) -> Result<(), Fail> {
    expect_whole(copied(rt.alloc()))
}
