//! Boxed views, made by a loop over the plan of a checked description.

ghost use Rattle.std.specs.Prelude.{All};
ghost use Rattle.tv_model.specs.Description.LawfulNodes.{IsLawfulNode};
ghost use Rattle.tv_check.specs.Plan.{IsLawfulStep};

use crate::probes::{Journal, Probe};
use std::alloc::Global;
use std::rc::Rc;
use tv_check::{BuildStep, Checked};
use tv_choices::{CheckBoxes, ListBox, RadioButtons};
use tv_controls::{Button, ControlFault, InputLine, Label, StaticText};
use tv_model::{Kind, Node};
use tv_session::{BuildFault, Building, Views};
use tv_view::View;

/// The boxed views of a description. Where there is a journal, the button `y` notes there what it is told.
pub fn views(
    alloc: Global,
    checked: &Checked,
    journal: Option<&Rc<Journal>>,
) -> Result<Views<Box<dyn View>>, BuildFault> {
    let plan = checked.build_plan(alloc)?;
    planned(alloc, plan.as_slice(), journal)
}

fn planned(
    alloc: Global,
    plan: &[BuildStep],
    journal: Option<&Rc<Journal>>,
) -> Result<Views<Box<dyn View>>, BuildFault>
    requires { All IsLawfulStep plan.now }
{
    let mut building = Building::new(alloc);
    for step in plan {
        match step {
            BuildStep::Open(node) => building.begin(alloc, node)?,
            BuildStep::Leaf(node) => building.add(leaf(alloc, node, journal)?)?,
            BuildStep::Close => building.end()?,
        }
    }
    building.finish()
}

// The view of a leaf's node.
fn leaf(
    alloc: Global,
    node: &Node,
    journal: Option<&Rc<Journal>>,
) -> Result<Box<dyn View>, BuildFault>
    requires { IsLawfulNode node.now }
{
    match journal {
        Some(journal) if is_named_y(node) => probe(alloc, node, journal),
        _ => boxed(alloc, node),
    }
}

fn is_named_y(node: &Node) -> bool {
    match node.kind.name() {
        Some(name) => name.as_slice() == ['y'].as_slice(),
        None => false,
    }
}

#[tactic(auto, using(tv_view::proofs::CoreLemmas::limited_small))]
fn probe(alloc: Global, node: &Node, journal: &Rc<Journal>) -> Result<Box<dyn View>, BuildFault>
    requires { IsLawfulNode node.now }
{
    let made = match Button::new(alloc, node) {
        Ok(button) => Ok(Probe::new(button, journal)?),
        Err(fault) => Err(fault),
    };
    Ok(in_box(alloc, made)?)
}

#[tactic(auto, using(tv_view::proofs::CoreLemmas::limited_small))]
fn boxed(alloc: Global, node: &Node) -> Result<Box<dyn View>, BuildFault>
    requires { IsLawfulNode node.now }
{
    match node.kind {
        Kind::Text(_) => Ok(in_box(alloc, StaticText::new(alloc, node))?),
        Kind::Label(_) => Ok(in_box(alloc, Label::new(alloc, node))?),
        Kind::Button(_) => Ok(in_box(alloc, Button::new(alloc, node))?),
        Kind::Input(_) => Ok(in_box(alloc, InputLine::new(alloc, node))?),
        Kind::CheckBoxes(_) => Ok(in_box(alloc, CheckBoxes::new(alloc, node))?),
        Kind::RadioButtons(_) => Ok(in_box(alloc, RadioButtons::new(alloc, node))?),
        Kind::List(_) => Ok(in_box(alloc, ListBox::new(alloc, node))?),
        Kind::Window(_) | Kind::Dialog(_) | Kind::Pane(_) => Err(BuildFault::WrongPlan),
    }
}

// The view that was made, in a box.
fn in_box<V: View>(alloc: Global, made: Result<V, ControlFault>) -> Result<Box<V>, BuildFault> {
    match made {
        Ok(view) => match Box::new(alloc, view) {
            Ok(boxed) => Ok(boxed),
            Err(_) => Err(BuildFault::NoMemory),
        },
        Err(ControlFault::NoMemory) => Err(BuildFault::NoMemory),
        Err(ControlFault::WrongKind) => Err(BuildFault::WrongPlan),
    }
}
