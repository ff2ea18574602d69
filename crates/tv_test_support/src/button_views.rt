//! Views for descriptions whose controls are all buttons: a run is then made of one type of view.

ghost use Rattle.tv_check.specs.Plan.{IsLawfulStep};
ghost use Rattle.tv_model.specs.Description.LawfulNodes.{IsLawfulNode};

use std::alloc::Global;
use tv_check::{BuildStep, Checked};
use tv_controls::{Button, ControlFault};
use tv_model::Node;
use tv_session::{BuildFault, Building, Views};

/// The windows and bodies that a checked description declares.
///
/// # Errors
///
/// `WrongPlan` where one of its controls is no button, `NoMemory`.
pub fn buttons(alloc: Global, checked: &Checked) -> Result<Views<Button>, BuildFault> {
    let plan = checked.build_plan(alloc)?;
    let mut building = Building::new(alloc);
    for step in plan.as_slice() {
        take_step(alloc, &mut building, step)?;
    }
    building.finish()
}

/// No views at all, whatever the description declares.
pub fn no_views(alloc: Global, _checked: &Checked) -> Result<Views<Button>, BuildFault> {
    Ok(Views {
        windows: Vec::new(alloc),
        bodies: Vec::new(alloc),
    })
}

/// Takes a step of making them.
///
/// # Errors
///
/// Those of `Building`, and `WrongPlan` where the leaf is no button.
pub fn take_step<'a>(
    alloc: Global,
    building: &mut Building<'a, Button>,
    step: &BuildStep<'a>,
) -> Result<(), BuildFault>
    requires { IsLawfulStep step.now }
{
    match step {
        BuildStep::Open(node) => building.begin(alloc, node),
        BuildStep::Leaf(node) => building.add(button(alloc, node)?),
        BuildStep::Close => building.end(),
    }
}

fn button(alloc: Global, node: &Node) -> Result<Button, BuildFault>
    requires { IsLawfulNode node.now }
{
    match Button::new(alloc, node) {
        Ok(button) => Ok(button),
        Err(ControlFault::NoMemory) => Err(BuildFault::NoMemory),
        Err(ControlFault::WrongKind) => Err(BuildFault::WrongPlan),
    }
}
