//! The order in which the views of a description are made.

ghost use Rattle.std.specs.Prelude.{◌≡◌, ◌++◌, filter_map, map, replicate, All, IfOk, OnOk};
ghost use Rattle.tv_model.specs.Description.Heads.{all_nodes};
ghost use Rattle.tv_model.specs.Description.LawfulNodes.{IsLawfulNode};
ghost use Rattle.tv_declarations.specs.Spelling.{dialog_declarations, view_declarations, window_declarations};
ghost use Rattle.tv_check.specs.Plan.{Closes, IsLawfulStep, lent_step, planned_node, node_step, build_plan_of, steps_of};

use crate::acceptance::Checked;
use std::alloc::{AllocError, Global};
use tv_model::{Desc, Dialog, Kind, Node, Window};

/// A step of making views.
#[derive(Clone, Copy)]
pub enum BuildStep<'a> {
    /// A window, dialog or pane begins: what comes up to its `Close` stands in it.
    Open(&'a Node),
    /// A control, label or static text.
    Leaf(&'a Node),
    /// The innermost window, dialog or pane that is open ends.
    Close,
}

fn step_of(node: &Node) -> BuildStep
    ensures { lent_step result ≡ node_step node.now }
{
    match node.kind {
        Kind::Window(_) | Kind::Dialog(_) | Kind::Pane(_) => BuildStep::Open(node),
        _ => BuildStep::Leaf(node),
    }
}

fn close(plan: &mut Vec<BuildStep>, count: usize) -> Result<(), AllocError>
    ensures { OnOk result (map lent_step plan.new.items ≡ map lent_step plan.old.items ++ replicate count Closes) }
{
    for _ in 0..count {
        plan.push(BuildStep::Close)?;
    }
    Ok(())
}

fn add_views<'a>(plan: &mut Vec<BuildStep<'a>>, views: &'a [Node]) -> Result<(), AllocError>
    ensures { OnOk result (map lent_step plan.new.items ≡ map lent_step plan.old.items ++ steps_of (view_declarations 0 views.now)) }
{
    let mut panes = 0usize;
    for view in views {
        let depth = usize::from(view.depth);
        close(plan, panes.saturating_sub(depth))?;
        plan.push(step_of(view))?;
        panes = depth + usize::from(view.kind.is_pane());
    }
    close(plan, panes)
}

fn add_texts<'a>(plan: &mut Vec<BuildStep<'a>>, texts: &'a [Node]) -> Result<(), AllocError>
    ensures { OnOk result (map lent_step plan.new.items ≡ map lent_step plan.old.items ++ map node_step texts.now) }
{
    for text in texts {
        plan.push(step_of(text))?;
    }
    Ok(())
}

fn add_window<'a>(plan: &mut Vec<BuildStep<'a>>, window: &'a Window) -> Result<(), AllocError>
    ensures { OnOk result (map lent_step plan.new.items ≡ map lent_step plan.old.items ++ steps_of (window_declarations window.now)) }
{
    plan.push(step_of(&window.node))?;
    add_texts(plan, window.views.as_slice())?;
    plan.push(BuildStep::Close)?;
    Ok(())
}

fn add_dialog<'a>(plan: &mut Vec<BuildStep<'a>>, dialog: &'a Dialog) -> Result<(), AllocError>
    ensures { OnOk result (map lent_step plan.new.items ≡ map lent_step plan.old.items ++ steps_of (dialog_declarations dialog.now)) }
{
    plan.push(step_of(&dialog.node))?;
    add_views(plan, dialog.views.as_slice())?;
    plan.push(BuildStep::Close)?;
    Ok(())
}

fn plan_of(alloc: Global, desc: &Desc) -> Result<Vec<BuildStep>, AllocError>
    ensures { IfOk result (λ plan. map lent_step plan.items ≡ build_plan_of desc.now) }
{
    let mut plan = Vec::new(alloc);
    for window in desc.windows.as_slice() {
        add_window(&mut plan, window)?;
    }
    for dialog in desc.dialogs.as_slice() {
        add_dialog(&mut plan, dialog)?;
    }
    Ok(plan)
}

impl Checked {
    /// Lists the steps of making all views: windows first, then dialogs, each in the order of the description.
    pub fn build_plan(&self, alloc: Global) -> Result<Vec<BuildStep>, AllocError>
        ensures plan { IfOk result (λ plan. map lent_step plan.items ≡ build_plan_of self.now) }
        ensures nodes { IfOk result (λ plan. filter_map planned_node (map lent_step plan.items) ≡ all_nodes self.now) }
        ensures lawful { IfOk result (λ plan. All IsLawfulNode (filter_map planned_node (map lent_step plan.items))) }
        ensures steps { IfOk result (λ plan. All IsLawfulStep plan.items) }
    {
        plan_of(alloc, self.desc())
    }
}
