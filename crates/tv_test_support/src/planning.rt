//! The order in which views are made.

use crate::accepting::checked;
use crate::certifying::Certifying;
use crate::tables::Question;
use std::alloc::{AllocError, Global};
use std::test::Fail;
use tv_check::{BuildStep, Checked};
use tv_model::Node;

/// The steps of making the views of a sound description, a line for each.
#[derive(Clone, Copy)]
pub struct Planning;

impl Question for Planning {
    fn answer(&self, alloc: Global, text: &[u8]) -> Result<String, Fail> {
        let certificate = Certifying.answer(alloc, text)?;
        let with = PlanningWith {
            certificate: &certificate,
        };
        with.answer(alloc, text)
    }
}

/// The same, of a description that is accepted with this certificate.
#[derive(Clone, Copy)]
pub struct PlanningWith<'a> {
    pub certificate: &'a str,
}

impl Question for PlanningWith<'_> {
    fn answer(&self, alloc: Global, text: &[u8]) -> Result<String, Fail> {
        let checked = checked(alloc, text, self.certificate)?;
        Ok(plan_told(alloc, &checked)?)
    }
}

fn plan_told(alloc: Global, checked: &Checked) -> Result<String, AllocError> {
    let plan = plan_of(alloc, checked)?;
    steps_told(alloc, plan.as_slice())
}

fn plan_of(alloc: Global, checked: &Checked) -> Result<Vec<BuildStep<'_>>, AllocError> {
    checked.build_plan(alloc)
}

fn steps_told(alloc: Global, plan: &[BuildStep<'_>]) -> Result<String, AllocError> {
    let mut lines = String::new(alloc);
    for step in plan {
        push_step(&mut lines, alloc, step)?;
    }
    Ok(lines)
}

fn push_step(lines: &mut String, alloc: Global, step: &BuildStep<'_>) -> Result<(), AllocError> {
    match step {
        BuildStep::Open(node) => push_node(lines, alloc, "open", node),
        BuildStep::Leaf(node) => push_node(lines, alloc, "leaf", node),
        BuildStep::Close => lines.push_str("close\n"),
    }
}

// A node by its name, or by its line where it has none.
fn push_node(lines: &mut String, alloc: Global, step: &str, node: &Node) -> Result<(), AllocError> {
    lines.push_str(step)?;
    match node.kind.name() {
        Some(name) => push_name(lines, name.as_slice()),
        None => push_number(lines, alloc, node.id.0),
    }
}

fn push_name(lines: &mut String, name: &[char]) -> Result<(), AllocError> {
    lines.push(' ')?;
    for ch in name {
        lines.push(*ch)?;
    }
    lines.push('\n')
}

fn push_number(lines: &mut String, alloc: Global, line: u32) -> Result<(), AllocError> {
    let line = format!(in alloc; " line {line}\n")?;
    lines.push_str(&line)
}
