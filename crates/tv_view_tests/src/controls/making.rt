//! Controls, made of what a description declares: each of its own node, and of no other.

ghost use Rattle.std.specs.Prelude.{All, IfOk, IfSome};
ghost use Rattle.tv_lang.specs.CanonicalDescription.{CanBeSpelled};
ghost use Rattle.tv_model.specs.Description.LawfulNodes.{IsLawfulNode};
ghost use Rattle.tv_check.specs.Plan.{IsLawfulStep};

use std::alloc::{AllocError, Global};
use std::test::Fail;
use tv_check::{BuildStep, Certificate, CertifyFault, Checked, Refusal, accept, certify};
use tv_choices::{CheckBoxes, ListBox, RadioButtons};
use tv_controls::{Button, InputLine, Label, StaticText};
use tv_lang::{LangFault, parse};
use tv_model::{Desc, Kind, Node};
use tv_test_support::{Question, expect_answer};
use tv_view::{ControlFault, View};

/// A dialog as large as one may be, with a button, up to the fourth line. The inside of its frame is 130 wide and 56 high.
const HEAD: &str = r#"tvd 1
screen 132 60
dialog d 0 1 132 58 "" ends cancel
button c 121 56 10 "Cancel" cancel
"#;

/// The sound description of a dialog in which these views stand, from the fifth line on.
pub fn checked(alloc: Global, views: &str) -> Result<Checked, Fail> {
    let text = format!(in alloc; "{HEAD}{views}\nend\n")?;
    sound(alloc, text.as_bytes())
}

// A description without faults.
fn sound(alloc: Global, text: &[u8]) -> Result<Checked, Fail> {
    let desc = desc_of(alloc, text)?;
    let certificate = certificate_of(alloc, &desc)?;
    match outcome(alloc, desc, &certificate) {
        Ok(checked) => Ok(checked),
        Err(_) => Err(Fail::new("it is refused")),
    }
}

fn desc_of(alloc: Global, text: &[u8]) -> Result<Desc, LangFault>
    ensures { IfOk result (λ desc. CanBeSpelled desc) }
{
    parse(alloc, text)
}

fn certificate_of(alloc: Global, desc: &Desc) -> Result<Certificate, CertifyFault>
    requires { CanBeSpelled desc.now }
{
    certify(alloc, desc)
}

fn outcome(alloc: Global, desc: Desc, certificate: &Certificate) -> Result<Checked, (Refusal, Desc)>
    requires { CanBeSpelled desc }
{
    accept(alloc, desc, certificate)
}

/// The views of the dialog.
pub fn views(checked: &Checked) -> Result<&[Node], Fail> {
    let desc = checked.desc();
    let dialog = desc.dialogs.as_slice().first().ok_or("no dialog")?;
    Ok(dialog.views.as_slice())
}

/// The steps of making the views of a description, each of a lawful node.
pub fn plan(alloc: Global, checked: &Checked) -> Result<Vec<BuildStep<'_>>, AllocError>
    ensures { IfOk result (λ plan. All IsLawfulStep plan.items) }
{
    checked.build_plan(alloc)
}

// The node that a step names.
fn node_of<'a>(step: &BuildStep<'a>) -> Option<&'a Node>
    requires { IsLawfulStep step.now }
    ensures { IfSome result (λ node. IsLawfulNode node.now) }
{
    match step {
        BuildStep::Open(node) | BuildStep::Leaf(node) => Some(node),
        BuildStep::Close => None,
    }
}

/// The control of the view in the fifth line.
pub fn first_control(alloc: Global, plan: &[BuildStep<'_>]) -> Result<Box<dyn View>, Fail>
    requires { All IsLawfulStep plan.now }
{
    let Some(step) = plan.get(2) else {
        return Err("no view")?;
    };
    match node_of(step) {
        Some(node) => control(alloc, node),
        None => Err("no node")?,
    }
}

fn static_text(alloc: Global, node: &Node) -> Result<StaticText, ControlFault>
    requires { IsLawfulNode node.now }
{
    StaticText::new(alloc, node)
}

fn control(alloc: Global, node: &Node) -> Result<Box<dyn View>, Fail>
    requires { IsLawfulNode node.now }
{
    match &node.kind {
        Kind::Text(_) => Ok(Box::new(alloc, static_text(alloc, node)?)?),
        Kind::Label(_) => Ok(Box::new(alloc, Label::new(alloc, node)?)?),
        Kind::Button(_) => Ok(Box::new(alloc, Button::new(alloc, node)?)?),
        Kind::Input(_) => Ok(Box::new(alloc, InputLine::new(alloc, node)?)?),
        Kind::CheckBoxes(_) => Ok(Box::new(alloc, CheckBoxes::new(alloc, node)?)?),
        Kind::RadioButtons(_) => Ok(Box::new(alloc, RadioButtons::new(alloc, node)?)?),
        Kind::List(_) => Ok(Box::new(alloc, ListBox::new(alloc, node)?)?),
        Kind::Window(_) | Kind::Dialog(_) | Kind::Pane(_) => Err("no control")?,
    }
}

/// Of which kinds a control is made of each node, a line for each: texts, labels, buttons, inputs, check boxes, radio buttons,
/// lists.
#[derive(Clone, Copy)]
struct Making;

impl Question for Making {
    fn answer(&self, alloc: Global, text: &[u8]) -> Result<String, Fail> {
        let checked = sound(alloc, text)?;
        let plan = plan(alloc, &checked)?;
        nodes_told(alloc, plan.as_slice())
    }
}

fn nodes_told(alloc: Global, plan: &[BuildStep<'_>]) -> Result<String, Fail>
    requires { All IsLawfulStep plan.now }
{
    let mut told = String::new(alloc);
    for step in plan {
        if let Some(node) = node_of(step) {
            push_node(&mut told, alloc, node)?;
        }
    }
    Ok(told)
}

fn push_node(told: &mut String, alloc: Global, node: &Node) -> Result<(), Fail>
    requires { IsLawfulNode node.now }
{
    let answers = [
        made(node, static_text(alloc, node)),
        made(node, Label::new(alloc, node)),
        made(node, Button::new(alloc, node)),
        made(node, InputLine::new(alloc, node)),
        made(node, CheckBoxes::new(alloc, node)),
        made(node, RadioButtons::new(alloc, node)),
        made(node, ListBox::new(alloc, node)),
    ];
    for answer in answers {
        told.push(answer)?;
    }
    Ok(told.push('\n')?)
}

// `Y` where a control was made, which stands as the node declares it, and `-` where the node is of another kind.
fn made<V: View>(node: &Node, control: Result<V, ControlFault>) -> char {
    match control {
        Ok(control) => if control.is_fresh(node) { 'Y' } else { 'N' },
        Err(ControlFault::WrongKind) => '-',
        Err(ControlFault::NoMemory) => 'M',
    }
}

const NODES: &str = r#"tvd 1
screen 40 20
window w 1 1 20 6 1 "W"
text 1 1 9 1 "a"
end
dialog d 1 1 30 18 "" ends cancel
label 1 2 9 "a" t
button b 1 3 9 "a" 100
input t 1 4 9 4 any "a"
pane p 1 5 9 9
checks k 0 0 9 "a" "b" start 1 2
radios r 0 2 9 "a" "b" start 2
list l 0 4 9 5 "a" "b" start 2
end
end
dialog e 1 1 30 18 "" ends cancel
pane p 1 1 6 4
button b 0 0 6 "b" 100
end
end
"#;

// The window, its text, the dialog, and its views, among them the pane. The other dialog, its pane and the button in that.
const ANSWERS: &str = "-------
Y------
-------
-Y-----
--Y----
---Y---
-------
----Y--
-----Y-
------Y
-------
-------
--Y----
";

#[test]
fn constructors(rt: HostRuntime) -> Result<(), Fail> {
    expect_answer(&Making, rt.alloc(), NODES, ANSWERS)
}
