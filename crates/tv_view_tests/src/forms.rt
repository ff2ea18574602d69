//! A group of probes with a pane in it, by which several tests go.

ghost use Rattle.std.specs.Prelude.{◌≤ℤ◌, pos};
ghost use Rattle.tv_model.specs.Description.LawfulNodes.{IsLawfulNode};
ghost use Rattle.tv_model.specs.Description.Rectangles.{place_of_node, IsSmallRect};

use crate::journal::Journal;
use crate::nodes::{button_node, input_node, label_node};
use crate::samples::{sized, text_node};
use crate::views::Probe;
use std::alloc::Global;
use std::rc::Rc;
use std::test::Fail;
use tv_cells::{Point, Rect};
use tv_controls::{Button, InputLine, Label, StaticText};
use tv_group::{Group, Member};
use tv_model::{CommandSpec, Id, Node};

/// The leaves of the form, in order. Those of the label and the buttons mark letters, and the text is no control.
pub const LEAVES: [u32; 6] = [LABEL, FIRST, INNER, TEXT, INPUT, LAST];

pub const LABEL: u32 = 2;

pub const FIRST: u32 = 3;
// The pane has line 4.
pub const INNER: u32 = 5;

pub const TEXT: u32 = 6;

pub const INPUT: u32 = 7;

pub const LAST: u32 = 8;

// The members of a node, by functions of their own: no node is then alive over a call that may fail, where each such call
// would be one more path on which all that a node may hold is dropped.

fn button_of(alloc: Global, node: &Node, journal: &Rc<Journal>) -> Result<Member, Fail>
    requires { IsLawfulNode node.now }
{
    let probe = Probe::new(Button::new(alloc, node)?, journal)?;
    Ok(Member::Leaf(Box::new(alloc, probe)?))
}

fn label_of(alloc: Global, node: &Node, journal: &Rc<Journal>) -> Result<Member, Fail>
    requires { IsLawfulNode node.now }
{
    let probe = Probe::new(Label::new(alloc, node)?, journal)?;
    Ok(Member::Leaf(Box::new(alloc, probe)?))
}

fn input_of(alloc: Global, node: &Node, journal: &Rc<Journal>) -> Result<Member, Fail>
    requires { IsLawfulNode node.now }
{
    let probe = Probe::new(InputLine::new(alloc, node)?, journal)?;
    Ok(Member::Leaf(Box::new(alloc, probe)?))
}

fn text_of(alloc: Global, node: &Node, journal: &Rc<Journal>) -> Result<Probe<StaticText>, Fail>
    requires { IsSmallRect (place_of_node node.now) }
{
    Ok(Probe::new(StaticText::new(alloc, node)?, journal)?)
}

// A button at the left edge, which gives a command of its own.
fn button(alloc: Global, id: u32, y: i32, text: &str, journal: &Rc<Journal>) -> Result<Member, Fail>
    requires { (pos 0 ≤ℤ y) × (y ≤ℤ pos 50) }
{
    let node = button_node(alloc, id, Point { x: 1, y }, text, CommandSpec::Number(120))?;
    button_of(alloc, &node, journal)
}

fn label(alloc: Global, journal: &Rc<Journal>) -> Result<Member, Fail> {
    let node = label_node(alloc, LABEL, Point { x: 1, y: 1 }, "Amount", "amount")?;
    label_of(alloc, &node, journal)
}

fn input(alloc: Global, journal: &Rc<Journal>) -> Result<Member, Fail> {
    let node = input_node(alloc, INPUT, Point { x: 1, y: 7 })?;
    input_of(alloc, &node, journal)
}

/// A text in 9 columns that notes what it is told, by itself.
pub fn text_probe(
    alloc: Global,
    id: u32,
    text: &str,
    journal: &Rc<Journal>,
) -> Result<Probe<StaticText>, Fail> {
    let node = Node {
        id: Id(id),
        ..text_node(alloc, 9, text)?
    };
    text_of(alloc, &node, journal)
}

/// The same as a member of a group.
pub fn text(alloc: Global, id: u32, text: &str, journal: &Rc<Journal>) -> Result<Member, Fail> {
    let probe = text_probe(alloc, id, text, journal)?;
    Ok(Member::Leaf(Box::new(alloc, probe)?))
}

// A pane with a button and a text.
fn pane(alloc: Global, journal: &Rc<Journal>) -> Result<Member, Fail> {
    let mut members = Vec::new(alloc);
    members.push(button(alloc, INNER, 0, "Save", journal)?)?;
    members.push(text(alloc, TEXT, "ab", journal)?)?;
    let bounds = Rect {
        a: Point { x: 1, y: 3 },
        b: Point { x: 21, y: 6 },
    };
    let group = Group::new(bounds, members).ok().ok_or("one level")?;
    Ok(Member::Pane(group))
}

/// The members of the form: a label, a button, a pane with a button and a text, an input and a button.
pub fn members(alloc: Global, journal: &Rc<Journal>) -> Result<Vec<Member>, Fail> {
    let mut members = Vec::new(alloc);
    members.push(label(alloc, journal)?)?;
    members.push(button(alloc, FIRST, 2, "Open", journal)?)?;
    members.push(pane(alloc, journal)?)?;
    members.push(input(alloc, journal)?)?;
    members.push(button(alloc, LAST, 8, "Save", journal)?)?;
    Ok(members)
}

/// The group of these members, none of which is current.
pub fn form(alloc: Global, journal: &Rc<Journal>) -> Result<Group, Fail> {
    let members = members(alloc, journal)?;
    let form = Group::new(sized(40, 12), members).ok();
    Ok(form.ok_or("two levels")?)
}
