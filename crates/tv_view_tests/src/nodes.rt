//! Declarations of labels, buttons and inputs that several tests use.

ghost use Rattle.std.specs.Prelude.{◌≡◌, ◌≤◌, ◌≤ℤ◌, [], pos, length, All, IfOk, Some};
ghost use Rattle.tv_cells.specs.Glyph.{IsNarrow};
ghost use Rattle.tv_model.specs.Kinds.InputLine.{HasAnyText, MayStand};
ghost use Rattle.tv_model.specs.Description.LawfulNodes.{IsLawfulCommand, IsLawfulNode};
ghost use Rattle.tv_model.specs.Description.Numbers.{IsBetween};
ghost use Rattle.tv_valid.specs.declared.input.DomainSpec.TheVariants as asked;

use crate::samples::chars;
use std::alloc::Global;
use std::test::Fail;
use tv_cells::{Point, is_narrow};
use tv_model::{Button, CommandSpec, Id, Input, Kind, Label, MarkedText, Node};
use tv_valid::{Chars, DomainSpec, InputSpec};

/// The characters of a short text, each of one column.
pub fn narrow_chars(alloc: Global, text: &str) -> Result<Chars, Fail>
    ensures { IfOk result (λ chars. (length chars ≤ 120) × All IsNarrow chars) }
{
    let chars = chars(alloc, text)?;
    if chars.as_slice().iter().any(|ch| !is_narrow(*ch)) {
        Err("a wide text")?;
    }
    Ok(chars)
}

// A text that marks its first letter.
fn marked(alloc: Global, text: &str) -> Result<MarkedText, Fail>
    ensures { IfOk result (λ marked. (length marked.text ≤ 120) × All IsNarrow marked.text) }
{
    Ok(MarkedText {
        text: narrow_chars(alloc, text)?,
        mark: Some(0),
    })
}

/// A label in 8 columns, which stands for the control of a name and marks its first letter.
pub fn label_node(
    alloc: Global,
    id: u32,
    corner: Point,
    text: &str,
    link: &str,
) -> Result<Node, Fail>
    requires across { (pos 0 ≤ℤ corner.x) × (corner.x ≤ℤ pos 50) }
    requires down { (pos 0 ≤ℤ corner.y) × (corner.y ≤ℤ pos 50) }
    ensures { IfOk result IsLawfulNode }
{
    let text = marked(alloc, text)?;
    let link = narrow_chars(alloc, link)?;
    Ok(Node {
        id: Id(id),
        depth: 0,
        x: corner.x,
        y: corner.y,
        w: 8,
        kind: Kind::Label(Label { text, link }),
    })
}

/// A button in 8 columns, which takes the focus and marks its first letter.
pub fn button_node(
    alloc: Global,
    id: u32,
    corner: Point,
    text: &str,
    command: CommandSpec,
) -> Result<Node, Fail>
    requires across { (pos 0 ≤ℤ corner.x) × (corner.x ≤ℤ pos 50) }
    requires down { (pos 0 ≤ℤ corner.y) × (corner.y ≤ℤ pos 50) }
    requires command { IsLawfulCommand (Some command) }
    ensures { IfOk result IsLawfulNode }
{
    let text = marked(alloc, text)?;
    Ok(Node {
        id: Id(id),
        depth: 0,
        x: corner.x,
        y: corner.y,
        w: 8,
        kind: Kind::Button(Button {
            name: Chars::new(alloc),
            text,
            command,
            is_default: false,
            grabs: true,
        }),
    })
}

// What an input asks that takes any text of 4 characters.
#[tactic(auto, using(crate::proofs::AnyTextLemmas::any_text, crate::proofs::AnyTextLemmas::any_start))]
fn any_text() -> InputSpec
    ensures text { HasAnyText result }
    ensures start { MayStand [] result }
    ensures most { IsBetween (pos 1) (pos 120) result.max }
    ensures domain { result.domain ≡ asked.Any }
{
    InputSpec {
        max: 4,
        domain: DomainSpec::Any,
        optional: false,
        fill: false,
    }
}

/// An input in 8 columns, which takes any text of 4 characters.
pub fn input_node(alloc: Global, id: u32, corner: Point) -> Result<Node, Fail>
    requires across { (pos 0 ≤ℤ corner.x) × (corner.x ≤ℤ pos 50) }
    requires down { (pos 0 ≤ℤ corner.y) × (corner.y ≤ℤ pos 50) }
    ensures { IfOk result IsLawfulNode }
{
    Ok(Node {
        id: Id(id),
        depth: 0,
        x: corner.x,
        y: corner.y,
        w: 8,
        kind: Kind::Input(Input {
            name: Chars::new(alloc),
            spec: any_text(),
            start: Chars::new(alloc),
            validates: false,
        }),
    })
}
