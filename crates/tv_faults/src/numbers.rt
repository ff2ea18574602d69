//! The numbers, sizes and counts that declarations may have.

ghost use Rattle.std.specs.Prelude.{◌≡◌, ◌&&◌, nat_le, length, pos, Some};
ghost use Rattle.tv_model.specs.Description.Nodes.{height_of};
ghost use Rattle.tv_model.specs.Description.Numbers.{is_between};
ghost use Rattle.tv_model.specs.Description.Commands.{command_of};
ghost use Rattle.tv_model.specs.Faults.Limits.{is_lawful_amount, is_lawful_corner, is_lawful_count, is_lawful_number, least_height, least_width};

use tv_model::{CommandSpec, Kind, MarkedText, Node};
use tv_overlaps::height;

/// The least width that a declaration may have, in columns.
pub fn least_width(kind: &Kind) -> i32
    ensures { result ≡ least_width kind.now }
{
    match kind {
        Kind::Window(_) | Kind::Dialog(_) => 12,
        Kind::Button(_) => 4,
        Kind::Input(_) => 3,
        Kind::CheckBoxes(_) | Kind::RadioButtons(_) => 5,
        Kind::Text(_) | Kind::Label(_) | Kind::List(_) | Kind::Pane(_) => 1,
    }
}

fn least_height(kind: &Kind) -> i128
    ensures { result ≡ least_height kind.now }
{
    match kind {
        Kind::Window(_) | Kind::Dialog(_) => 3,
        _ => 1,
    }
}

/// Whether the command is a word, or a number that a description may give.
pub fn is_lawful_command(command: CommandSpec) -> bool
    ensures { result ≡ is_lawful_number (Some command) }
{
    match command {
        CommandSpec::Number(number) => (100..=255).contains(&number),
        _ => true,
    }
}

/// Whether the declaration's command may have its number.
pub fn is_lawful_button(kind: &Kind) -> bool
    ensures { result ≡ is_lawful_number (command_of kind.now) }
{
    match kind {
        Kind::Button(button) => is_lawful_command(button.command),
        _ => true,
    }
}

// Whether a cluster may have as many items.
fn is_lawful_cluster(items: &[MarkedText]) -> bool
    ensures { result ≡ (nat_le 1 (length items.now) && nat_le (length items.now) 16) }
{
    (1..=16).contains(&items.len())
}

/// Whether the declaration has as many items as it may.
pub fn is_lawful_count(kind: &Kind) -> bool
    ensures { result ≡ is_lawful_count kind.now }
{
    match kind {
        Kind::CheckBoxes(boxes) => is_lawful_cluster(boxes.items.as_slice()),
        Kind::RadioButtons(radios) => is_lawful_cluster(radios.items.as_slice()),
        Kind::List(list) => (1..=100).contains(&list.items.as_slice().len()),
        _ => true,
    }
}

/// Whether a window's number, or the most characters of an input, is within the limits.
pub fn is_lawful_amount(kind: &Kind) -> bool
    ensures { result ≡ is_lawful_amount kind.now }
{
    match kind {
        Kind::Window(head) => (0..=9).contains(&head.number),
        Kind::Input(input) => (1..=120).contains(&input.spec.max),
        _ => true,
    }
}

/// Whether the corner is at most 132 columns and rows from that of its owner.
pub fn is_lawful_corner(node: &Node) -> bool
    ensures { result ≡ is_lawful_corner node.now }
{
    (-132..=132).contains(&node.x) && (-132..=132).contains(&node.y)
}

/// Whether the declaration is as wide as it needs, and has 132 columns at most.
pub fn is_lawful_width(node: &Node) -> bool
    ensures { result ≡ is_between (least_width node.now.kind) (pos 132) node.now.w }
{
    (least_width(&node.kind)..=132).contains(&node.w)
}

/// Whether the declaration has 60 rows at most, and as many as it needs.
pub fn is_lawful_height(kind: &Kind) -> bool
    ensures { result ≡ is_between (least_height kind.now) (pos 60) (height_of kind.now) }
{
    (least_height(kind)..=60).contains(&height(kind))
}
