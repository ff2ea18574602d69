//! Declarations by the lines on which they stand.

ghost use Rattle.std.specs.Prelude.{◌≡◌, ◌≤◌, ◌<◌, ◌==◌, IsTrue, length, option_copied, position};
ghost use Rattle.std.specs.List.Sorted.{IsNonDecreasingBy, IsPartitionPoint};
ghost use Rattle.std.specs.Option.{option_map};
ghost use Rattle.tv_explain.specs.Lines.{around_line, at_line, node_line};

use std::marker::Model;
use tv_faults::Line;
use tv_model::Node;

/// Whether none of these has a lower line than the one before.
pub fn are_in_order<L: Line>(items: &[L]) -> bool
    ensures { IsTrue result → IsNonDecreasingBy L.number items.now }
{
    let mut last = 0;
    for item in items {
        let number = item.number();
        if number < last {
            return false;
        }
        last = number;
    }
    true
}

/// Declarations, each of which is found by its line. Those that were read stand in the order of their lines, so that few of them
/// are asked. Contracts see the declarations.
#[derive(Drop)]
pub struct Listed<'a, L: Line> {
    items: &'a [L],
    are_in_order: bool,
}

impl<'a, L: Line> Model for Listed<'a, L> {
    ghost use Rattle.std.specs.Prelude.{IsTrue, List};
    ghost use Rattle.std.specs.List.Sorted.{IsNonDecreasingBy};

    ghost Value = { List L };

    ghost view = { λ listed. listed.items.now };

    ghost invariant = { λ listed. IsTrue listed.are_in_order → IsNonDecreasingBy L.number listed.items.now };
}

impl<'a, L: Line> Listed<'a, L> {
    /// Lists the declarations.
    pub fn new(items: &'a [L], are_in_order: bool) -> Listed<'a, L>
        requires { IsTrue are_in_order → IsNonDecreasingBy L.number items.now }
        ensures { result ≡ items.now }
    {
        Listed {
            items,
            are_in_order,
        }
    }

    /// Returns the declarations.
    pub fn items(&self) -> &'a [L]
        ensures { result.now ≡ self.now }
    {
        self.items
    }
}

// The place of the first declaration on this line or behind it.
fn first_from<L: Line>(items: &[L], line: u32) -> usize
    requires { IsNonDecreasingBy L.number items.now }
    ensures within { result ≤ length items.now }
    ensures parted { IsPartitionPoint (λ item. L.number item < line) (λ item. line ≤ L.number item) items.now result }
{
    items.partition_point(|item| item.number() < line)
}

// The place of the declaration on this line.
fn place_at<L: Line>(items: &Listed<L>, line: u32) -> Option<usize>
    ensures { result ≡ position (λ item. L.number item == line) items.now }
{
    let list = items.items;
    if !items.are_in_order {
        return list.iter().position(|item| item.number() == line);
    }
    let at = first_from(list, line);
    match list.get(at) {
        Some(item) if item.number() == line => Some(at),
        _ => None,
    }
}

/// Finds the declaration on this line, with those before it.
pub fn at_line<'a, L: Line>(items: &Listed<'a, L>, line: u32) -> Option<(&'a [L], &'a L)>
    ensures { option_map (λ pair. (pair.0.now, pair.1.now)) result ≡ at_line L.number line items.now }
{
    let list = items.items;
    match place_at(items, line) {
        Some(at) => Some((&list[..at], &list[at])),
        None => None,
    }
}

/// Finds the last declaration that begins on this line or before it.
pub fn around_line<L: Line>(items: &[L], line: u32) -> Option<&L>
    ensures { option_copied result ≡ around_line L.number line items.now }
{
    items.iter().rev().find(|item| item.number() <= line)
}

/// Returns the line of a node that was found.
pub fn line_of(found: Option<&Node>) -> Option<u32>
    ensures { result ≡ node_line (option_copied found.entry) }
{
    found.map(|node| node.id.0)
}
