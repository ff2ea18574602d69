//! What check boxes and radio buttons have in common.

ghost use Rattle.std.specs.Prelude.{◌≡◌, ◌<◌, ◌≤◌, ◌==◌, ◌+◌, ◌+ℤ◌, ◌≤ℤ◌, IfSome, None, Some, length, pos, position, if◌then◌else◌};
ghost use Rattle.std.specs.Int.{int_gap};
ghost use Rattle.tv_cells.specs.Layers.{is_in};
ghost use Rattle.tv_model.specs.Controls.Shortcut.{item_marking};
ghost use Rattle.tv_model.specs.Kinds.Cluster.{cluster_key, item_after, item_before};
ghost use Rattle.tv_model.specs.Controls.Contents.{is_item_place};
ghost use Rattle.tv_model.specs.Description.Rectangles.{IsSmallRect};
ghost use Rattle.tv_view.specs.Meaning.{Leaf};
ghost use Rattle.tv_model.specs.Description.Marks.{marks};
ghost use Rattle.tv_view.specs.Reactions.{calling_letter, called_item, item_call};
ghost use Rattle.tv_choices.specs.Choices.{key_item, cluster_key_of};

use tv_cells::{Point, Rect};
use tv_event::{Key, Phase};
use tv_model::{Id, MarkedText};
use tv_view::{Reaction, contains, row_of};

/// What a key does to a cluster. Items count from 1.
#[derive(Clone, Copy)]
pub(crate) enum ClusterKey {
    /// Nothing: it isn't one of the cluster's.
    Passed,
    Selects(u8),
    Presses(u8),
}

fn item_before(count: usize, item: u8) -> u8
    requires { count < 256 }
    ensures is { result ≡ item_before count item }
    ensures few { count ≤ 16 → item ≤ 16 → result ≤ 16 }
{
    if item <= 1 { count as u8 } else { item - 1 }
}

fn item_after(count: usize, item: u8) -> u8
    requires { count < 256 }
    ensures is { result ≡ item_after count item }
    ensures few { count ≤ 16 → item ≤ 16 → result ≤ 16 }
{
    if count <= item as usize { 1 } else { item + 1 }
}

fn place_marking(items: &[MarkedText], letter: char) -> Option<usize>
    ensures place { result ≡ position (marks letter) items.now }
    ensures within { IfSome result (λ place. place < length items.now) }
{
    items.iter().position(|item| item.marks(letter))
}

// The first item that marks a letter, in either case.
fn item_marking(items: &[MarkedText], ch: char) -> Option<u8>
    requires { length items.now < 256 }
    ensures is { result ≡ item_marking items.now ch }
    ensures within { IfSome result (λ item. item ≤ length items.now) }
{
    let place = place_marking(items, ch.to_ascii_uppercase())?;
    Some(place as u8 + 1)
}

/// Returns what a key does to a cluster of these items, of which item `at` is selected.
pub(crate) fn cluster_key(items: &[MarkedText], at: u8, key: Key) -> ClusterKey
    requires { length items.now < 256 }
    ensures is { cluster_key_of result ≡ cluster_key items.now (length items.now) at key }
    ensures few { length items.now ≤ 16 → at ≤ 16 → key_item result ≤ 16 }
{
    match key {
        Key::Up => ClusterKey::Selects(item_before(items.len(), at)),
        Key::Down => ClusterKey::Selects(item_after(items.len(), at)),
        Key::Char(' ') => ClusterKey::Presses(at),
        Key::Char(ch) => match item_marking(items, ch) {
            Some(item) => ClusterKey::Presses(item),
            None => ClusterKey::Passed,
        },
        _ => ClusterKey::Passed,
    }
}

// The letter by which a key calls a cluster from any focus.
fn called(key: Key, phase: Phase) -> Option<char>
    ensures { result ≡ calling_letter phase key }
{
    match phase {
        Phase::Focused => None,
        Phase::Pre => match key {
            Key::Alt(ch) => Some(ch),
            _ => None,
        },
        Phase::Post => match key {
            Key::Char(ch) => Some(ch),
            _ => None,
        },
    }
}

fn called_item(items: &[MarkedText], letter: Option<char>) -> Option<u8>
    requires { length items.now < 256 }
    ensures { result ≡ called_item items.now letter }
{
    item_marking(items, letter?)
}

/// Returns what the cluster of the id answers to a key before or after the focus gets it: a letter asks for the focus
/// and its item.
pub(crate) fn letter_answer(id: Id, items: &[MarkedText], key: Key, phase: Phase) -> Reaction
    requires { length items.now < 256 }
    ensures { (leaf : Leaf) → leaf.node.id ≡ id → result ≡ item_call leaf (called_item items.now (calling_letter phase key)) }
{
    match called_item(items, called(key, phase)) {
        Some(item) => Reaction::FocusPress(id, item),
        None => Reaction::Pass,
    }
}

/// Whether a cluster or a list of so many items has the item.
pub(crate) fn is_item(count: usize, item: u8) -> bool
    ensures { result ≡ is_item_place count item }
{
    1 <= item && item as usize <= count
}

/// Returns the item of the row of a point, from 1, or the first one for a point above the rectangle.
pub(crate) fn row_item(bounds: Rect, point: Point) -> u32
    requires { IsSmallRect bounds }
    ensures { result ≡ int_gap bounds.a.y point.y + 1 }
{
    row_of(bounds, point) + 1
}

/// Returns the item that is pressed where the mouse goes up: that of the row, if it is the one that the cluster
/// remembers.
pub(crate) fn item_released(bounds: Rect, point: Point, item: u32) -> Option<u8>
    requires small { IsSmallRect bounds }
    requires rows { bounds.b.y ≤ℤ (bounds.a.y +ℤ pos 16) }
    ensures is { result ≡ (if is_in bounds point.x point.y
        then (if int_gap bounds.a.y point.y + 1 == item then Some (int_gap bounds.a.y point.y + 1) else None)
        else None) }
    ensures few { IfSome result (λ item. item ≤ 16) }
{
    if contains(bounds, point) && row_item(bounds, point) == item {
        Some(item as u8)
    } else {
        None
    }
}
