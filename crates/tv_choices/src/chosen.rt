//! What a list has chosen, and from which item on it shows its items.

ghost use Rattle.std.specs.Prelude.{◌≡◌, ◌≤◌, ◌<◌, ◌+◌, ◌-◌, max};
ghost use Rattle.tv_model.specs.Kinds.ListBox.{asked_item, chosen, item_at_row, top_for, within};
ghost use Rattle.tv_choices.specs.Choices.{choice_of};

use tv_event::Key;

/// The chosen item of a list and that of its top row, from 1.
#[derive(Clone, Copy, PartialEq, Eq)]
pub(crate) struct Chosen {
    pub item: u8,
    pub top: u8,
}

// An item, or the nearest that there is.
fn within(count: usize, item: u32) -> u8
    requires { count < 256 }
    ensures { result ≡ within count item }
{
    1_u32.max(item.min(count as u32)) as u8
}

// The top moves by the least amount that shows the item.
fn top_for(height: u32, item: u8, top: u8) -> u8
    requires one { 1 ≤ height }
    requires low { height ≤ 60 }
    ensures { result ≡ top_for height item top }
{
    let below = top as u32 + height;
    if item < top {
        item
    } else if below <= item as u32 {
        (item as u32 + 1 - height) as u8
    } else {
        top
    }
}

// The top of a list that opens with the item.
fn first_top(height: u32, item: u8) -> u8
    requires { 1 ≤ height }
    ensures { result ≡ max 1 (item + 1 - height) }
{
    1_u32.max((item as u32 + 1).saturating_sub(height)) as u8
}

impl Chosen {
    /// Starts a list of so many rows with the item chosen and in view.
    pub(crate) fn opened(height: u32, item: u8) -> Chosen
        requires { 1 ≤ height }
        ensures item { result.item ≡ item }
        ensures top { result.top ≡ max 1 (item + 1 - height) }
    {
        Chosen {
            item,
            top: first_top(height, item),
        }
    }

    /// Chooses the item instead, or the nearest of so many.
    pub(crate) fn with(self, height: u32, count: usize, item: u32) -> Chosen
        requires one { 1 ≤ height }
        requires low { height ≤ 60 }
        requires count { count < 256 }
        ensures { choice_of result ≡ chosen height count item (choice_of self) }
    {
        let item = within(count, item);
        Chosen {
            item,
            top: top_for(height, item, self.top),
        }
    }

    /// Returns the item that a key asks for, or `None` for another key.
    pub(crate) fn asked_item(self, height: u32, count: usize, key: Key) -> Option<u32>
        requires low { height ≤ 60 }
        requires count { count < 256 }
        ensures { result ≡ asked_item height count (choice_of self) key }
    {
        let item = self.item as u32;
        let top = self.top as u32;
        match key {
            Key::Up => Some(item.saturating_sub(1)),
            Key::Down => Some(item + 1),
            Key::PageUp => Some(item.saturating_sub(height)),
            Key::PageDown => Some(item + height),
            Key::Home => Some(top),
            Key::End => Some((top + height).saturating_sub(1)),
            Key::CtrlPageUp => Some(1),
            Key::CtrlPageDown => Some(count as u32),
            _ => None,
        }
    }

    /// Returns the item of a row, or the last one where the row lies below it.
    pub(crate) fn item_at_row(self, count: usize, row: u32) -> u32
        requires { count < 256 }
        ensures { result ≡ item_at_row count (choice_of self) row }
    {
        (self.top as usize + row as usize).min(count) as u32
    }
}
