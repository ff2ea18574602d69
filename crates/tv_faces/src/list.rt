//! Lists.

ghost use Rattle.std.specs.Prelude.{◌≡◌, ◌==◌, ◌+◌};
ghost use Rattle.tv_model.specs.Controls.Contents.{text_at};
ghost use Rattle.tv_model.specs.Kinds.ListBox.{list_role};
ghost use Rattle.tv_palette.specs.Palettes.{colour_in};
ghost use Rattle.tv_palette.specs.declared.role.Role.TheVariants as roles;

use crate::row::{text_char, write_row};
use tv_cells::{Cell, Face};
use tv_palette::{Chain, ListRole, Role};
use tv_valid::Chars;

/// A list, an item a row from that of the top row on.
#[derive(Clone, Copy)]
pub struct ListFace<'a> {
    pub items: &'a [Chars],
    /// The chosen item, from 1.
    pub chosen: u8,
    /// The item of the top row, from 1.
    pub top: u8,
    pub is_focused: bool,
    /// The palettes of what it stands in.
    pub chain: &'a Chain,
}

fn item_text(items: &[Chars], item: usize) -> &[char]
    ensures { result.now ≡ text_at items.now item }
{
    match items.get(item.saturating_sub(1)) {
        Some(text) => text.as_slice(),
        None => &[],
    }
}

fn role(is_focused: bool, is_chosen: bool) -> ListRole
    ensures { result ≡ list_role is_focused is_chosen }
{
    if !is_chosen {
        ListRole::Normal
    } else if is_focused {
        ListRole::Focused
    } else {
        ListRole::Chosen
    }
}

impl ListFace<'_> {
    // The item of a row, from 1.
    fn item(&self, y: u32) -> usize
        ensures { result ≡ self.now.top + y }
    {
        self.top as usize + y as usize
    }

    // The attribute of an item's row.
    fn attr(&self, item: usize) -> u8
        ensures { result ≡ colour_in self.now.chain.now (roles.List (list_role self.now.is_focused (self.now.chosen == item))) }
    {
        Role::List(role(self.is_focused, self.chosen as usize == item)).attr(self.chain)
    }
}

impl Face for ListFace<'_> {
    ghost use Rattle.tv_faces.specs.Choices.{list_cells};

    ghost face = { list_cells };

    fn at(&self, x: u32, y: u32) -> Cell {
        let item = self.item(y);
        let text = item_text(self.items, item);
        Cell::shown(text_char(text, x as usize), self.attr(item))
    }

    fn row(&self, y: u32, from: u32, cells: &mut [Cell]) {
        let item = self.item(y);
        let text = item_text(self.items, item);
        write_row(text, self.attr(item), from as usize, cells);
    }
}
