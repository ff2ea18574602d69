//! What a shortcut letter acts on.

ghost use Rattle.std.specs.Prelude.{◌≡◌, ◌↔◌, IsTrue, option_map};
ghost use Rattle.tv_check.specs.Certificates.{FitsKeyLine, owner_named};
ghost use Rattle.tv_check.specs.Lent.{item_number, lent_key_owner, lent_owner, lent_when};
ghost use Rattle.tv_model.specs.Controls.Owner.{control, item_at};

use tv_certificate::KeyLine;
use tv_model::When;
use tv_valid::Chars;

/// What a letter acts on: a control, or the item at a place of one.
#[derive(Clone, Copy)]
pub struct Owner<'a> {
    pub name: &'a Chars,
    pub place: Option<usize>,
}

/// An item of radio buttons, by their name.
#[derive(Clone, Copy)]
pub struct Shown<'a> {
    pub radios: &'a Chars,
    pub item: i32,
}

/// What a letter acts on, while an item of radio buttons is marked or else always.
#[derive(Clone, Copy)]
pub struct KeyOwner<'a> {
    pub owner: Owner<'a>,
    pub when: Option<Shown<'a>>,
}

impl<'a> Owner<'a> {
    /// Returns the control itself, and no item of it.
    pub fn control(name: &'a Chars) -> Owner<'a>
        ensures { lent_owner result ≡ control name.now }
    {
        Owner { name, place: None }
    }

    /// Returns the item at the place, counted from 0, of the control.
    pub fn item_at(name: &'a Chars, place: usize) -> Owner<'a>
        ensures { lent_owner result ≡ item_at name.now place }
    {
        Owner {
            name,
            place: Some(place),
        }
    }

    /// Returns the number of the item, counted from 1, or `None` for the control itself.
    pub fn item(&self) -> Option<i32>
        requires { FitsKeyLine (lent_owner self.now) }
        ensures { result ≡ option_map item_number self.now.place }
    {
        Some(self.place? as i32 + 1)
    }
}

impl<'a> KeyOwner<'a> {
    /// Whether the key line names it.
    pub fn is_named(&self, line: &KeyLine) -> bool
        ensures { IsTrue result ↔ (owner_named line.now ≡ lent_key_owner self.now) }
    {
        is_owner_of(line, &self.owner) && is_item(&line.when, self.when)
    }
}

// Whether the key line names the control and the item.
fn is_owner_of(line: &KeyLine, owner: &Owner) -> bool
    ensures { IsTrue result ↔ ((owner_named line.now).owner ≡ lent_owner owner.now) }
{
    line.owner.is(owner.name) && is_number_of(line.item, owner.place)
}

// Whether the number of a key line, counted from 1, is that of the item at the place, or both are missing.
fn is_number_of(number: Option<i32>, place: Option<usize>) -> bool
    ensures { IsTrue result ↔ (number ≡ option_map item_number place) }
{
    match (number, place) {
        (Some(number), Some(place)) => i128::from(number) == place as i128 + 1,
        (None, None) => true,
        _ => false,
    }
}

// Whether both are the same item of radio buttons, or both are missing.
fn is_item(when: &Option<When>, shown: Option<Shown>) -> bool
    ensures { IsTrue result ↔ (when.now ≡ option_map lent_when shown.entry) }
{
    match (when, shown) {
        (Some(when), Some(shown)) => when.radios.is(shown.radios) && when.item == shown.item,
        (None, None) => true,
        _ => false,
    }
}
