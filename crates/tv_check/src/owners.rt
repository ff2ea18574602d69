//! The owners of a dialog's shortcut letters, found in one pass over its views, and those of letters that views share.

ghost use Rattle.std.specs.Prelude.{◌≡◌, ℕ, Some, None, IfOk, map, option_map, option_to_list, position, if◌then◌else◌};
ghost use Rattle.std.specs.Option.{option_or};
ghost use Rattle.tv_model.specs.Controls.Owner.{control, item_at};
ghost use Rattle.tv_model.specs.Description.Marks.{marks};
ghost use Rattle.tv_model.specs.Description.Nodes.{name_of};
ghost use Rattle.tv_model.specs.Description.Owners.{always, owner_by, owner_of, owners_at, owners_of, when_from};
ghost use Rattle.tv_check.specs.Lent.{lent_key_owner, lent_owner, lent_when};
ghost use Rattle.tv_check.specs.Owners.{AreOwnersOf, owner_at_item, owner_for, ruled, shared_views};

use crate::owner::{KeyOwner, Owner, Shown};
use indexmap::IndexMap;
use std::alloc::{AllocError, Global};
use std::marker::Model;
use tv_model::{Dialog, Kind, MarkedText, Node, Version};
use tv_names::{Sharing, marks};
use tv_valid::Chars;

/// The letters that a dialog's views mark, each with what it acts on. Contracts see the dialog and the version.
#[derive(Drop)]
pub struct Owners<'a> {
    version: Version,
    dialog: &'a Dialog,
    by_letter: IndexMap<char, Owner<'a>>,
    sharing: Option<Sharing<'a>>,
}

impl<'a> Model for Owners<'a> {
    ghost use Rattle.std.specs.Prelude.{◌≡◌};
    ghost use Rattle.tv_check.specs.Owners.{AreOwnersOf, VersionedDialog, shared_views};

    ghost Value = { VersionedDialog };

    ghost view = { λ owners. record { version = owners.version; dialog = owners.dialog.now } };

    ghost invariant = { λ owners.
        AreOwnersOf owners.dialog.now.views owners.by_letter
        × (owners.sharing ≡ shared_views owners.version owners.dialog.now) };
}

// Notes the owner for the letter that the text marks, where the letter has none yet.
fn note<'a>(
    owners: &mut IndexMap<char, Owner<'a>>,
    text: &MarkedText,
    owner: Owner<'a>,
) -> Result<(), AllocError>
    ensures { IfOk result (λ _. (letter : ℕ) →
        owner_for owners.new letter
        ≡ option_or (owner_for owners.old letter)
        (if marks letter text.now then Some (lent_owner owner.entry) else None)) }
{
    if let Some(letter) = text.letter() {
        if !owners.contains_key(&letter) {
            owners.insert(letter, owner)?;
        }
    }
    Ok(())
}

// Notes the items of a cluster for the letters that they mark.
fn note_items<'a>(
    owners: &mut IndexMap<char, Owner<'a>>,
    name: &'a Chars,
    items: &[MarkedText],
) -> Result<(), AllocError>
    ensures { IfOk result (λ _. (letter : ℕ) →
        owner_for owners.new letter
        ≡ option_or (owner_for owners.old letter)
        (option_map (item_at name.now) (position (marks letter) items.now))) }
{
    for (place, item) in items.iter().enumerate() {
        note(owners, item, Owner::item_at(name, place))?;
    }
    Ok(())
}

// Notes what the declaration's letters act on.
fn note_kind<'a>(owners: &mut IndexMap<char, Owner<'a>>, kind: &'a Kind) -> Result<(), AllocError>
    ensures { IfOk result (λ _. (letter : ℕ) →
        owner_for owners.new letter ≡ option_or (owner_for owners.old letter) (owner_by letter kind.now)) }
{
    match kind {
        Kind::Label(label) => note(owners, &label.text, Owner::control(&label.link)),
        Kind::Button(button) => note(owners, &button.text, Owner::control(&button.name)),
        Kind::CheckBoxes(boxes) => note_items(owners, &boxes.name, boxes.items.as_slice()),
        Kind::RadioButtons(radios) => note_items(owners, &radios.name, radios.items.as_slice()),
        _ => Ok(()),
    }
}

// The owner of each letter that the views mark: the first view that marks it gives it.
fn owners_of<'a>(alloc: Global, views: &'a [Node]) -> Result<IndexMap<char, Owner<'a>>, AllocError>
    ensures { IfOk result (AreOwnersOf views.now) }
{
    let mut owners = IndexMap::new(alloc);
    for view in views {
        note_kind(&mut owners, &view.kind)?;
    }
    Ok(owners)
}

// What the views share, where the version lets them.
fn sharing_of<'a>(
    alloc: Global,
    version: Version,
    dialog: &'a Dialog,
) -> Result<Option<Sharing<'a>>, AllocError>
    ensures { IfOk result (λ sharing. sharing ≡ shared_views version dialog.now) }
{
    match version {
        Version::One => Ok(None),
        Version::Two => {
            let sharing = Sharing::new(alloc, dialog.views.as_slice(), dialog.rules.as_slice())?;
            Ok(Some(sharing))
        }
    }
}

// The place of the first item that marks the letter.
fn place_of(letter: char, items: &[MarkedText]) -> Option<usize>
    ensures { result ≡ position (marks letter) items.now }
{
    items.iter().position(|item| marks(letter, item))
}

// The item of the cluster that marks the letter.
fn owner_in<'a>(letter: char, name: &'a Chars, items: &[MarkedText]) -> Option<Owner<'a>>
    ensures { option_map lent_owner result ≡ option_map (item_at name.now) (position (marks letter) items.now) }
{
    Some(Owner::item_at(name, place_of(letter, items)?))
}

// The control, where the text marks the letter.
fn owner_where<'a>(letter: char, name: &'a Chars, text: &MarkedText) -> Option<Owner<'a>>
    ensures { option_map lent_owner result ≡ (if marks letter text.now then Some (control name.now) else None) }
{
    if marks(letter, text) {
        Some(Owner::control(name))
    } else {
        None
    }
}

// What the letter acts on, where the declaration marks it.
fn owner_by<'a>(letter: char, kind: &'a Kind) -> Option<Owner<'a>>
    ensures { option_map lent_owner result ≡ owner_by letter kind.now }
{
    match kind {
        Kind::Label(label) => owner_where(letter, &label.link, &label.text),
        Kind::Button(button) => owner_where(letter, &button.name, &button.text),
        Kind::CheckBoxes(boxes) => owner_in(letter, &boxes.name, boxes.items.as_slice()),
        Kind::RadioButtons(radios) => owner_in(letter, &radios.name, radios.items.as_slice()),
        _ => None,
    }
}

// The item of the radio buttons, by their name.
fn shown_at<'a>(radios: &'a Kind, item: Option<i32>) -> Option<Shown<'a>>
    ensures { option_map lent_when result ≡ when_from (name_of radios.now) item }
{
    match (radios.name(), item) {
        (Some(radios), Some(item)) => Some(Shown { radios, item }),
        _ => None,
    }
}

// What the letter acts on while the item is marked, where the declaration marks the letter.
fn owner_at_item<'a>(
    letter: char,
    radios: &'a Kind,
    item: Option<i32>,
    kind: &'a Kind,
) -> Option<KeyOwner<'a>>
    ensures { option_map lent_key_owner result ≡ owner_at_item letter radios.now item kind.now }
{
    let owner = owner_by(letter, kind)?;
    let when = shown_at(radios, item);
    Some(KeyOwner { owner, when })
}

// What the letter acts on by each of the views that share it by the radio buttons.
fn owners_by<'a>(
    alloc: Global,
    dialog: &'a Dialog,
    sharing: &Sharing<'a>,
    radios: &'a Node,
    letter: char,
) -> Result<Vec<KeyOwner<'a>>, AllocError>
    requires { sharing.now ≡ ruled dialog.now.views dialog.now.rules }
    ensures { IfOk result (λ owners. map lent_key_owner owners.items ≡ owners_at dialog.now letter (Some radios.now)) }
{
    let views = dialog.views.as_slice();
    let places = sharing.markers(alloc, letter)?;
    let mut owners = Vec::new(alloc);
    for place in places.as_slice() {
        let item = sharing.item(radios, *place);
        let kind = &views[*place].kind;
        if let Some(owner) = owner_at_item(letter, &radios.kind, item, kind) {
            owners.push(owner)?;
        }
    }
    Ok(owners)
}

// What a letter always acts on.
fn one_owner<'a>(alloc: Global, owner: Option<Owner<'a>>) -> Result<Vec<KeyOwner<'a>>, AllocError>
    ensures { IfOk result (λ owners. map lent_key_owner owners.items
        ≡ option_to_list (option_map always (option_map lent_owner owner.entry))) }
{
    let mut owners = Vec::new(alloc);
    if let Some(owner) = owner {
        owners.push(KeyOwner { owner, when: None })?;
    }
    Ok(owners)
}

impl<'a> Owners<'a> {
    /// Collects the owners of the dialog's letters.
    pub fn new(
        alloc: Global,
        version: Version,
        dialog: &'a Dialog,
    ) -> Result<Owners<'a>, AllocError>
        ensures { IfOk result (λ owners. owners ≡ record { version = version; dialog = dialog.now }) }
    {
        let by_letter = owners_of(alloc, dialog.views.as_slice())?;
        let sharing = sharing_of(alloc, version, dialog)?;
        Ok(Owners {
            version,
            dialog,
            by_letter,
            sharing,
        })
    }

    // What the letter acts on by the first view that marks it.
    fn first(&self, letter: char) -> Option<Owner<'a>>
        ensures { option_map lent_owner result ≡ owner_of self.now.dialog letter }
    {
        self.by_letter.get(&letter).copied()
    }

    /// Finds what the letter acts on: one owner at most, or one for each view that shares the letter.
    pub fn owners(&self, alloc: Global, letter: char) -> Result<Vec<KeyOwner<'a>>, AllocError>
        ensures { IfOk result (λ owners. map lent_key_owner owners.items ≡ owners_of self.now.version self.now.dialog letter) }
    {
        let Some(sharing) = &self.sharing else {
            return one_owner(alloc, self.first(letter));
        };
        match sharing.sharer(alloc, letter)? {
            Some(radios) => owners_by(alloc, self.dialog, sharing, radios, letter),
            None => one_owner(alloc, self.first(letter)),
        }
    }
}
