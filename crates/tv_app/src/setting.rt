//! Whether a record fits a dialog, and its values in the order of the dialog's fields.

ghost use Rattle.std.specs.Prelude.{◌≡◌, ◌↔◌, ◌≤◌, ◌<◌, ◌^◌, [], IfErr, IfOk, IsTrue, All, fold, length, option_copied};
ghost use Rattle.tv_app.specs.Setting.{FitsDialog, HasSafeValue, IsSafeFor, IsTakenOf, RefusesFields, RefusesRecord, with_view};
ghost use Rattle.tv_app.specs.declared.setting.Unset.TheVariants.{NoMemory};
ghost use Rattle.tv_dialog.specs.Fields.{in_field_order};
ghost use Rattle.tv_machine.specs.Dialog.Lawful.{IsLawfulDialog};
ghost use Rattle.tv_machine.specs.Dialog.Sound.{HasSoundDialogs};
ghost use Rattle.tv_machine.specs.Safe.{IsValueOf};
ghost use Rattle.tv_model.specs.Controls.Contents.{is_item_place};
ghost use Rattle.tv_valid.specs.Domain.{InDomain, IsDomain};
ghost use Rattle.tv_valid.specs.declared.domain.Domain.{Domain as Asked};

use crate::names::dialog_place;
use std::alloc::{AllocError, Global};
use thiserror::Error;
use tv_machine::is_field;
use tv_model::{Desc, Dialog, Kind, Node, Record, Value};
use tv_valid::{Domain, DomainFault, InputSpec, Text};

/// Why a dialog isn't given a record.
#[derive(Clone, Copy, Debug, PartialEq, Eq, Error)]
pub enum Unset {
    #[error("out of memory")]
    NoMemory,
    /// No dialog has the name.
    #[error("no such dialog")]
    NoDialog,
    /// A field has no value in the record, or one that it may not have, or the record has values besides.
    #[error("the record doesn't fit the dialog")]
    Unfit,
}

/// Why a dialog isn't given a record, and the record.
#[derive(Debug, Drop)]
pub struct SetFault {
    pub reason: Unset,
    pub values: Record,
}

impl From<AllocError> for Unset {
    ghost from_gives = { λ _ reason. reason ≡ NoMemory };

    fn from(_error: AllocError) -> Unset {
        Unset::NoMemory
    }
}

// Whether the text lies in the domain that the input asks for.
fn is_in_domain(alloc: Global, spec: &InputSpec, text: &Text) -> Result<bool, AllocError>
    ensures { IfOk result (λ is. IsTrue is ↔ ((domain : Asked) × IsDomain spec.now domain × InDomain domain text.now)) }
{
    match Domain::new(alloc, spec) {
        Ok(domain) => Ok(domain.accepts(text)),
        Err(DomainFault::NoMemory) => Err(AllocError),
        Err(DomainFault::BadPicture(_) | DomainFault::Empty) => Ok(false),
    }
}

// Whether check boxes of so many items may have the marks.
fn are_marks(count: usize, marks: u16) -> bool
    ensures { IsTrue result ↔ (marks < 2 ^ count) }
{
    count >= 16 || u32::from(marks) < 1u32 << count
}

// Whether there is the item among so many.
fn is_item(count: usize, item: u8) -> bool
    ensures { result ≡ is_item_place count item }
{
    1 <= item && usize::from(item) <= count
}

// Whether a field of the kind may be saved with the value.
fn may_save(alloc: Global, kind: &Kind, value: &Value) -> Result<bool, AllocError>
    ensures { IfOk result (λ may. IsTrue may ↔ IsValueOf InDomain kind.now value.now) }
{
    match (kind, value) {
        (Kind::Input(input), Value::Text(text)) => is_in_domain(alloc, &input.spec, text),
        (Kind::CheckBoxes(boxes), Value::Marks(marks)) => {
            Ok(are_marks(boxes.items.as_slice().len(), *marks))
        }
        (Kind::RadioButtons(radios), Value::Item(item)) => {
            Ok(is_item(radios.items.as_slice().len(), *item))
        }
        (Kind::List(list), Value::Item(item)) => Ok(is_item(list.items.as_slice().len(), *item)),
        _ => Ok(false),
    }
}

// Whether there is a value, with which a field of the kind may be saved.
fn may_save_found(alloc: Global, kind: &Kind, value: Option<&Value>) -> Result<bool, AllocError>
    ensures { IfOk result (λ may. IsTrue may ↔ IsSafeFor kind.now (option_copied value.entry)) }
{
    match value {
        Some(value) => may_save(alloc, kind, value),
        None => Ok(false),
    }
}

// Whether the view is no field, or has a value with which it may be saved.
fn is_safe(alloc: Global, view: &Node, values: &Record) -> Result<bool, AllocError>
    ensures { IfOk result (λ is. IsTrue is ↔ HasSafeValue values.now view.now) }
{
    if !is_field(&view.kind) {
        return Ok(true);
    }
    may_save_found(alloc, &view.kind, values.value(view.id))
}

fn are_safe(alloc: Global, views: &[Node], values: &Record) -> Result<bool, AllocError>
    ensures { IfOk result (λ are. IsTrue are ↔ All (HasSafeValue values.now) views.now) }
{
    for view in views {
        if !is_safe(alloc, view, values)? {
            return Ok(false);
        }
    }
    Ok(true)
}

// Adds the value of a view, if it is a field that has one.
fn add_field(ordered: &mut Record, view: &Node, values: &Record)
    requires { length ordered.old < 64 }
    ensures { ordered.new ≡ with_view values.now ordered.old view.now }
{
    if is_field(&view.kind) {
        if let Some(value) = values.value(view.id) {
            ordered.put(view.id, value.copy());
        }
    }
}

// The values of the fields among the views, in order.
fn ordered(views: &[Node], values: &Record) -> Record
    requires { length views.now ≤ 64 }
    ensures { result ≡ fold (with_view values.now) [] views.now }
{
    let mut ordered = Record::new();
    for view in views {
        add_field(&mut ordered, view, values);
    }
    ordered
}

// The record's values for the dialog's fields, in their order.
fn in_field_order(dialog: &Dialog, values: &Record) -> Record
    requires { IsLawfulDialog dialog.now }
    ensures { result ≡ in_field_order dialog.now values.now }
{
    ordered(dialog.views.as_slice(), values)
}

// Whether the record fits the dialog, given its values in the order of the fields.
fn fits(
    alloc: Global,
    dialog: &Dialog,
    values: &Record,
    ordered: &Record,
) -> Result<bool, AllocError>
    requires { ordered.now ≡ in_field_order dialog.now values.now }
    ensures { IfOk result (λ fits. IsTrue fits ↔ FitsDialog dialog.now values.now) }
{
    if ordered.len() != values.len() {
        return Ok(false);
    }
    are_safe(alloc, dialog.views.as_slice(), values)
}

// The record in the order of the dialog's fields, where it fits.
fn take_fields(alloc: Global, dialog: &Dialog, values: &Record) -> Result<Record, Unset>
    requires { IsLawfulDialog dialog.now }
    ensures taken { IfOk result (λ taken. FitsDialog dialog.now values.now × (taken ≡ in_field_order dialog.now values.now)) }
    ensures refused { IfErr result (RefusesFields dialog.now values.now) }
{
    let ordered = in_field_order(dialog, values);
    if !fits(alloc, dialog, values, &ordered)? {
        return Err(Unset::Unfit);
    }
    Ok(ordered)
}

/// A record that fits a dialog, in the order of its fields, and the dialog's place.
#[derive(Drop)]
pub(crate) struct Taken {
    pub(crate) place: usize,
    pub(crate) values: Record,
}

/// Returns the record in the order of the fields of the first dialog of the name, where it fits that.
pub(crate) fn take_named(
    alloc: Global,
    desc: &Desc,
    name: &str,
    values: &Record,
) -> Result<Taken, Unset>
    requires { HasSoundDialogs desc.now }
    ensures taken { IfOk result (IsTakenOf desc.now name.now values.now) }
    ensures refused { IfErr result (RefusesRecord desc.now name.now values.now) }
{
    let place = match dialog_place(desc, name) {
        Some(place) => place,
        None => return Err(Unset::NoDialog),
    };
    let dialog = &desc.dialogs.as_slice()[place];
    let values = take_fields(alloc, dialog, values)?;
    Ok(Taken { place, values })
}
