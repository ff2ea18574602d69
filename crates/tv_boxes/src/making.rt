//! The text of a box's description.

ghost use Rattle.std.specs.Prelude.{◌≡◌, IfErr, IfOk, MatchBool, false, string_bytes};
ghost use Rattle.tv_lang.specs.CanonicalDescription.{CanBeSpelled};
ghost use Rattle.tv_model.specs.Faults.{IsSound};
ghost use Rattle.tv_boxes.specs.Boxes.{HasDialogsAlone, IsOfText, IsSoundAs, IsSoundBox, RefusesBox, SpellsSound, box_desc, box_dialog, box_views, boxed_desc, boxed_text, desc_of_rows, ends_of};
ghost use Rattle.tv_boxes.specs.Buttons.{buttons_of};
ghost use Rattle.tv_boxes.specs.Sizes.{size};
ghost use Rattle.tv_boxes.specs.Views.{view};

use crate::buttons::Buttons;
use crate::layout::{Extent, body_rows, columns_of, wrap_columns};
use crate::lines::{at_line, on_lines};
use crate::request::{BoxKind, Request};
use crate::sameness::is_same;
use crate::size::size;
use crate::unfit::{Unfit, why_unfit};
use crate::views::{field_views, text_rows, view};
use crate::wrap::rows_of;
use std::alloc::{AllocError, Global};
use thiserror::Error;
use tv_check::{DescFault, examine};
use tv_lang::{LangFault, ascii, parse, print};
use tv_model::{Desc, Dialog, DialogHead, Ends, Kind, Node, Sequence, Version};
use tv_valid::Chars;

/// Why no box is made.
#[derive(Clone, Copy, Debug, PartialEq, Eq, Error)]
pub enum BoxFault {
    #[error("out of memory")]
    NoMemory,
    /// An argument can't be shown.
    #[error("{0}")]
    Unfit(Unfit),
    /// The box would be no dialog that may be run.
    #[error("the box can't be shown")]
    Faults,
}

impl From<AllocError> for BoxFault {
    ghost use Rattle.std.specs.Prelude.{◌≡◌};
    ghost use Rattle.tv_boxes.specs.declared.making.BoxFault.TheVariants.{NoMemory};

    ghost from_gives = { λ _ e. e ≡ NoMemory };

    fn from(_error: AllocError) -> BoxFault {
        BoxFault::NoMemory
    }
}

/// Writes the description of a ready dialog: what `dialog` would show for these arguments.
///
/// The text is that of the box's description, laid out as `boxed_desc` has it, wherever it spells that and that is
/// sound; else the answer is why it isn't.
pub fn boxed(alloc: Global, request: &Request) -> Result<String, BoxFault>
    ensures text { IfOk result (λ text. string_bytes text ≡ boxed_text request.now) }
    ensures sound { IfOk result (λ _. IsSoundBox request.now) }
    ensures fault { IfErr result (RefusesBox request.now) }
{
    let desc = boxed_desc(alloc, request)?;
    let text = print(alloc, &desc)?;
    if is_sound(alloc, &text, &desc)? {
        Ok(text)
    } else {
        Err(refusal(request, &desc))
    }
}

// Why the box can't be shown, in words where there are any.
fn refusal(request: &Request, desc: &Desc) -> BoxFault
    requires unsound { ¬ IsSoundBox request.now }
    requires same { desc.now ≡ boxed_desc request.now }
    ensures { RefusesBox request.now result }
{
    match why_unfit(request, desc) {
        Some(what) => BoxFault::Unfit(what),
        None => BoxFault::Faults,
    }
}

// Whether the text spells the description, and that is sound.
fn is_sound(alloc: Global, text: &String, desc: &Desc) -> Result<bool, AllocError>
    requires { HasDialogsAlone desc.now }
    ensures { IfOk result (λ sound. MatchBool sound (SpellsSound (string_bytes text.now) desc.now)
        (¬ SpellsSound (string_bytes text.now) desc.now)) }
{
    match parse(alloc, text.as_bytes()) {
        Ok(read) => is_sound_as(alloc, read, desc),
        Err(fault) => unread(fault),
    }
}

// Whether what was read is the description, and sound. Two tildes of a label are read as a mark, so it may be another.
fn is_sound_as(alloc: Global, read: Desc, desc: &Desc) -> Result<bool, AllocError>
    requires spelled { CanBeSpelled read }
    requires alone { HasDialogsAlone desc.now }
    ensures { IfOk result (λ sound. MatchBool sound (IsSoundAs desc.now read) (¬ IsSoundAs desc.now read)) }
{
    if is_same(&read, desc) {
        has_no_faults(alloc, read)
    } else {
        drop(read);
        Ok(false)
    }
}

// No text that can't be read is sound; but one may not be read because memory ran out.
fn unread(fault: LangFault) -> Result<bool, AllocError>
    ensures { IfOk result (λ sound. (sound ≡ false) × IsOfText fault) }
{
    match fault {
        LangFault::NoMemory => Err(AllocError),
        LangFault::Syntax(_) | LangFault::TooLong | LangFault::Version => Ok(false),
    }
}

fn has_no_faults(alloc: Global, desc: Desc) -> Result<bool, AllocError>
    requires { CanBeSpelled desc }
    ensures { IfOk result (λ sound. MatchBool sound (IsSound desc) (¬ IsSound desc)) }
{
    match examine(alloc, desc) {
        Ok(_) => Ok(true),
        Err(DescFault::NoMemory) => Err(AllocError),
        Err(DescFault::Faults(_)) => Ok(false),
    }
}

// The description of a box.
fn boxed_desc(alloc: Global, request: &Request) -> Result<Desc, AllocError>
    ensures { IfOk result (λ desc. desc ≡ boxed_desc request.now) }
{
    let width = usize::from(wrap_columns(request));
    let rows = rows_of(alloc, width, request.text.as_slice())?;
    desc_of_rows(alloc, request, rows.as_slice())
}

// The same, of rows of text.
fn desc_of_rows(alloc: Global, request: &Request, rows: &[Chars]) -> Result<Desc, AllocError>
    ensures { IfOk result (λ desc. desc ≡ desc_of_rows request.now rows.now) }
{
    let buttons = Buttons::new(alloc, &request.kind, &request.labels)?;
    let columns = columns_of(request, rows, &buttons);
    let body = body_rows(request, rows);
    let extent = Extent { columns, body };
    let views = box_views(alloc, request, rows, extent, buttons)?;
    let dialog = box_dialog(alloc, request, extent, on_lines(alloc, views)?)?;
    box_desc(alloc, extent, dialog)
}

// A description of a dialog alone, which is open at the start, on a screen that it fills between the first row and the last.
fn box_desc(alloc: Global, extent: Extent, dialog: Dialog) -> Result<Desc, AllocError>
    ensures { IfOk result (λ desc. desc ≡ box_desc extent.columns extent.body dialog) }
{
    let mut dialogs = Sequence::new(alloc);
    dialogs.push(dialog)?;
    Ok(Desc {
        version: Version::One,
        width: i32::from(u16::from(extent.columns) + 4),
        height: i32::from(u16::from(extent.body) + 5),
        start: Some(ascii(alloc, b"box")?),
        menus: Sequence::new(alloc),
        status: Sequence::new(alloc),
        windows: Sequence::new(alloc),
        dialogs,
    })
}

// The dialog, below the row of a menu bar. Its own line is the fourth, below those of the version, the screen and the start.
fn box_dialog(
    alloc: Global,
    request: &Request,
    extent: Extent,
    views: Vec<Node>,
) -> Result<Dialog, AllocError>
    ensures { IfOk result (λ dialog. dialog ≡ box_dialog request.now extent.columns extent.body views.items) }
{
    let head = DialogHead {
        name: ascii(alloc, b"box")?,
        h: i32::from(u16::from(extent.body) + 3),
        title: request.title.copy(alloc)?,
        opens: None,
        ends: ends_of(&request.kind),
    };
    Ok(Dialog {
        node: at_line(
            4,
            view(0, 1, u16::from(extent.columns) + 4, Kind::Dialog(head)),
        ),
        views: Sequence::from_vec(views),
        rules: Sequence::new(alloc),
    })
}

// The ends of a box.
fn ends_of(kind: &BoxKind) -> Ends
    ensures { result ≡ ends_of kind.now }
{
    let is_question = matches!(kind, BoxKind::YesNo);
    Ends {
        ok: !is_question,
        cancel: true,
        yes: is_question,
        no: is_question,
    }
}

// The views of a box.
fn box_views(
    alloc: Global,
    request: &Request,
    rows: &[Chars],
    extent: Extent,
    buttons: Buttons,
) -> Result<Vec<Node>, AllocError>
    requires { buttons ≡ buttons_of request.now.kind request.now.labels }
    ensures { IfOk result (λ views. views.items ≡ box_views request.now rows.now extent.columns extent.body) }
{
    let above = u16::from(size(rows.len())) + 1;
    let mut views = text_rows(alloc, extent.columns, rows)?;
    views.append(&mut field_views(alloc, above, extent.columns, &request.kind)?)?;
    views.append(&mut buttons.views(alloc, request.default_no, u16::from(extent.body) + 1)?)?;
    Ok(views)
}
