//! Texts of a description at work.

ghost use Rattle.std.specs.Prelude.{◌≡◌, ◌≤◌, ◌<◌, ◌+◌, ◌++◌, length};
ghost use Rattle.tv_app.specs.Running.{Runs};
ghost use Rattle.tv_cells.specs.Picture.{cell_at};
ghost use Rattle.tv_held.specs.Asking.{Looks};
ghost use Rattle.tv_held.specs.Holding.{Holding, IsHeld};
ghost use Rattle.tv_held.specs.Looking.{PutsLook, ShowsBy, cell_bytes, field_text, focus_text, record_text, row_bytes, screen_bytes};
ghost use Rattle.tv_held.specs.declared.asked.Look.TheVariants as looks;
ghost use Rattle.tv_io.specs.Pen.{Puts};
ghost use Rattle.tv_machine.specs.Run.{Session};
ghost use Rattle.tv_model.specs.Log.Record.{value_of};

use crate::answer::{Answer, Told, unopened};
use crate::asked::Look;
use crate::held::Held;
use arrayvec::ArrayVec;
use std::alloc::Global;
use tv_app::{App, dialog_place};
use tv_cells::{Cell, Screen};
use tv_io::{Gathering, Pen, Writer, show};
use tv_model::{Desc, Id, Node, Record};
use tv_script::{put_field, put_log, put_name};

/// The most bytes of a row: 132 cells of four.
const ROW: usize = 528;

fn push_cell(row: &mut ArrayVec<u8, ROW>, cell: Cell)
    requires { length row.old.items + 4 ≤ 528 }
    ensures bytes { row.new.items ≡ row.old.items ++ cell_bytes cell }
    ensures count { length row.new.items ≡ length row.old.items + 4 }
{
    let number = u32::from(cell.ch());
    row.push((number % 256) as u8);
    row.push((number / 256 % 256) as u8);
    row.push((number / 65_536 % 256) as u8);
    row.push(cell.attr());
}

fn put_row<W: Writer>(pen: &mut Pen<W>, screen: &Screen, row: u32)
    requires { row < screen.now.height }
    ensures { Puts W.seen pen.old pen.new (row_bytes screen.now.width (cell_at screen.now) row) }
{
    let mut bytes: ArrayVec<u8, ROW> = ArrayVec::new();
    for column in 0..screen.width() {
        push_cell(&mut bytes, screen.get(column, row));
    }
    pen.put(bytes.as_slice());
}

fn put_screen<W: Writer>(pen: &mut Pen<W>, screen: &Screen)
    ensures { Puts W.seen pen.old pen.new (screen_bytes screen.now.width screen.now.height (cell_at screen.now)) }
{
    for row in 0..screen.height() {
        put_row(pen, screen, row);
    }
}

fn put_focus<W: Writer>(pen: &mut Pen<W>, desc: &Desc, focus: Option<Id>)
    ensures { Puts W.seen pen.old pen.new (focus_text desc.now focus) }
{
    if let Some(id) = focus {
        put_name(pen, desc, id);
    }
}

// Writes the view with its value, if it is a field.
fn put_view<W: Writer>(pen: &mut Pen<W>, desc: &Desc, view: &Node, values: &Record)
    ensures { Puts W.seen pen.old pen.new (field_text desc.now view.now.id (value_of values.now view.now.id.0)) }
{
    if let Some(value) = values.value(view.id) {
        put_field(pen, desc, view.id, value);
    }
}

fn put_views<W: Writer>(pen: &mut Pen<W>, desc: &Desc, views: &[Node], values: &Record)
    ensures { Puts W.seen pen.old pen.new (record_text desc.now views.now values.now) }
{
    for view in views {
        put_view(pen, desc, view, values);
    }
}

// Writes the record of the dialog of the name, if there is such a dialog.
fn put_record<W: Writer>(pen: &mut Pen<W>, app: &App, name: &[u8]) -> bool
    ensures { (s : Session) → Runs app.now s → PutsLook W.seen looks.Record s name.now pen.old pen.new result }
{
    let Ok(name) = str::from_utf8(name) else {
        return false;
    };
    let desc = app.desc();
    match (app.record(name), dialog_place(desc, name)) {
        (Some(record), Some(place)) => {
            let dialog = &desc.dialogs.as_slice()[place];
            put_views(pen, desc, dialog.views.as_slice(), record);
            true
        }
        _ => false,
    }
}

// Writes what is asked for. Returns whether it is there.
fn put_look<W: Writer>(pen: &mut Pen<W>, app: &App, look: Look, name: &[u8]) -> bool
    ensures { (s : Session) → Runs app.now s → PutsLook W.seen look s name.now pen.old pen.new result }
{
    match look {
        Look::Log => put_log(pen, app.desc(), app.log()),
        Look::Screen => put_screen(pen, app.screen()),
        Look::Shape => pen.put(&[app.screen().width() as u8, app.screen().height() as u8]),
        Look::Focus => put_focus(pen, app.desc(), app.focus()),
        Look::Record => return put_record(pen, app, name),
    }
    true
}

// Shows a text in a room.
fn shown(text: &[u8], room: &mut [u8]) -> Told
    ensures { ShowsBy result.answer room.old room.new result.used text.now }
{
    let used = show(text, room);
    let answer = if used <= room.len() {
        Answer::Done
    } else {
        Answer::NoRoom
    };
    Told { answer, used }
}

impl Held {
    /// Shows the text that is asked for in the room.
    pub(crate) fn look(&self, alloc: Global, look: Look, name: &[u8], room: &mut [u8]) -> Told
        ensures { (h : Holding) → IsHeld self.now h → Looks look name.now h room.old room.new result }
    {
        let app = match &self.opened {
            Ok(app) => app,
            Err(fault) => return Told::bare(unopened(fault)),
        };
        let mut out = Gathering::new(alloc);
        let mut pen = Pen {
            out: &mut out,
            stopped: false,
        };
        if !put_look(&mut pen, app, look, name) {
            return Told::bare(Answer::Refused);
        }
        if pen.stopped {
            return Told::bare(Answer::NoMemory);
        }
        shown(out.into_bytes().as_slice(), room)
    }
}
