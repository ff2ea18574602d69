//! A terminal, as a run knows it.

ghost use Rattle.std.specs.Prelude.{◌≡◌, ◌≤◌, ◌↔◌, IsTrue};
ghost use Rattle.tv_machine.specs.Run.{Session};
ghost use Rattle.tv_model.specs.Description.Numbers.{natural};
ghost use Rattle.tv_model.specs.declared.desc.Desc.{Desc};
ghost use Rattle.tv_play.specs.Notes.{IsMonitorOf, IsSaid, Renotes, WritesNote, window_of};
ghost use Rattle.tv_terminal.specs.Writing.{Covers};

use crate::live::Live;
use crate::refusal::Refusal;
use std::fmt;
use tv_cells::Screen;
use tv_io::{Pen, Writer};
use tv_reasons::{Line, reason};
use tv_terminal::{Painter, Size};

/// A terminal, as a run knows it: what it is taken to show, how large it told that it is, and whether a note of a refusal stands below the
/// screen.
#[derive(Drop)]
pub(crate) struct Monitor {
    pub(crate) painter: Painter,
    pub(crate) size: Option<Size>,
    pub(crate) is_noted: bool,
}

impl Monitor {
    /// Says below the screen why an input refused an event, and takes away what was said before, where the terminal told that it has
    /// a row more. The cursor is left there, so that the screen has to be painted next.
    pub(crate) fn note<L: Live, T: Writer>(
        &mut self,
        refusal: Option<Refusal>,
        stage: &L,
        pen: &mut Pen<T>,
    )
        requires there { (s : Session) × L.stands stage.now s × IsMonitorOf s.desc self.old }
        ensures { (s : Session) → L.stands stage.now s → IsMonitorOf s.desc self.old
            → Renotes T.seen s.desc refusal self.old self.new pen.old pen.new }
    {
        if self.is_noted || refusal.is_some() {
            self.write_note(refusal, stage, pen);
            self.is_noted = refusal.is_some();
        }
    }

    /// Writes what is said of a refusal, where there is a row for it; without one that the terminal is too small, if it is.
    pub(crate) fn write_note<L: Live, T: Writer>(
        &mut self,
        refusal: Option<Refusal>,
        stage: &L,
        pen: &mut Pen<T>,
    )
        requires there { (s : Session) × L.stands stage.now s × IsMonitorOf s.desc self.old }
        ensures same { self.new.is_noted ≡ self.old.is_noted }
        ensures writes { (s : Session) → L.stands stage.now s → IsMonitorOf s.desc self.old
            → WritesNote T.seen s.desc refusal self.old self.new pen.old pen.new }
    {
        let Some(size) = self.size else {
            return;
        };
        let row = self.painter.window().rows;
        if row < size.rows {
            let line = self.said_of(refusal, stage);
            let room = size.columns.saturating_sub(1) as usize;
            let text = line.as_slice();
            self.painter.note(row, &text[..text.len().min(room)], pen);
        }
    }

    /// Whether not all of a screen is shown.
    pub(crate) fn is_clipped(&self, screen: &Screen) -> bool
        ensures { (IsTrue result → ⊥) ↔ Covers self.now.painter.window screen.now }
    {
        let window = self.painter.window();
        window.columns < screen.width() || window.rows < screen.height()
    }

    // What is said of a refusal, and without one of a terminal that is too small.
    fn said_of<L: Live>(&self, refusal: Option<Refusal>, stage: &L) -> Line
        ensures { (s : Session) → L.stands stage.now s → natural s.desc.width ≤ self.now.painter.window.columns
            → natural s.desc.height ≤ self.now.painter.window.rows → IsSaid s.desc refusal result }
    {
        match refusal {
            Some(refusal) => reason(stage.desc(), refusal.id, refusal.is_hidden),
            None if self.is_clipped(stage.screen()) => room_needed(stage.screen()),
            None => Line::new(),
        }
    }
}

/// How much of the screen is shown: all of it, or what there is room for above a row that says so.
pub(crate) fn window_of(screen: &Screen, size: Option<Size>) -> Size
    ensures { (d : Desc) → screen.now.width ≡ natural d.width → screen.now.height ≡ natural d.height → result ≡ window_of d size }
{
    let (columns, rows) = (screen.width(), screen.height());
    match size {
        Some(size) if size.columns < columns || size.rows < rows => Size {
            columns: size.columns,
            rows: size.rows.saturating_sub(1).min(rows),
        },
        _ => Size { columns, rows },
    }
}

/// The room that a screen needs.
#[derive(Drop)]
struct Room {
    columns: u32,
    rows: u32,
}

impl fmt::Display for Room {
    fn fmt<W: fmt::Write>(&self, f: &mut fmt::Formatter<W>) -> fmt::Result {
        let (columns, rows) = (self.columns, self.rows);
        write!(f, "{columns} columns and {rows} rows are needed")
    }
}

fn room_needed(screen: &Screen) -> Line {
    let mut line = Line::new();
    let _ = line.push_shown(Room {
        columns: screen.width(),
        rows: screen.height(),
    });
    line
}
