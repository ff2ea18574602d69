//! What a terminal shows, and how it is brought to show a screen.

ghost use Rattle.std.specs.Prelude.{◌≡◌, ◌≤◌, ◌<◌, ◌↔◌, true, false, None, pos, length, IfOk, IsErrOf};
ghost use Rattle.tv_cells.specs.Layers.{is_in};
ghost use Rattle.tv_cells.specs.Picture.{Changes, IsAlike, IsOn, IsPlace, IsScreenSize};
ghost use Rattle.tv_cells.specs.Repainting.{has_cell};
ghost use Rattle.tv_cells.specs.Row.{IsInRow};
ghost use Rattle.tv_io.specs.Pen.{Puts};
ghost use Rattle.tv_terminal.specs.Written.{cursor_on, end_bytes, is_seen, seen};
ghost use Rattle.tv_terminal.specs.Terminal.{Covered, Display, ground, told};
ghost use Rattle.tv_terminal.specs.Notes.{Notes};
ghost use Rattle.tv_terminal.specs.Sameness.{IsSaidSame};
ghost use Rattle.tv_terminal.specs.Writing.{BeginsScreen, Draws, IsRight, Paints, restored};

use crate::action::Size;
use crate::colour::Colours;
use crate::hand::Hand;
use crate::note::put_shown;
use crate::sameness::is_same_in_rects;
use crate::span::{Span, on_screen, visible};
use std::alloc::Global;
use tv_cells::{Cell, Point, Rect, Screen, ScreenFault};
use tv_io::{Pen, Writer};

/// Brings a terminal to show a screen, and keeps what it shows, so that only what differs is written.
#[derive(Drop)]
pub struct Painter {
    shown: Screen,
    is_known: bool,
    // Where the terminal's cursor stands, which attribute's colours it writes in, and whether its cursor shows, where these are known.
    place: Option<(u32, u32)>,
    attr: Option<u8>,
    has_cursor: Option<bool>,
    // Which colours of the terminal are those of the screens.
    colours: Colours,
    // How much of the screens is shown, from the top left corner on.
    window: Size,
}

impl Painter {
    /// Makes the painter of a terminal of which nothing is known, for screens of a size.
    ///
    /// # Errors
    ///
    /// `BadSize` unless there are 20 to 132 columns and 10 to 60 rows, else `NoMemory` where there is none for the cells.
    pub fn new(
        alloc: Global,
        width: u32,
        height: u32,
        colours: Colours,
    ) -> Result<Painter, ScreenFault>
        ensures size { IfOk result (λ painter. (painter.shown.width ≡ width) × (painter.shown.height ≡ height)) }
        ensures unknown { IfOk result (λ painter. painter.is_known ≡ false) }
        ensures colours { IfOk result (λ painter. painter.colours ≡ colours) }
        ensures whole { IfOk result (λ painter. (painter.window.columns ≡ width) × (painter.window.rows ≡ height)) }
        ensures right { IfOk result (λ painter. (d : Display) → IsRight painter d) }
        ensures bad { IsErrOf result ScreenFault.BadSize ↔ (IsScreenSize width height → ⊥) }
    {
        match Screen::new(alloc, width, height) {
            Ok(shown) => Ok(Painter {
                shown,
                is_known: false,
                place: None,
                attr: None,
                has_cursor: None,
                colours,
                window: Size {
                    columns: width,
                    rows: height,
                },
            }),
            Err(fault) => Err(fault),
        }
    }

    /// Begins a session: turns the terminal to its alternate screen, has it tell of the mouse and send ESC before a key with Alt,
    /// as xterm does only when asked, and shows the whole screen, with the cursor at a point of it, or without one. The normal
    /// screen is kept by the terminal. From then on a screen is shown as far as it lies in the window, from the top left corner on.
    ///
    /// Where the writer fails, a prefix of the bytes was written, and the pen is stopped.
    pub fn begin<W: Writer>(
        &mut self,
        screen: &Screen,
        cursor: Option<Point>,
        window: Size,
        pen: &mut Pen<W>,
    )
        requires { IsAlike self.old.shown screen.now }
        ensures { BeginsScreen W.seen screen.now (cursor_on screen.now.width screen.now.height cursor) window self.old self.new pen.old pen.new }
    {
        self.forget();
        self.window = window;
        pen.put(
            b"\x1b[?1049h\x1b[?1002h\x1b[?1006h\x1b[?1036h\x1b[?1039h\x1b[?2004h\x1b[0m\x1b[2J",
        );
        self.paint(screen, &[screen.canvas().clip], cursor, pen);
        self.is_known = true;
    }

    /// Brings the terminal to show a screen in each cell of some rectangles, with the cursor at a point of it, or without
    /// one. Only cells that don't show yet are written, and nothing where neither a cell nor the cursor changes. Other cells of the
    /// terminal stay as they are.
    ///
    /// Where the writer fails, a prefix of the bytes was written, and the pen is stopped.
    pub fn paint<W: Writer>(
        &mut self,
        screen: &Screen,
        rects: &[Rect],
        cursor: Option<Point>,
        pen: &mut Pen<W>,
    )
        requires { IsAlike self.old.shown screen.now }
        ensures { Paints W.seen (λ column row. has_cell rects.now column row ≡ true) screen.now
            (cursor_on screen.now.width screen.now.height cursor) self.old self.new pen.old pen.new }
    {
        let mut hand = Hand::new(self.place, self.attr, self.colours);
        let was_on = self.has_cursor;
        self.paint_rects(&mut hand, pen, screen, rects);
        let cursor = self.seen(on_screen(screen.width(), screen.height(), cursor));
        hand.finish(pen, was_on, cursor);
        self.place = hand.place;
        self.attr = hand.attr;
        self.has_cursor = Some(cursor.is_some());
    }

    /// Returns how much of the screens is shown, from the top left corner on.
    pub fn window(&self) -> Size
        ensures { result ≡ self.now.window }
    {
        self.window
    }

    /// Writes a note into a row below the window, from the first column on, in plain colours; the rest of the row is cleared. A space
    /// stands for each character that doesn't take one column. The text has to be shorter than the row. The cursor is left behind it,
    /// so that `paint` has to follow.
    ///
    /// Where the writer fails, a prefix of the bytes was written, and the pen is stopped.
    pub fn note<W: Writer>(&mut self, row: u32, text: &[char], pen: &mut Pen<W>)
        requires below { self.old.window.rows ≤ row }
        requires small { (row < 999) × (length text.now < 999) }
        ensures { Notes W.seen row text.now self.old self.new pen.old pen.new }
    {
        let mut hand = Hand::new(self.place, self.attr, self.colours);
        hand.go(0, row);
        hand.flush(pen);
        pen.put(b"\x1b[0m");
        put_shown(text, pen);
        pen.put(b"\x1b[K");
        self.place = Some((text.len() as u32, row));
        self.attr = None;
    }

    /// Whether a screen is the one that was painted last, in each cell of some rectangles.
    pub fn shows(&self, screen: &Screen, rects: &[Rect]) -> bool
        requires { IsAlike self.now.shown screen.now }
        ensures { IsSaidSame (λ column row. has_cell rects.now column row ≡ true) self.now.shown screen.now result }
    {
        is_same_in_rects(&self.shown, screen, rects)
    }

    /// Ends a session: turns the terminal back to its normal screen, as that was, with its cursor, plain colours and no mouse. What
    /// a session asked of the terminal is taken back.
    pub fn end<W: Writer>(&mut self, pen: &mut Pen<W>)
        ensures puts { Puts W.seen pen.old pen.new end_bytes }
        ensures told { (d : Display) (c : Covered) → d.covered ≡ Some c → told (ground d) end_bytes ≡ ground (restored c d) }
        ensures shown { self.new.shown ≡ self.old.shown }
        ensures unknown { self.new.is_known ≡ false }
        ensures right { (d : Display) → IsRight self.new d }
        ensures colours { self.new.colours ≡ self.old.colours }
        ensures window { self.new.window ≡ self.old.window }
    {
        self.forget();
        pen.put(
            b"\x1b[0m\x1b[2J\x1b[?25h\x1b[?2004l\x1b[?1039l\x1b[?1036l\x1b[?1006l\x1b[?1002l\x1b[?1049l",
        );
    }

    // Knows nothing of the terminal any more.
    fn forget(&mut self)
        ensures shown { self.new.shown ≡ self.old.shown }
        ensures unknown { self.new.is_known ≡ false }
        ensures nowhere { self.new.place ≡ None }
        ensures plain { self.new.attr ≡ None }
        ensures cursor { self.new.has_cursor ≡ None }
        ensures colours { self.new.colours ≡ self.old.colours }
        ensures window { self.new.window ≡ self.old.window }
    {
        self.is_known = false;
        self.place = None;
        self.attr = None;
        self.has_cursor = None;
    }

    // Whether a place lies in the window.
    fn is_seen(&self, place: (u32, u32)) -> bool
        ensures { result ≡ is_seen self.now.window place }
    {
        place.0 < self.window.columns && place.1 < self.window.rows
    }

    // The cursor, where it lies in the window.
    fn seen(&self, cursor: Option<(u32, u32)>) -> Option<(u32, u32)>
        ensures { result ≡ seen self.now.window cursor }
    {
        match cursor {
            Some(place) if self.is_seen(place) => Some(place),
            _ => None,
        }
    }

    // Takes over a cell.
    fn take(&mut self, column: u32, row: u32, cell: Cell)
        requires place { IsOn self.old.shown column row }
        requires small { (column < 999) × (row < 999) }
        ensures shown { Changes (IsPlace column row) (λ _ _ _. cell) self.old.shown self.new.shown }
        ensures known { self.new.is_known ≡ self.old.is_known }
        ensures colours { self.new.colours ≡ self.old.colours }
        ensures window { self.new.window ≡ self.old.window }
    {
        let canvas = self.shown.canvas();
        canvas.put(&mut self.shown, column as i32, row as i32, cell);
    }

    // Paints the cell in a column and a row.
    fn paint_cell<W: Writer>(
        &mut self,
        hand: &mut Hand,
        pen: &mut Pen<W>,
        screen: &Screen,
        place: (u32, u32),
    )
        requires size { IsAlike self.old.shown screen.now }
        requires place { IsOn self.old.shown place.0 place.1 }
        requires small { (place.0 < 999) × (place.1 < 999) }
        ensures { Draws W.seen (IsPlace place.0 place.1) screen.now self.old self.new hand.old hand.new pen.old pen.new }
    {
        let (column, row) = place;
        let cell = screen.get(column, row);
        if !self.is_known || self.shown.get(column, row) != cell {
            self.take(column, row, cell);
            if self.is_seen(place) {
                hand.put(pen, column, row, cell);
            }
        }
    }

    // Paints the cells of a row from one column on and before another.
    fn paint_row<W: Writer>(
        &mut self,
        hand: &mut Hand,
        pen: &mut Pen<W>,
        screen: &Screen,
        span: Span,
    )
        requires size { IsAlike self.old.shown screen.now }
        requires across { (span.left ≤ span.right) × (span.right ≤ self.old.shown.width) }
        requires down { span.row < self.old.shown.height }
        requires small { (span.right < 999) × (span.row < 999) }
        ensures { Draws W.seen (IsInRow span.left span.right span.row) screen.now self.old self.new hand.old hand.new pen.old pen.new }
    {
        for column in span.left..span.right {
            self.paint_cell(hand, pen, screen, (column, span.row));
        }
    }

    // Paints the cells of a rectangle.
    fn paint_rect<W: Writer>(
        &mut self,
        hand: &mut Hand,
        pen: &mut Pen<W>,
        screen: &Screen,
        rect: &Rect,
    )
        requires { IsAlike self.old.shown screen.now }
        ensures { Draws W.seen
            (λ column row. is_in rect.now (pos column) (pos row)
            ≡ true) screen.now self.old self.new hand.old hand.new pen.old pen.new }
    {
        let (left, right) = visible(&rect.a.x, &rect.b.x, screen.width());
        let (top, bottom) = visible(&rect.a.y, &rect.b.y, screen.height());
        for row in top..bottom {
            self.paint_row(hand, pen, screen, Span { row, left, right });
        }
    }

    // Paints the cells of some rectangles.
    fn paint_rects<W: Writer>(
        &mut self,
        hand: &mut Hand,
        pen: &mut Pen<W>,
        screen: &Screen,
        rects: &[Rect],
    )
        requires { IsAlike self.old.shown screen.now }
        ensures { Draws W.seen
            (λ column row. has_cell rects.now column row
            ≡ true) screen.now self.old self.new hand.old hand.new pen.old pen.new }
    {
        for rect in rects {
            self.paint_rect(hand, pen, screen, rect);
        }
    }
}
