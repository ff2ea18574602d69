//! A text in a window: the lines of it that show, and a gauge below them.

ghost use Rattle.std.specs.Prelude.{◌<◌};

use std::alloc::{AllocError, Global};
use tv_app::{Cell, Key, Screen};

// The colours of a window's text, and of the gauge.
const TEXT: u8 = 0x1e;

const GAUGE: u8 = 0x71;

/// A text in the window of a name. The sheet has the lines from `top` on.
#[derive(Drop)]
pub(crate) struct Document {
    pub(crate) window: &'static str,
    pub(crate) sheet: Screen,
    lines: Vec<String>,
    top: usize,
}

impl Document {
    pub(crate) fn new(
        alloc: Global,
        window: &'static str,
        text: &str,
        sheet: Screen,
    ) -> Result<Document, AllocError> {
        let mut lines = Vec::new(alloc);
        for line in text.lines() {
            lines.push(line.to_string(alloc)?)?;
        }
        Ok(Document {
            window,
            sheet,
            lines,
            top: 0,
        })
    }

    /// Scrolls by a key, so that the last line stays in sight. Other keys do nothing.
    pub(crate) fn scroll(&mut self, key: Key) {
        let page = self.page() as usize;
        let last = self.lines.len().saturating_sub(1);
        let place = match key {
            Key::Up => self.top.saturating_sub(1),
            Key::Down => self.top.saturating_add(1),
            Key::PageUp => self.top.saturating_sub(page),
            Key::PageDown => self.top.saturating_add(page),
            Key::Home => 0,
            Key::End => last,
            _ => return,
        };
        self.top = place.min(last);
    }

    /// Finds the first line from a place on that has the text, and shows it as the first.
    pub(crate) fn find(&mut self, from: usize, what: &str) -> bool {
        for place in from..self.lines.len() {
            if self.lines[place].contains(what) {
                self.top = place;
                return true;
            }
        }
        false
    }

    /// The place of the first line that shows.
    pub(crate) fn top(&self) -> usize {
        self.top
    }

    /// Draws the lines that show, and below them how much of the text is before their end.
    pub(crate) fn draw(&mut self) {
        let page = self.page();
        for row in 0..page {
            match self.lines.get(self.top.saturating_add(row as usize)) {
                Some(line) => write_line(&mut self.sheet, row, line.as_str()),
                None => write_line(&mut self.sheet, row, ""),
            }
        }
        let all = self.lines.len();
        let seen = self.top.saturating_add(page as usize).min(all);
        write_gauge(&mut self.sheet, page, seen, all);
    }

    // So many lines show at once.
    fn page(&self) -> u32
        ensures { result < 999 }
    {
        self.sheet.height().saturating_sub(1)
    }
}

fn write_line(sheet: &mut Screen, row: u32, line: &str)
    requires { row < 999 }
{
    let mut chars = line.chars();
    for column in 0..sheet.width() {
        let ch = chars.next().unwrap_or(' ');
        sheet
            .canvas()
            .put(sheet, column as i32, row as i32, Cell::shown(ch, TEXT));
    }
}

fn write_gauge(sheet: &mut Screen, row: u32, seen: usize, all: usize)
    requires { row < 999 }
{
    let width = sheet.width();
    let filled = (width as usize).saturating_mul(seen) / all.max(1);
    for column in 0..width {
        let ch = if (column as usize) < filled { '#' } else { '.' };
        sheet
            .canvas()
            .put(sheet, column as i32, row as i32, Cell::shown(ch, GAUGE));
    }
}
