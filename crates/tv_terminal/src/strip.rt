//! Strips of a row: cells of one attribute, side by side.

ghost use Rattle.std.specs.Prelude.{◌≡◌, ◌-◌, ◌<◌, ◌≤◌, if◌then◌else◌, [], flat_map};
ghost use Rattle.tv_cells.specs.Picture.{IsOn, cell_at};
ghost use Rattle.tv_io.specs.Pen.{Puts};
ghost use Rattle.tv_terminal.specs.Strips.{IsFirstStrip, chars_from, strip_from};
ghost use Rattle.tv_terminal.specs.Svg.{char_text, cursor_element, ground_element, has_ink, strip_elements, text_element};

use crate::element::{Extent, put_attribute, put_char, put_fill, put_rect};
use tv_cells::Screen;
use tv_io::{Pen, Writer};

/// The attribute of the cell under the cursor of an input.
const CURSOR: u8 = 0x4f;

/// Returns the column behind the strip that begins in a column.
pub(crate) fn strip_end(screen: &Screen, row: u32, column: u32) -> u32
    requires { IsOn screen.now column row }
    ensures { IsFirstStrip screen.now.width (cell_at screen.now) row column result }
{
    let width = screen.width();
    let attr = screen.get(column, row).attr();
    for end in column + 1..width {
        if screen.get(end, row).attr() != attr {
            return end;
        }
    }
    width
}

/// Writes the strip from column `start` on and before `end`: its background, its text, and the cursor.
pub(crate) fn put_strip<W: Writer>(
    pen: &mut Pen<W>,
    screen: &Screen,
    row: u32,
    start: u32,
    end: u32,
)
    requires across { (start < end) × (end ≤ screen.now.width) }
    requires down { row < screen.now.height }
    requires small { (row < 999) × (end < 999) }
    ensures { Puts W.seen pen.old pen.new (strip_elements start row (strip_from (cell_at screen.now) row start (end - start))) }
{
    let attr = screen.get(start, row).attr();
    put_ground(pen, start, row, end - start, attr);
    put_any_text(pen, screen, row, start, end);
    put_cursor(pen, start, row, end - start, attr);
}

fn put_ground<W: Writer>(pen: &mut Pen<W>, column: u32, row: u32, count: u32, attr: u8)
    requires { (column < 999) × (row < 999) × (count < 999) }
    ensures { Puts W.seen pen.old pen.new (ground_element column row count attr) }
{
    let ground = Extent {
        x: 10 * column,
        y: 20 * row,
        width: 10 * count,
        height: 20,
    };
    put_rect(pen, ground, attr / 16);
}

fn put_cursor<W: Writer>(pen: &mut Pen<W>, column: u32, row: u32, count: u32, attr: u8)
    requires { (column < 999) × (row < 999) × (count < 999) }
    ensures { Puts W.seen pen.old pen.new (cursor_element column row count attr) }
{
    if attr != CURSOR {
        return;
    }
    let bar = Extent {
        x: 10 * column,
        y: 20 * row + 17,
        width: 10 * count,
        height: 3,
    };
    put_rect(pen, bar, attr % 16);
}

// Writes the text, unless all of it is spaces.
fn put_any_text<W: Writer>(pen: &mut Pen<W>, screen: &Screen, row: u32, start: u32, end: u32)
    requires across { (start < end) × (end ≤ screen.now.width) }
    requires down { row < screen.now.height }
    requires small { (row < 999) × (end < 999) }
    ensures { Puts W.seen pen.old pen.new (if has_ink (chars_from (cell_at screen.now) row start (end - start))
        then text_element start row (strip_from (cell_at screen.now) row start (end - start)) else []) }
{
    if !has_ink(screen, row, start, end) {
        return;
    }
    put_text(pen, screen, row, start, end);
}

// Whether one of the characters isn't a space.
fn has_ink(screen: &Screen, row: u32, start: u32, end: u32) -> bool
    requires across { (start < end) × (end ≤ screen.now.width) }
    requires down { row < screen.now.height }
    ensures { result ≡ has_ink (chars_from (cell_at screen.now) row start (end - start)) }
{
    for column in start..end {
        if screen.get(column, row).ch() != ' ' {
            return true;
        }
    }
    false
}

fn put_text<W: Writer>(pen: &mut Pen<W>, screen: &Screen, row: u32, start: u32, end: u32)
    requires across { (start < end) × (end ≤ screen.now.width) }
    requires down { row < screen.now.height }
    requires small { (row < 999) × (end < 999) }
    ensures { Puts W.seen pen.old pen.new (text_element start row (strip_from (cell_at screen.now) row start (end - start))) }
{
    pen.put(b"<text");
    put_attribute(pen, b"x", 10 * start);
    put_attribute(pen, b"y", 20 * row + 15);
    put_attribute(pen, b"textLength", 10 * (end - start));
    put_fill(pen, screen.get(start, row).attr() % 16);
    pen.put(b" lengthAdjust=\"spacingAndGlyphs\">");
    put_chars(pen, screen, row, start, end);
    pen.put(b"</text>\n");
}

fn put_chars<W: Writer>(pen: &mut Pen<W>, screen: &Screen, row: u32, start: u32, end: u32)
    requires across { (start < end) × (end ≤ screen.now.width) }
    requires down { row < screen.now.height }
    ensures { Puts W.seen pen.old pen.new (flat_map char_text (chars_from (cell_at screen.now) row start (end - start))) }
{
    for column in start..end {
        put_char(pen, screen.get(column, row).ch());
    }
}
