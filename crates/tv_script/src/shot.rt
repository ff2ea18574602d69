//! The lines of a screen, written.

ghost use Rattle.std.specs.Prelude.{◌≡◌, ◌++◌, ◌+◌, ◌<◌, ◌≤◌, codes, decimal, flat_map, length};
ghost use Rattle.std.specs.List.{range_with_len};
ghost use Rattle.tv_cells.specs.Picture.{cell_at};
ghost use Rattle.tv_model.specs.Log.LogText.{line_of};
ghost use Rattle.tv_machine.specs.Output.{cells_text, hex_byte, hex_digit, row_text, screen_text};
ghost use Rattle.tv_io.specs.Pen.{Puts};
ghost use Rattle.tv_script.specs.ScreenText.{aspect_word, cell_text};

use arrayvec::ArrayVec;
use tv_cells::{Cell, Screen};
use tv_io::{Pen, Writer, push_char};

/// The most bytes of a row: 132 characters of at most four bytes each, two colons and the line end.
const ROW: usize = 531;

/// What is shown of each cell.
#[derive(Clone, Copy)]
pub(crate) enum Aspect {
    Characters,
    Attributes,
}

/// Writes a line with the size of the screen, and its rows.
pub(crate) fn put_screen<W: Writer>(pen: &mut Pen<W>, aspect: Aspect, screen: &Screen)
    ensures { Puts W.seen pen.old pen.new
        (screen_text (aspect_word aspect) (cell_text aspect) screen.now.width screen.now.height
        (cell_at screen.now)) }
{
    put_size(pen, aspect, screen);
    for row in 0..screen.height() {
        put_row(pen, aspect, screen, row);
    }
}

fn put_size<W: Writer>(pen: &mut Pen<W>, aspect: Aspect, screen: &Screen)
    ensures { Puts W.seen pen.old pen.new
        (line_of (aspect_word aspect) (decimal screen.now.width ++ codes " " ++ decimal screen.now.height)) }
{
    pen.put(aspect_word(aspect));
    pen.put_number(screen.width());
    pen.put(b" ");
    pen.put_number(screen.height());
    pen.put(b"\n");
}

fn aspect_word(aspect: Aspect) -> &'static [u8]
    ensures { result.now ≡ aspect_word aspect }
{
    match aspect {
        Aspect::Characters => b"shot ",
        Aspect::Attributes => b"colors ",
    }
}

fn put_row<W: Writer>(pen: &mut Pen<W>, aspect: Aspect, screen: &Screen, row: u32)
    requires { row < screen.now.height }
    ensures { Puts W.seen pen.old pen.new (row_text (cell_text aspect) screen.now.width (cell_at screen.now) row) }
{
    let mut text: ArrayVec<u8, ROW> = ArrayVec::new();
    text.push(b':');
    push_cells(&mut text, aspect, screen, row);
    text.push(b':');
    text.push(b'\n');
    pen.put(text.as_slice());
}

fn push_cells(text: &mut ArrayVec<u8, ROW>, aspect: Aspect, screen: &Screen, row: u32)
    requires on { row < screen.now.height }
    requires room { length text.old.items ≤ 1 }
    ensures text { text.new.items ≡ text.old.items ++ cells_text (cell_text aspect) screen.now.width (cell_at screen.now) row }
    ensures room { length text.new.items ≤ 529 }
{
    for column in 0..screen.width() {
        push_cell(text, aspect, screen.get(column, row));
    }
}

fn push_cell(text: &mut ArrayVec<u8, ROW>, aspect: Aspect, cell: Cell)
    requires { length text.old.items + 4 ≤ 531 }
    ensures text { text.new.items ≡ text.old.items ++ cell_text aspect cell }
    ensures room { length text.new.items ≤ length text.old.items + 4 }
{
    match aspect {
        Aspect::Characters => push_char(text, cell.ch()),
        Aspect::Attributes => push_hex(text, cell.attr()),
    }
}

// Adds the byte in two lower case hexadecimal digits.
fn push_hex(text: &mut ArrayVec<u8, ROW>, byte: u8)
    requires { length text.old.items + 2 ≤ 531 }
    ensures { text.new.items ≡ text.old.items ++ hex_byte byte }
{
    text.push(hex_digit(byte / 16));
    text.push(hex_digit(byte % 16));
}

fn hex_digit(value: u8) -> u8
    requires { value < 16 }
    ensures is { result ≡ hex_digit value }
    ensures ascii { result < 128 }
{
    if value < 10 {
        b'0' + value
    } else {
        b'a' + (value - 10)
    }
}
