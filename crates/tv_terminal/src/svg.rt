//! A screen, drawn.

ghost use Rattle.std.specs.Prelude.{◌≡◌, ◌<◌, MatchResult, ℕ, flat_map};
ghost use Rattle.tv_cells.specs.Picture.{cell_at};
ghost use Rattle.tv_io.specs.Pen.{Puts};
ghost use Rattle.tv_io.specs.Writer.{Cuts, Takes};
ghost use Rattle.tv_terminal.specs.Strips.{cells_from, strip_cells, strips_of};
ghost use Rattle.tv_terminal.specs.Svg.{head_text, margin_element, row_elements, rows_elements, size_text, svg_of};

use crate::element::put_attribute;
use crate::strip::{put_strip, strip_end};
use tv_cells::Screen;
use tv_io::{Pen, WriteFailed, Writer};

/// Writes a screen as SVG in sixteen colours: for each run of cells of one attribute a rectangle of its background, and a
/// text unless all are spaces; and a bar for the cursor. Takes no memory.
///
/// # Errors
///
/// The writer failed, or took nothing. A proper prefix of the text was written.
pub fn write_svg<W: Writer>(screen: &Screen, out: &mut W) -> Result<(), WriteFailed>
    ensures { MatchResult result
        (λ _. Takes (W.seen out.old) (W.seen out.new) (svg_of screen.now))
        (λ _. Cuts (W.seen out.old) (W.seen out.new) (svg_of screen.now)) }
{
    let mut pen = Pen {
        out,
        stopped: false,
    };
    put_svg(&mut pen, screen);
    if pen.stopped {
        return Err(WriteFailed);
    }
    Ok(())
}

/// A theorem, as a function without a body: the strips that are drawn of a row, put together, are the row's cells.
pub fn strips_are_rows(_screen: &Screen)
    ensures { (row : ℕ) → flat_map strip_cells (strips_of (cells_from (cell_at _screen.now) row 0 _screen.now.width))
        ≡ cells_from (cell_at _screen.now) row 0 _screen.now.width }
{}

fn put_svg<W: Writer>(pen: &mut Pen<W>, screen: &Screen)
    ensures { Puts W.seen pen.old pen.new (svg_of screen.now) }
{
    put_head(pen, screen.width(), screen.height());
    put_margin(pen, screen.width(), screen.height());
    put_rows(pen, screen);
    pen.put(b"</svg>\n");
}

fn put_head<W: Writer>(pen: &mut Pen<W>, width: u32, height: u32)
    requires { (width < 999) × (height < 999) }
    ensures { Puts W.seen pen.old pen.new (head_text width height) }
{
    pen.put(b"<svg xmlns=\"http://www.w3.org/2000/svg\" viewBox=\"-10 -10 ");
    pen.put_number(10 * width + 20);
    pen.put(b" ");
    pen.put_number(20 * height + 20);
    pen.put(b"\"");
    put_size(pen, width, height);
    pen.put(
        b"\n  font-family=\"'DejaVu Sans Mono', Menlo, Consolas, 'Liberation Mono', monospace\"",
    );
    pen.put(b" font-size=\"16\"\n  xml:space=\"preserve\" shape-rendering=\"crispEdges\">\n");
}

fn put_margin<W: Writer>(pen: &mut Pen<W>, width: u32, height: u32)
    requires { (width < 999) × (height < 999) }
    ensures { Puts W.seen pen.old pen.new (margin_element width height) }
{
    pen.put(b"<rect x=\"-10\" y=\"-10\"");
    put_size(pen, width, height);
    pen.put(b" rx=\"6\" fill=\"#111111\"/>\n");
}

// Writes how large the picture is, with its margin.
fn put_size<W: Writer>(pen: &mut Pen<W>, width: u32, height: u32)
    requires { (width < 999) × (height < 999) }
    ensures { Puts W.seen pen.old pen.new (size_text width height) }
{
    put_attribute(pen, b"width", 10 * width + 20);
    put_attribute(pen, b"height", 20 * height + 20);
}

fn put_rows<W: Writer>(pen: &mut Pen<W>, screen: &Screen)
    ensures { Puts W.seen pen.old pen.new (rows_elements screen.now.width screen.now.height (cell_at screen.now)) }
{
    for row in 0..screen.height() {
        put_row(pen, screen, row);
    }
}

// Writes the strips of a row, one after the other.
fn put_row<W: Writer>(pen: &mut Pen<W>, screen: &Screen, row: u32)
    requires down { row < screen.now.height }
    requires small { row < 999 }
    ensures { Puts W.seen pen.old pen.new (row_elements screen.now.width (cell_at screen.now) row) }
{
    let mut column = 0;
    while column < screen.width() {
        let end = strip_end(screen, row, column);
        put_strip(pen, screen, row, column, end);
        column = end;
    }
}
