//! Elements of a drawing, and what they are made of.

ghost use Rattle.std.specs.Prelude.{◌<◌};
ghost use Rattle.tv_io.specs.Pen.{Puts};
ghost use Rattle.tv_terminal.specs.Svg.{attribute_text, char_text, fill_text, rect_element};

use crate::colour::colour_text;
use tv_io::{Pen, Writer};

/// A rectangle of a drawing.
#[derive(Clone, Copy)]
pub(crate) struct Extent {
    pub(crate) x: u32,
    pub(crate) y: u32,
    pub(crate) width: u32,
    pub(crate) height: u32,
}

/// Writes a rectangle of one colour.
pub(crate) fn put_rect<W: Writer>(pen: &mut Pen<W>, extent: Extent, colour: u8)
    requires { colour < 16 }
    ensures { Puts W.seen pen.old pen.new (rect_element extent colour) }
{
    pen.put(b"<rect");
    put_attribute(pen, b"x", extent.x);
    put_attribute(pen, b"y", extent.y);
    put_attribute(pen, b"width", extent.width);
    put_attribute(pen, b"height", extent.height);
    put_fill(pen, colour);
    pen.put(b"/>\n");
}

/// Writes an attribute of an element that has a number.
pub(crate) fn put_attribute<W: Writer>(pen: &mut Pen<W>, name: &[u8], value: u32)
    ensures { Puts W.seen pen.old pen.new (attribute_text name.now value) }
{
    pen.put(b" ");
    pen.put(name);
    pen.put(b"=\"");
    pen.put_number(value);
    pen.put(b"\"");
}

/// Writes the attribute that fills an element with a colour.
pub(crate) fn put_fill<W: Writer>(pen: &mut Pen<W>, colour: u8)
    requires { colour < 16 }
    ensures { Puts W.seen pen.old pen.new (fill_text colour) }
{
    pen.put(b" fill=\"");
    pen.put(colour_text(colour));
    pen.put(b"\"");
}

/// Writes a character of a text.
pub(crate) fn put_char<W: Writer>(pen: &mut Pen<W>, ch: char)
    ensures { Puts W.seen pen.old pen.new (char_text ch) }
{
    match ch {
        '&' => pen.put(b"&amp;"),
        '<' => pen.put(b"&lt;"),
        '>' => pen.put(b"&gt;"),
        '"' => pen.put(b"&quot;"),
        '\u{fffe}' | '\u{ffff}' => pen.put_char('\u{fffd}'),
        _ => pen.put_char(ch),
    }
}
