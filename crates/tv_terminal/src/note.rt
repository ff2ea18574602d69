//! The characters of a note below a screen.

ghost use Rattle.std.specs.Prelude.{◌≡◌, All};
ghost use Rattle.tv_cells.specs.Glyph.{shown_char};
ghost use Rattle.tv_io.specs.Pen.{Puts};
ghost use Rattle.tv_terminal.specs.Notes.{IsShowable, shown_bytes};

use tv_cells::NarrowChar;
use tv_io::{Pen, Writer};

/// Writes characters as a screen shows them: a space for each that doesn't take one column.
pub(crate) fn put_shown<W: Writer>(text: &[char], pen: &mut Pen<W>)
    ensures puts { Puts W.seen pen.old pen.new (shown_bytes text.now) }
    ensures showable { All (λ ch. IsShowable (shown_char ch)) text.now }
{
    for ch in text {
        pen.put_char(shown(*ch));
    }
}

fn shown(ch: char) -> char
    ensures is { result ≡ shown_char ch }
    ensures showable { IsShowable result }
{
    NarrowChar::shown(ch).get()
}
