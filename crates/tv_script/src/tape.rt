//! Events, written as the lines of a script.

ghost use Rattle.std.specs.Prelude.{◌∷◌, ◌++◌, [], codes};
ghost use Rattle.tv_declarations.specs.Spelling.Keys.{key_name};
ghost use Rattle.tv_io.specs.Pen.{Puts};
ghost use Rattle.tv_model.specs.Log.LogText.{quoted_text};
ghost use Rattle.tv_script.specs.Tapes.{TapesAreScripts, event_line, event_words, key_line, key_rest, key_words, point_line, point_words, said};

use crate::lines::put_quoted;
use tv_cells::Point;
use tv_declarations::key_name;
use tv_event::{Event, Key};
use tv_io::{Pen, Writer};

/// Writes an event as a script says it, without the line end. A command or a broadcast, which no script has, is nothing.
pub fn put_event<W: Writer>(pen: &mut Pen<W>, event: &Event)
    ensures { Puts W.seen pen.old pen.new (event_words event.now) }
{
    match event {
        Event::Key(key) => put_key(pen, *key),
        Event::Down(point) => put_point(pen, b"down ", *point),
        Event::Move(point) => put_point(pen, b"move ", *point),
        Event::Up(point) => put_point(pen, b"up ", *point),
        Event::Command(_) | Event::Broadcast(_) => {}
    }
}

/// Writes the line of a script that an event is. A command or a broadcast, which no script has, is none.
pub fn put_event_line<W: Writer>(pen: &mut Pen<W>, event: &Event)
    ensures { Puts W.seen pen.old pen.new (event_line event.now) }
{
    match event {
        Event::Key(key) => put_key_line(pen, *key),
        Event::Down(point) => put_point_line(pen, b"down ", *point),
        Event::Move(point) => put_point_line(pen, b"move ", *point),
        Event::Up(point) => put_point_line(pen, b"up ", *point),
        Event::Command(_) | Event::Broadcast(_) => {}
    }
}

fn put_key_line<W: Writer>(pen: &mut Pen<W>, key: Key)
    ensures { Puts W.seen pen.old pen.new (key_line key) }
{
    put_key(pen, key);
    pen.put(b"\n");
}

fn put_point_line<W: Writer>(pen: &mut Pen<W>, keyword: &[u8], point: Point)
    ensures { Puts W.seen pen.old pen.new (point_line keyword.now point) }
{
    put_point(pen, keyword, point);
    pen.put(b"\n");
}

fn put_key<W: Writer>(pen: &mut Pen<W>, key: Key)
    ensures { Puts W.seen pen.old pen.new (key_words key) }
{
    match key {
        Key::Char(ch) => put_typed(pen, ch),
        _ => put_named(pen, key),
    }
}

// Writes that a character is typed.
fn put_typed<W: Writer>(pen: &mut Pen<W>, ch: char)
    ensures { Puts W.seen pen.old pen.new (said (codes "type ") (quoted_text (ch ∷ []))) }
{
    pen.put(b"type ");
    put_quoted(pen, &[ch]);
}

// Writes a key by its name.
fn put_named<W: Writer>(pen: &mut Pen<W>, key: Key)
    ensures { Puts W.seen pen.old pen.new (said (codes "key ") (key_name key ++ key_rest key)) }
{
    pen.put(b"key ");
    pen.put(key_name(key));
    put_rest(pen, key);
}

fn put_rest<W: Writer>(pen: &mut Pen<W>, key: Key)
    ensures { Puts W.seen pen.old pen.new (key_rest key) }
{
    match key {
        Key::Ctrl(letter) => {
            pen.put(b"Ctrl-");
            pen.put_char(letter);
        }
        Key::Function(number) => {
            pen.put(b"F");
            pen.put_number(u32::from(number));
        }
        Key::Alt(ch) => {
            pen.put(b"Alt-");
            pen.put_char(ch);
        }
        _ => {}
    }
}

fn put_point<W: Writer>(pen: &mut Pen<W>, keyword: &[u8], point: Point)
    ensures { Puts W.seen pen.old pen.new (point_words keyword.now point) }
{
    pen.put(keyword);
    pen.put_signed(point.x);
    pen.put(b" ");
    pen.put_signed(point.y);
}

/// A theorem, as a function without a body: what `put_event_line` writes of events that a script can say for a screen spells
/// the script of these events, where there are no more of them, and of its bytes, than a script may have.
pub fn tapes_are_scripts()
    ensures { TapesAreScripts }
{}
