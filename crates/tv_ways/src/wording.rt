//! Events, as words and as scripts.

ghost use Rattle.std.specs.Prelude.{◌≡◌, IsTrue, None};
ghost use Rattle.tv_io.specs.Pen.{Puts};
ghost use Rattle.tv_script.specs.Tapes.{IsPointOf, IsSayable, IsSayableKey};
ghost use Rattle.tv_ways.specs.Wording.{AreSayable, WaysAreScripts, between, closing, is_typed, is_typing, next_words, opening, script_text, typed_text, way_words, words_after};

use tv_cells::Point;
use tv_event::{Event, Key};
use tv_io::{Pen, Writer};
use tv_model::Desc;
use tv_script::{put_escaped_char, put_event};

// Whether a key has a name, or a character may stand in a line.
fn is_sayable_key(key: Key) -> bool
    ensures { IsTrue result → IsSayableKey key }
{
    match key {
        Key::Ctrl(letter) => letter.is_ascii_uppercase(),
        Key::Function(number) => 1 <= number && number <= 12,
        Key::Alt(ch) => ch.is_ascii_uppercase() || ch.is_ascii_digit(),
        Key::Char(ch) => !ch.is_control(),
        _ => true,
    }
}

// Whether the point is on the description's screen.
fn is_on_screen(desc: &Desc, point: Point) -> bool
    ensures { IsTrue result → IsPointOf desc.now.width desc.now.height point }
{
    0 <= point.x && point.x < desc.width && 0 <= point.y && point.y < desc.height
}

// Whether a script for the description's screen can say the event.
fn is_sayable(desc: &Desc, event: &Event) -> bool
    ensures { IsTrue result → IsSayable desc.now.width desc.now.height event.now }
{
    match event {
        Event::Key(key) => is_sayable_key(*key),
        Event::Down(point) | Event::Move(point) | Event::Up(point) => is_on_screen(desc, *point),
        Event::Command(_) | Event::Broadcast(_) => false,
    }
}

/// Whether a script for the description's screen can say these events.
pub(crate) fn are_sayable(desc: &Desc, events: &[Event]) -> bool
    ensures { IsTrue result → AreSayable desc.now events.now }
{
    for event in events {
        if !is_sayable(desc, event) {
            return false;
        }
    }
    true
}

/// Writes events in a line, with semicolons between.
pub fn put_events<W: Writer>(pen: &mut Pen<W>, events: &[Event])
    ensures { Puts W.seen pen.old pen.new (way_words events.now) }
{
    if events.is_empty() {
        pen.put(b"at the start");
    } else {
        put_each(pen, b"; ", events);
    }
}

/// Writes events as a script, which has a line for each, and one for characters that are typed one after the other.
pub fn put_script<W: Writer>(pen: &mut Pen<W>, events: &[Event])
    ensures { Puts W.seen pen.old pen.new (script_text events.now) }
{
    if !events.is_empty() {
        put_each(pen, b"\n", events);
        pen.put(b"\n");
    }
}

fn put_each<W: Writer>(pen: &mut Pen<W>, separator: &[u8], events: &[Event])
    ensures { Puts W.seen pen.old pen.new (words_after separator.now None events.now) }
{
    let mut before = None;
    for event in events {
        put_next(pen, separator, before, event);
        before = Some(*event);
    }
    put_closing(pen, before);
}

// Whether the event types a character.
fn is_typed(event: &Event) -> bool
    ensures { result ≡ is_typed event.now }
{
    matches!(event, Event::Key(Key::Char(_)))
}

fn is_typing(before: Option<Event>) -> bool
    ensures { result ≡ is_typing before }
{
    match before {
        Some(event) => is_typed(&event),
        None => false,
    }
}

fn put_closing<W: Writer>(pen: &mut Pen<W>, before: Option<Event>)
    ensures { Puts W.seen pen.old pen.new (closing before) }
{
    if is_typing(before) {
        pen.put(b"\"");
    }
}

fn put_between<W: Writer>(pen: &mut Pen<W>, separator: &[u8], before: Option<Event>)
    ensures { Puts W.seen pen.old pen.new (between separator.now before) }
{
    if before.is_some() {
        pen.put(separator);
    }
}

fn put_opening<W: Writer>(pen: &mut Pen<W>, separator: &[u8], before: Option<Event>)
    ensures { Puts W.seen pen.old pen.new (opening separator.now before) }
{
    if !is_typing(before) {
        put_between(pen, separator, before);
        pen.put(b"type \"");
    }
}

// Writes the character that the event types.
fn put_typed<W: Writer>(pen: &mut Pen<W>, event: &Event)
    ensures { Puts W.seen pen.old pen.new (typed_text event.now) }
{
    match event {
        Event::Key(Key::Char(ch)) => put_escaped_char(pen, *ch),
        _ => {}
    }
}

// Writes an event after another.
fn put_next<W: Writer>(pen: &mut Pen<W>, separator: &[u8], before: Option<Event>, event: &Event)
    ensures { Puts W.seen pen.old pen.new (next_words separator.now before event.now) }
{
    if is_typed(event) {
        put_opening(pen, separator, before);
        put_typed(pen, event);
    } else {
        put_closing(pen, before);
        put_between(pen, separator, before);
        put_event(pen, event);
    }
}

/// A theorem, as a function without a body: what `put_script` writes of events that a script can say, as those of each way are,
/// spells the script of these events, where there are no more of them, and of its bytes, than a script may have.
pub fn ways_are_scripts()
    ensures { WaysAreScripts }
{}
