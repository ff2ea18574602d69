//! What is made by the libraries' constructors.

use bitflags::Flags;
use std::alloc::{AllocError, Global};
use std::process::Abort;
use std::test::Fail;
use tv_cells::{Cell, HotText, HotTextFault, Point, Screen, ScreenFault};
use tv_event::{Command, CommandSet, Event, Key, Mask, Options, State};
use tv_model::{Id, Record, Value};
use tv_test_support::{Question, expect_rows};
use tv_valid::Text;

#[test]
fn screens(rt: HostRuntime) -> Result<(), Fail> {
    for (width, height) in [(20, 10), (132, 60)] {
        let screen = Screen::new(rt.alloc(), width, height)?;
        assert_eq!(rt; (screen.width(), screen.height()), (width, height));
        expect_blank(&rt, &screen);
    }
    Ok(())
}

// Sees to it that each cell is blank, and that there is none beside the first row.
fn expect_blank(rt: &impl Abort, screen: &Screen) {
    for y in 0..screen.height() as i32 {
        expect_blank_row(rt, screen, y);
    }
    let x = screen.width() as i32;
    assert_eq!(rt; screen.at(Point { x, y: 0 }), None);
}

fn expect_blank_row(rt: &impl Abort, screen: &Screen, y: i32) {
    let blank = Cell::new(' ', 0);
    for x in 0..screen.width() as i32 {
        assert_eq!(rt; screen.at(Point { x, y }), blank, "{x} {y}");
    }
}

const REFUSED_SCREENS: [(u32, u32); 5] = [(19, 10), (20, 9), (133, 10), (20, 61), (0, 0)];

#[test]
fn refused_screens(rt: HostRuntime) {
    for &(width, height) in &REFUSED_SCREENS {
        let fault = Screen::new(rt.alloc(), width, height).err();
        assert_eq!(rt; fault, Some(ScreenFault::BadSize), "{width} {height}");
    }
}

#[test]
fn cells(rt: HostRuntime) -> Result<(), Fail> {
    let cell = Cell::new('a', 7).ok_or("a is narrow")?;
    assert_eq!(rt; (cell.ch(), cell.attr()), ('a', 7));
    for ch in ['漢', '\n', '\u{7f}', '\u{301}'] {
        assert_eq!(rt; Cell::new(ch, 7), None, "{ch:?}");
    }
    Ok(())
}

/// What a marked text is: its text without the mark and its letter, or why it is refused.
#[derive(Clone, Copy)]
struct MarkedTexts;

impl Question for MarkedTexts {
    fn answer(&self, alloc: Global, text: &[u8]) -> Result<String, Fail> {
        match HotText::parse(str::from_utf8(text)?) {
            Ok(hot) => Ok(letter_told(alloc, hot.text(), hot.letter())?),
            Err(fault) => Ok(refusal_told(alloc, fault)?),
        }
    }
}

fn letter_told(alloc: Global, text: &[char], letter: Option<char>) -> Result<String, AllocError> {
    let mut told = String::new(alloc);
    for ch in text {
        told.push(*ch)?;
    }
    told.push(',')?;
    if let Some(letter) = letter {
        told.push(letter)?;
    }
    Ok(told)
}

fn refusal_told(alloc: Global, fault: HotTextFault) -> Result<String, AllocError> {
    match fault {
        HotTextFault::BadMark => String::from_str(alloc, "bad mark"),
        HotTextFault::TooLong => String::from_str(alloc, "too long"),
        HotTextFault::BadWidth(place) => format!(in alloc; "bad width at {place}"),
    }
}

#[test]
fn marked_texts(rt: HostRuntime) -> Result<(), Fail> {
    const ROWS: [(&str, &str); 10] = [
        ("~A~mount", "Amount,A"),
        ("~a~", "a,A"),
        ("x~9~", "x9,9"),
        ("Amount", "Amount,"),
        ("", ","),
        ("~AB~", "bad mark"),
        ("a~b", "bad mark"),
        ("~A~~B~", "bad mark"),
        ("~~", "bad mark"),
        ("ab漢", "bad width at 2"),
    ];
    expect_rows(&MarkedTexts, rt.alloc(), &ROWS)
}

// Fails where a text with so many characters more is something else than what ends like this.
fn expect_end(alloc: Global, text: &str, more: usize, end: &str) -> Result<(), Fail> {
    let rest = "x".repeat(alloc, more)?;
    let whole = format!(in alloc; "{text}{rest}")?;
    let told = MarkedTexts.answer(alloc, whole.as_bytes())?;
    if told.ends_with(end) {
        return Ok(());
    }
    Err(Fail::new(format_args!("{text} and {more} more: {told}")))
}

#[test]
fn lengths_of_marked_texts(rt: HostRuntime) -> Result<(), Fail> {
    for &(text, more, end) in &[
        ("~A~", 119, "x,A"),
        ("~A~x", 119, "too long"),
        ("", 121, "too long"),
    ] {
        expect_end(rt.alloc(), text, more, end)?;
    }
    Ok(())
}

#[test]
fn sets_of_commands(rt: HostRuntime) {
    let mut commands = CommandSet::all();
    for number in 0..=255 {
        assert!(rt; commands.has(Command(number)), "{number}");
    }
    commands.disable(Command::OK);
    commands.disable(Command(255));
    assert!(rt; !commands.has(Command::OK));
    assert!(rt; !commands.has(Command(255)));
    assert!(rt; commands.has(Command::CANCEL));
    commands.enable(Command::OK);
    assert!(rt; commands.has(Command::OK));
    assert!(rt; !commands.has(Command(255)));
}

#[test]
fn bits_of_flags(rt: HostRuntime) {
    for &(bits, wanted) in &[
        (Mask::of_view().bits(), 0x0111),
        (Mask::of_group().bits(), 0x0317),
        (Options::SELECTABLE.bits(), 1),
        (Options::TOP_SELECT.bits(), 2),
        (Options::FIRST_CLICK.bits(), 4),
        (Options::PRE_PROCESS.bits(), 0x10),
        (Options::POST_PROCESS.bits(), 0x20),
        (Options::VALIDATE.bits(), 0x400),
        (State::VISIBLE.bits(), 1),
        (State::SHADOW.bits(), 8),
        (State::ACTIVE.bits(), 0x10),
        (State::SELECTED.bits(), 0x20),
        (State::FOCUSED.bits(), 0x40),
        (State::DISABLED.bits(), 0x100),
        (State::MODAL.bits(), 0x200),
    ] {
        assert_eq!(rt; bits, wanted);
    }
}

// The bits of an event's mask, and whether a view and a group take it.
fn masked(event: &Event) -> (u16, bool, bool) {
    let bits = Mask::of_event(event).bits();
    (
        bits,
        Mask::of_view().takes(event),
        Mask::of_group().takes(event),
    )
}

#[test]
fn masks_of_events(rt: HostRuntime) {
    let point = Point { x: 0, y: 0 };
    for &(event, wanted) in &[
        (Event::Down(point), (0x0001, true, true)),
        (Event::Up(point), (0x0002, false, true)),
        (Event::Move(point), (0x0004, false, true)),
        (Event::Key(Key::Tab), (0x0010, true, true)),
        (Event::Command(Command::OK), (0x0100, true, true)),
        (Event::Broadcast(Command::DEFAULT), (0x0200, false, true)),
    ] {
        assert_eq!(rt; masked(&event), wanted, "{event:?}");
    }
}

// Gives a field its value, where there is room.
fn put(rt: &impl Abort, record: &mut Record, id: Id, value: Value) {
    assert!(rt; record.len() < 64);
    record.put(id, value);
}

// What a field holds.
fn value_told(alloc: Global, value: Option<&Value>) -> Result<String, AllocError> {
    match value {
        None => String::from_str(alloc, "none"),
        Some(Value::Marks(marks)) => format!(in alloc; "marks {marks}"),
        Some(Value::Item(item)) => format!(in alloc; "item {item}"),
        Some(Value::Text(text)) => text.as_slice().iter().collect(alloc),
    }
}

fn expect_value(alloc: Global, record: &Record, id: Id, wanted: &str) -> Result<(), Fail> {
    let told = value_told(alloc, record.value(id))?;
    if told.as_str() == wanted {
        return Ok(());
    }
    Err(Fail::new(format_args!("{}: {told}", id.0)))
}

#[test]
fn records(rt: HostRuntime) -> Result<(), Fail> {
    let mut record = Record::new();
    expect_value(rt.alloc(), &record, Id(4), "none")?;
    put(&rt, &mut record, Id(4), Value::Marks(5));
    put(&rt, &mut record, Id(7), Value::Item(2));
    put(&rt, &mut record, Id(4), Value::Marks(6));
    assert_eq!(rt; record.len(), 2);
    for (id, wanted) in [(4, "marks 6"), (7, "item 2"), (5, "none")] {
        expect_value(rt.alloc(), &record, Id(id), wanted)?;
    }
    Ok(())
}

#[test]
fn texts_in_records(rt: HostRuntime) -> Result<(), Fail> {
    let text = Text::from_chars(&['a', 'b']).ok_or("two characters fit")?;
    let mut record = Record::new();
    put(&rt, &mut record, Id(4), Value::Marks(6));
    put(&rt, &mut record, Id(7), Value::Item(2));
    put(&rt, &mut record, Id(7), Value::Text(text));
    expect_value(rt.alloc(), &record, Id(7), "ab")
}
