//! A line of a script, judged in place.

ghost use Rattle.std.specs.Prelude.{◌≡◌, [], ◌∷◌, length, Some};
ghost use Rattle.std.specs.Option.{option_map};
ghost use Rattle.std.specs.List.{list_any};
ghost use Rattle.tv_machine.specs.declared.script.Item.TheVariants as items;
ghost use Rattle.tv_script.specs.Lines.{ends_line, is_on_axis, is_on_screen, items_of_line, item_typed};
ghost use Rattle.tv_script.specs.Reading.Lines.{key_line_in, line_read, mouse_line_in, point_in, screen_line_in, typed_in, words_read};
ghost use Rattle.tv_script.specs.ScriptLines.{items_left, line_meant};
ghost use Rattle.tv_words.specs.Tokens.{text_quoted, token_word, words_in};

use tv_cells::Point;
use tv_declarations::token_key;
use tv_event::{Event, Key};
use tv_machine::Item;
use tv_words::{QuotedChars, QuotedText, Token, Tokens, tokens_of};

/// A line of a script, which lends its text. Contracts speak of the `Line` that it means.
#[derive(Clone, Copy)]
pub(crate) enum ScriptLine<'a> {
    /// A key.
    Key(Key),
    /// A key for each character of a text.
    Type(QuotedText<'a>),
    /// The mouse button goes down at a point.
    Down(Point),
    /// The mouse moves to a point.
    Move(Point),
    /// The mouse button goes up at a point.
    Up(Point),
    /// The characters of the screen.
    Shot,
    /// The attributes of the screen.
    Colors,
}

/// Goes over the items of a line, and takes no memory.
#[derive(Drop)]
pub(crate) enum ScriptItems<'a> {
    /// One item, until it is taken.
    One(Option<Item>),
    /// The characters of a text that are left, each of which is typed.
    Typed(QuotedChars<'a>),
}

impl<'a> ScriptLine<'a> {
    /// Goes over the items of the line.
    pub(crate) fn items(&self) -> ScriptItems<'a>
        ensures { items_left result ≡ items_of_line (line_meant self.now) }
    {
        match self {
            ScriptLine::Key(key) => one_event(Event::Key(*key)),
            ScriptLine::Type(text) => ScriptItems::Typed(text.chars()),
            ScriptLine::Down(point) => one_event(Event::Down(*point)),
            ScriptLine::Move(point) => one_event(Event::Move(*point)),
            ScriptLine::Up(point) => one_event(Event::Up(*point)),
            ScriptLine::Shot => ScriptItems::One(Some(Item::Shot)),
            ScriptLine::Colors => ScriptItems::One(Some(Item::Colors)),
        }
    }

    /// Counts the items of the line.
    pub(crate) fn count(&self) -> usize
        ensures { result ≡ length (items_of_line (line_meant self.now)) }
    {
        match self {
            ScriptLine::Type(text) => text.len(),
            _ => 1,
        }
    }

    /// Tells whether its point, if it has one, is on a screen of so many columns and rows.
    pub(crate) fn is_on_screen(&self, width: i32, height: i32) -> bool
        ensures { result ≡ is_on_screen width height (line_meant self.now) }
    {
        match self {
            ScriptLine::Down(point) | ScriptLine::Move(point) | ScriptLine::Up(point) => {
                is_within(point.x, width) && is_within(point.y, height)
            }
            _ => true,
        }
    }
}

impl<'a> Iterator for ScriptItems<'a> {
    ghost use Rattle.std.specs.Iterator.{YieldsFirst, item_count};
    ghost use Rattle.tv_script.specs.ScriptLines.{items_left};

    type Item = Item;

    ghost next_gives = { YieldsFirst items_left };

    ghost remaining = { item_count items_left };

    fn next(&mut self) -> Option<Item> {
        match self {
            ScriptItems::One(item) => item.take(),
            ScriptItems::Typed(chars) => chars.next().map(|ch| typed_item(ch)),
        }
    }
}

/// Reads a line without its line end, and takes no memory. `None` where the line is faulty, and `Some(None)` where it
/// has no words.
pub(crate) fn script_line(line: &[u8]) -> Option<Option<ScriptLine<'_>>>
    ensures { option_map (option_map line_meant) result ≡ line_read line.now }
{
    line_of(tokens_of(line)?)
}

fn line_of(tokens: Tokens<'_>) -> Option<Option<ScriptLine<'_>>>
    ensures { option_map (option_map line_meant) result ≡ words_read (Some (words_in tokens.entry)) }
{
    match tokens {
        Tokens::Zero => Some(None),
        Tokens::One(keyword) => screen_line(&keyword).map(|line| Some(line)),
        Tokens::Two(keyword, token) => key_line(&keyword, &token).map(|line| Some(line)),
        Tokens::Three(keyword, x, y) => mouse_line(&keyword, &x, &y).map(|line| Some(line)),
    }
}

fn screen_line<'a>(keyword: &Token<'_>) -> Option<ScriptLine<'a>>
    ensures { option_map line_meant result ≡ screen_line_in (token_word keyword.now) }
{
    if keyword.is(b"shot") {
        Some(ScriptLine::Shot)
    } else if keyword.is(b"colors") {
        Some(ScriptLine::Colors)
    } else {
        None
    }
}

fn key_line<'a>(keyword: &Token<'_>, token: &Token<'a>) -> Option<ScriptLine<'a>>
    ensures { option_map line_meant result ≡ key_line_in (token_word keyword.now) (token_word token.now) }
{
    if keyword.is(b"key") {
        token_key(token).map(|key| ScriptLine::Key(key))
    } else if keyword.is(b"type") {
        typed(token)
    } else {
        None
    }
}

fn typed<'a>(token: &Token<'a>) -> Option<ScriptLine<'a>>
    ensures { option_map line_meant result ≡ typed_in (token_word token.now) }
{
    match token.text() {
        Some(text) if !has_line_end(&text) => Some(ScriptLine::Type(text)),
        _ => None,
    }
}

fn has_line_end(text: &QuotedText<'_>) -> bool
    ensures { result ≡ list_any ends_line (text_quoted text.now) }
{
    text.chars().any(|ch| ch == '\n')
}

fn mouse_line<'a>(keyword: &Token<'_>, x: &Token<'_>, y: &Token<'_>) -> Option<ScriptLine<'a>>
    ensures { option_map line_meant result ≡
        mouse_line_in (token_word keyword.now) (point_in (token_word x.now) (token_word y.now)) }
{
    let point = point(x, y);
    if keyword.is(b"down") {
        point.map(|point| ScriptLine::Down(point))
    } else if keyword.is(b"move") {
        point.map(|point| ScriptLine::Move(point))
    } else if keyword.is(b"up") {
        point.map(|point| ScriptLine::Up(point))
    } else {
        None
    }
}

fn point(x: &Token<'_>, y: &Token<'_>) -> Option<Point>
    ensures { result ≡ point_in (token_word x.now) (token_word y.now) }
{
    Some(Point {
        x: x.number()?,
        y: y.number()?,
    })
}

// Whether a place is one of so many columns or rows.
fn is_within(at: i32, size: i32) -> bool
    ensures { result ≡ is_on_axis size at }
{
    0 <= at && at < size
}

fn one_event<'a>(event: Event) -> ScriptItems<'a>
    ensures { items_left result ≡ items.Event event ∷ [] }
{
    ScriptItems::One(Some(Item::Event(event)))
}

fn typed_item(ch: char) -> Item
    ensures { result ≡ item_typed ch }
{
    Item::Event(Event::Key(Key::Char(ch)))
}
