//! The text of an input line, and what keys and the mouse make of it.

ghost use Rattle.std.specs.Prelude.{◌≡◌, ◌↔◌, ◌<◌, ◌≤◌, IsTrue, false, length, remove};
ghost use Rattle.tv_model.specs.Kinds.InputLine.{at_place, backspaced, clicked, deleted, entered, is_edit_key, left, opened_up, cursor_after, with_text, becomes, edited, typed};
ghost use Rattle.tv_controls.specs.InputLine.{edit_opened};

use std::marker::Model;
use tv_event::Key;
use tv_valid::{Domain, Text};

/// A text that is typed, the place of the cursor in it, whether the whole text is selected, and whether typing overwrites.
#[derive(Drop)]
pub(crate) struct LineEdit {
    text: Text,
    cursor: usize,
    is_whole: bool,
    overwrites: bool,
}

impl Model for LineEdit {
    ghost use Rattle.std.specs.Prelude.{◌≤◌, length};
    ghost use Rattle.tv_model.specs.Kinds.InputLine.{Edit};

    ghost Value = { Edit };

    ghost view = { λ e. record { text = e.text; cursor = e.cursor; is_whole = e.is_whole; overwrites = e.overwrites } };

    ghost invariant = { λ e. e.cursor ≤ length e.text };
}

/// Whether an input handles the key. It passes all others on.
pub(crate) fn is_edit_key(key: Key) -> bool
    ensures { result ≡ is_edit_key key }
{
    match key {
        Key::Left | Key::Right | Key::Home | Key::End => true,
        Key::Insert | Key::Backspace | Key::Delete => true,
        Key::Ctrl(letter) => letter == 'Y',
        Key::Char(_) => true,
        _ => false,
    }
}

impl LineEdit {
    /// Starts with a text: the cursor stands before it, and nothing is selected.
    pub fn new(text: Text) -> LineEdit
        ensures { result ≡ edit_opened text false }
    {
        LineEdit {
            text,
            cursor: 0,
            is_whole: false,
            overwrites: false,
        }
    }

    /// Returns the text.
    pub fn text(&self) -> &Text
        ensures { result.now ≡ self.now.text }
    {
        &self.text
    }

    /// Returns the place of the cursor.
    pub fn cursor(&self) -> u32
        ensures value { result ≡ self.now.cursor }
        ensures within { self.now.cursor ≤ length self.now.text }
    {
        let _room = self.text.len();
        self.cursor as u32
    }

    /// Whether the whole text is selected.
    pub fn is_whole(&self) -> bool
        ensures { result ≡ self.now.is_whole }
    {
        self.is_whole
    }

    /// Whether it is as at the start, before any key, with these characters.
    pub fn is_start(&self, start: &[char]) -> bool
        ensures { IsTrue result ↔ (self.now ≡ edit_opened start.now false) }
    {
        self.text.as_slice() == start && self.cursor == 0 && !self.is_whole && !self.overwrites
    }

    /// Takes another text, with the cursor before it and nothing selected.
    pub fn open(&mut self, text: Text)
        ensures { self.new ≡ edit_opened text self.old.overwrites }
    {
        self.put(text, 0);
    }

    // Moves the cursor to a place, with nothing selected.
    fn go(&mut self, place: usize)
        requires { place ≤ length self.old.text }
        ensures { self.new ≡ at_place place self.old }
    {
        self.cursor = place;
        self.is_whole = false;
    }

    // Takes another text, with the cursor at a place.
    fn put(&mut self, text: Text, place: usize)
        requires { place ≤ length text }
        ensures { self.new ≡ with_text text place self.old }
    {
        self.text = text;
        self.cursor = place;
        self.is_whole = false;
    }

    // Takes another text, if it is viable.
    fn try_put(&mut self, domain: &Domain, text: Text, place: usize)
        requires { place ≤ length text }
        ensures { self.new ≡ becomes domain.now (with_text text place self.old) self.old }
    {
        if domain.viable(&text) {
            self.put(text, place);
        }
    }

    // The text without the character at a place.
    fn without(&self, place: usize) -> Text
        requires { place < length self.now.text }
        ensures { result ≡ remove self.now.text place }
    {
        let mut text = self.text.copy();
        text.remove(place);
        text
    }

    fn backspace(&mut self, domain: &Domain)
        ensures { self.new ≡ becomes domain.now (backspaced self.old) self.old }
    {
        if self.cursor == 0 {
            let text = self.text.copy();
            self.try_put(domain, text, 0);
        } else {
            let place = self.cursor - 1;
            let text = self.without(place);
            self.try_put(domain, text, place);
        }
    }

    fn delete(&mut self, domain: &Domain)
        ensures { self.new ≡ becomes domain.now (deleted self.old) self.old }
    {
        if self.is_whole {
            self.try_put(domain, Text::new(), 0);
        } else {
            let place = self.cursor;
            let text = if place < self.text.len() {
                self.without(place)
            } else {
                self.text.copy()
            };
            self.try_put(domain, text, place);
        }
    }

    // What a character is typed into: nothing where the whole text is selected, and the text without the character at the
    // cursor where that is typed over.
    fn opened_up(&self) -> LineEdit
        ensures { result ≡ opened_up self.now }
    {
        let cursor = self.cursor;
        let overwrites = self.overwrites;
        if self.is_whole {
            return LineEdit {
                text: Text::new(),
                cursor: 0,
                is_whole: false,
                overwrites,
            };
        }
        if overwrites && cursor < self.text.len() {
            return LineEdit {
                text: self.without(cursor),
                cursor,
                is_whole: false,
                overwrites,
            };
        }
        LineEdit {
            text: self.text.copy(),
            cursor,
            is_whole: false,
            overwrites,
        }
    }

    // Where the cursor stands after a character was typed.
    fn place_after(&self, text: &Text) -> usize
        ensures { result ≡ cursor_after self.now text.now }
    {
        if self.cursor == self.text.len() {
            text.len()
        } else {
            self.cursor + 1
        }
    }

    fn type_char(&mut self, domain: &Domain, ch: char)
        ensures { self.new ≡ typed domain.now ch self.old }
    {
        let opened = self.opened_up();
        if let Some(text) = domain.typed(&opened.text, opened.cursor, ch) {
            let place = opened.place_after(&text);
            self.put(text, place);
        }
    }

    /// Edits the text by a key. A key that would leave a text that isn't viable changes nothing.
    pub fn edit(&mut self, domain: &Domain, key: Key)
        ensures { self.new ≡ edited domain.now key self.old }
    {
        let cursor = self.cursor;
        let len = self.text.len();
        match key {
            Key::Left => self.go(cursor.saturating_sub(1)),
            Key::Right => self.go((cursor + 1).min(len)),
            Key::Home => self.go(0),
            Key::End => self.go(len),
            Key::Insert => {
                self.is_whole = false;
                self.overwrites = !self.overwrites;
            }
            Key::Backspace => self.backspace(domain),
            Key::Delete => self.delete(domain),
            Key::Ctrl('Y') => self.try_put(domain, Text::new(), 0),
            Key::Char(ch) => self.type_char(domain, ch),
            _ => {}
        }
    }

    /// Moves the cursor to where the mouse goes down: at a column of the input, of which `first` is the first place
    /// shown.
    pub fn click(&mut self, first: usize, column: u32)
        requires { first ≤ length self.old.text }
        ensures { self.new ≡ clicked first column self.old }
    {
        let len = self.text.len();
        let place = (first + column as usize).saturating_sub(1);
        self.go(place.min(len));
    }

    /// Selects the whole text, as the focus comes.
    pub fn enter(&mut self)
        ensures { self.new ≡ entered self.old }
    {
        self.cursor = self.text.len();
        self.is_whole = !self.text.is_empty();
    }

    /// Selects nothing and moves the cursor to the start, as the focus goes. Returns whether that changes something.
    pub fn leave(&mut self) -> bool
        ensures after { self.new ≡ left self.old }
        ensures same { result ≡ false → self.new ≡ self.old }
    {
        let is_left = self.cursor == 0 && !self.is_whole;
        self.go(0);
        !is_left
    }
}
