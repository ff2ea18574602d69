//! The words of commands, keys and marked texts.

ghost use Rattle.std.specs.Prelude.{◌≡◌, [], ◌∷◌, ◌++◌, ◌+◌, drop, map, slice_index, take, IfOk, Some};
ghost use Rattle.tv_declarations.specs.Spelling.Terms.{command_word, ends_words, marked_word, with_mark};
ghost use Rattle.tv_declarations.specs.Spelling.Keys.{key_word};

use crate::line::{Line, ascii};
use std::alloc::{AllocError, Global};
use tv_declarations::{command_name, key_name};
use tv_event::Key;
use tv_model::{CommandSpec, Ends, MarkedText};
use tv_valid::Chars;
use tv_words::Word;

impl<'a> Line<'a> {
    /// Adds the word of a command.
    pub(crate) fn command(self, command: CommandSpec) -> Result<Line<'a>, AllocError>
        ensures { IfOk result (λ line. line ≡ self.entry ++ command_word command ∷ []) }
    {
        match command {
            CommandSpec::Number(number) => self.number(number),
            _ => self.keyword(command_name(command)),
        }
    }

    /// Adds the commands by which a dialog may end.
    pub(crate) fn ends(self, ends: Ends) -> Result<Line<'a>, AllocError>
        ensures { IfOk result (λ line. line ≡ self.entry ++ ends_words ends) }
    {
        self.keyword_if(ends.ok, command_name(CommandSpec::Ok))?
            .keyword_if(ends.cancel, command_name(CommandSpec::Cancel))?
            .keyword_if(ends.yes, command_name(CommandSpec::Yes))?
            .keyword_if(ends.no, command_name(CommandSpec::No))
    }

    /// Adds the name of a key.
    pub(crate) fn key(self, key: Key) -> Result<Line<'a>, AllocError>
        ensures { IfOk result (λ line. line ≡ self.entry ++ key_word key ∷ []) }
    {
        match key {
            Key::Ctrl(letter) => self.key_with(b"Ctrl-", letter),
            Key::Function(number) => self.function_key(number),
            Key::Alt(ch) => self.key_with(b"Alt-", ch),
            // A typed character has no name, and no text spells one.
            _ => self.keyword(key_name(key)),
        }
    }

    fn key_with(self, prefix: &[u8], ch: char) -> Result<Line<'a>, AllocError>
        ensures { IfOk result (λ line. line ≡ self.entry ++ Word.Bare (prefix.now ++ ch ∷ []) ∷ []) }
    {
        let mut name = ascii(self.alloc, prefix)?;
        name.push(ch)?;
        self.word(Word::Bare(name))
    }

    fn function_key(self, number: u8) -> Result<Line<'a>, AllocError>
        ensures { IfOk result (λ line. line ≡ self.entry ++ key_word (Key.Function number) ∷ []) }
    {
        let name = format!(in self.alloc; "F{number}")?;
        self.bare(name.as_bytes())
    }

    /// Adds a quoted text that may have a mark.
    pub(crate) fn marked(self, marked: &'a MarkedText) -> Result<Line<'a>, AllocError>
        ensures { IfOk result (λ line. line ≡ self.entry ++ marked_word marked.now ∷ []) }
    {
        match marked.mark {
            None => self.text(&marked.text),
            Some(place) => self.marked_at(marked.text.as_slice(), place),
        }
    }

    fn marked_at(self, text: &[char], place: usize) -> Result<Line<'a>, AllocError>
        ensures { IfOk result (λ line. line ≡ self.entry ++ Word.Quoted (with_mark (Some place) text.now) ∷ []) }
    {
        let text = with_mark(self.alloc, text, place)?;
        self.word(Word::Quoted(text))
    }

    /// Adds these marked texts.
    pub(crate) fn marked_items(mut self, items: &'a [MarkedText]) -> Result<Line<'a>, AllocError>
        ensures { IfOk result (λ line. line ≡ self.entry ++ map marked_word items.now) }
    {
        for item in items {
            self = self.marked(item)?;
        }
        Ok(self)
    }
}

fn with_mark(alloc: Global, text: &[char], place: usize) -> Result<Chars, AllocError>
    ensures { IfOk result (λ marked. marked ≡ with_mark (Some place) text.now) }
{
    let (before, letter, after) = around(text, place);
    let mut chars = Vec::from_slice(alloc, before)?;
    chars.push('~')?;
    chars.push(letter)?;
    chars.push('~')?;
    chars.extend_from_slice(after)?;
    Ok(Chars::from_vec(chars))
}

// What stands before a place of the text, at it and after it; no text spells a mark past the end.
fn around(text: &[char], place: usize) -> (&[char], char, &[char])
    ensures before { result.0.now ≡ take place text.now }
    ensures at { result.1 ≡ slice_index text.now place }
    ensures after { result.2.now ≡ drop (place + 1) text.now }
{
    if place < text.len() {
        (&text[..place], text[place], &text[place + 1..])
    } else {
        (text, '\0', &[])
    }
}
