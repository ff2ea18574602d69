//! Texts with at most one letter marked, which are written as `~A~mount`.

ghost use Rattle.std.specs.Prelude.{◌≡◌, ◌≢◌, ◌<◌, ◌≤◌, ◌+◌, ◌++◌, [], ◌∷◌, length, chars, All, IfOk, IfErr, IfSome, IfNone, OnOk};
ghost use Rattle.tv_cells.specs.Glyph.{IsNarrow};
ghost use Rattle.tv_cells.specs.HotText.{Hot, IsApart, IsHot, IsUnmarkable, RefusesHotText, hot_of, letter_of, spelled_hot_text, unmarked};

use crate::cell::is_narrow;
use arrayvec::ArrayVec;
use std::marker::Model;
use thiserror::Error;

/// Why a text is refused. Where several faults hold, the first in this order is returned.
#[derive(Clone, Copy, Debug, Drop, PartialEq, Eq, Error)]
pub enum HotTextFault {
    /// The place of the first character that doesn't take one column. It counts all characters before it, `~` too.
    #[error("the character at {0} does not take one column")]
    BadWidth(usize),
    #[error("`~` is used otherwise than once round a letter or a digit")]
    BadMark,
    #[error("more than 120 characters")]
    TooLong,
}

/// A text of at most 120 characters, one of which may be marked: its letter.
#[derive(Debug, Drop)]
pub struct HotText {
    text: ArrayVec<char, 120>,
    place: Option<usize>,
}

impl Model for HotText {
    ghost use Rattle.std.specs.Prelude.{length, ◌≤◌};
    ghost use Rattle.tv_cells.specs.HotText.{Hot, IsHot};

    ghost Value = { Hot };

    ghost view = { λ t. record { text = t.text.items; place = t.place } };

    ghost invariant = { λ t. IsHot (record { text = t.text.items; place = t.place }) × (length t.text.items ≤ 120) };
}

impl HotText {
    /// Reads a text in which one letter may stand between two `~`.
    ///
    /// # Errors
    ///
    /// `BadWidth` for the first character that doesn't take one column, else `BadMark` for another use of `~`, else
    /// `TooLong` for more than 120 characters, the two `~` not counted.
    pub fn parse(text: &str) -> Result<HotText, HotTextFault>
        ensures spelled { IfOk result (λ hot. spelled_hot_text hot ≡ chars text.now) }
        ensures sound { IfOk result (λ hot. IsHot hot × (length hot.text ≤ 120)) }
        ensures only { (hot : Hot) → IsHot hot → length hot.text ≤ 120 → spelled_hot_text hot ≡ chars text.now → result ≡ Ok hot }
        ensures fault { IfErr result (λ fault. RefusesHotText (chars text.now) fault) }
    {
        if let Some(place) = first_wide(text) {
            return Err(HotTextFault::BadWidth(place));
        }
        match take_apart(text) {
            None => Err(HotTextFault::BadMark),
            Some(Parts::Plain) => HotText::plain(text),
            Some(
                Parts::Marked {
                    before,
                    letter,
                    after,
                },
            ) => HotText::marked(before, letter, after),
        }
    }

    fn plain(text: &str) -> Result<HotText, HotTextFault>
        requires { IsHot (unmarked (chars text.now)) }
        ensures ok { IfOk result (λ hot. (hot ≡ unmarked (chars text.now)) × (length hot.text ≤ 120)) }
        ensures fault { IfErr result (λ fault. (fault ≡ HotTextFault.TooLong) × (120 < length (chars text.now))) }
    {
        let mut items = ArrayVec::new();
        push_all(&mut items, text)?;
        Ok(HotText {
            text: items,
            place: None,
        })
    }

    fn marked(before: &str, letter: char, after: &str) -> Result<HotText, HotTextFault>
        requires { IsHot (hot_of (chars before.now) letter (chars after.now)) }
        ensures ok { IfOk result (λ hot. (hot ≡ hot_of (chars before.now) letter (chars after.now)) × (length hot.text ≤ 120)) }
        ensures fault { IfErr result (λ fault. (fault ≡ HotTextFault.TooLong)
            × (120 < length (chars before.now ++ letter ∷ chars after.now))) }
    {
        let mut items = ArrayVec::new();
        push_all(&mut items, before)?;
        let place = items.len();
        push(&mut items, letter)?;
        push_all(&mut items, after)?;
        Ok(HotText {
            text: items,
            place: Some(place),
        })
    }

    /// Copies the text with its mark.
    pub fn copy(&self) -> HotText
        ensures { result ≡ self.now }
    {
        HotText {
            text: ArrayVec::try_from(self.text.as_slice()).unwrap(),
            place: self.place,
        }
    }

    /// Returns the characters, without the mark.
    pub fn text(&self) -> &[char]
        ensures value { result.now ≡ self.now.text }
        ensures sound { IsHot self.now }
        ensures within { length result.now ≤ 120 }
    {
        self.text.as_slice()
    }

    /// Returns where the marked letter stands among the characters, from 0, or `None` where nothing is marked.
    pub fn place(&self) -> Option<usize>
        ensures { result ≡ self.now.place }
    {
        self.place
    }

    /// Returns the marked letter in upper case, or the marked digit, or `None` where nothing is marked.
    pub fn letter(&self) -> Option<char>
        ensures { result ≡ letter_of self.now }
    {
        let place = self.place?;
        Some(self.text[place].to_ascii_uppercase())
    }
}

// The first character, and what follows it.
fn next_char(text: &str) -> Option<(char, &str)>
    ensures some { IfSome result (λ p. chars text.now ≡ p.0 ∷ chars p.1.now) }
    ensures none { IfNone result (chars text.now ≡ []) }
{
    let mut chars = text.chars();
    let first = chars.next()?;
    Some((first, chars.as_str()))
}

// What stands before the first `~`, and what follows it.
fn split_tilde(text: &str) -> Option<(&str, &str)>
    ensures some { IfSome result (λ p. (chars text.now ≡ chars p.0.now ++ 126 ∷ chars p.1.now) × All (λ ch. ch ≢ 126) (chars p.0.now)) }
    ensures none { IfNone result (All (λ ch. ch ≢ 126) (chars text.now)) }
{
    text.split_once('~')
}

// The place of the first character that doesn't take one column.
fn first_wide(text: &str) -> Option<usize>
    ensures some { IfSome result (λ place. RefusesHotText (chars text.now) (HotTextFault.BadWidth place)) }
    ensures none { IfNone result (All IsNarrow (chars text.now)) }
{
    let mut place = 0;
    for ch in text.chars() {
        if !is_narrow(ch) {
            return Some(place);
        }
        place += 1;
    }
    None
}

// Appends a text, as far as there is room.
fn push_all(items: &mut ArrayVec<char, 120>, text: &str) -> Result<(), HotTextFault>
    requires { length items.old.items ≤ 120 }
    ensures fits { OnOk result (length items.new.items ≤ 120) }
    ensures ok { OnOk result (items.new.items ≡ items.old.items ++ chars text.now) }
    ensures fault { IfErr result (λ fault. (fault ≡ HotTextFault.TooLong) × (120 < length items.old.items + length (chars text.now))) }
{
    for ch in text.chars() {
        push(items, ch)?;
    }
    Ok(())
}

fn push(items: &mut ArrayVec<char, 120>, ch: char) -> Result<(), HotTextFault>
    ensures fits { OnOk result (length items.new.items ≤ 120) }
    ensures ok { OnOk result (items.new.items ≡ items.old.items ++ ch ∷ []) }
    ensures fault { IfErr result (λ fault. (fault ≡ HotTextFault.TooLong) × (length items.old.items ≡ 120)) }
{
    if items.is_full() {
        return Err(HotTextFault::TooLong);
    }
    items.push(ch);
    Ok(())
}

// A text at its mark, if it has one.
enum Parts<'a> {
    Plain,
    Marked {
        before: &'a str,
        letter: char,
        after: &'a str,
    },
}

// The parts of a text whose use of `~` is right.
fn take_apart(text: &str) -> Option<Parts<'_>>
    ensures some { IfSome result (λ parts. IsApart (chars text.now) parts) }
    ensures none { IfNone result (IsUnmarkable (chars text.now)) }
{
    let Some((before, rest)) = split_tilde(text) else {
        return Some(Parts::Plain);
    };
    let (letter, rest) = next_char(rest)?;
    let (end, after) = next_char(rest)?;
    if letter.is_ascii_alphanumeric() && end == '~' && split_tilde(after).is_none() {
        Some(Parts::Marked {
            before,
            letter,
            after,
        })
    } else {
        None
    }
}
