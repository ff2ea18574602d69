//! The first word of a line that doesn't fit its form.

use crate::forms::{Form, Rest};
use tv_declarations::{command, key};
use tv_words::Word;

/// What a word of a line has to be.
#[derive(Clone, Copy, Debug, PartialEq, Eq)]
pub enum Want {
    Num,
    Name,
    Str,
    Marked,
    Command,
    Key,
    Letter,
    /// This word.
    This(&'static str),
    /// One of some words.
    Domain,
    /// No word.
    Nothing,
}

/// A word that doesn't fit, by its place in the line, the first one being 0.
#[derive(Clone, Copy, Debug, PartialEq, Eq)]
pub struct Wrong {
    pub at: usize,
    pub want: Want,
}

/// The words of a line, as far as they are looked at.
#[derive(Drop)]
pub struct Cursor<'a> {
    words: &'a [Word],
    at: usize,
}

// Whether `~` stands in the text twice around a letter or digit, or not at all.
fn is_marked(text: &[char]) -> bool {
    let mut count = 0_usize;
    let mut open = None;
    for (at, ch) in text.iter().enumerate() {
        if *ch == '~' {
            count = count.saturating_add(1);
            if count == 1 {
                open = Some(at);
            } else if count > 2 || open != at.checked_sub(2) {
                return false;
            }
        } else if count == 1 && !ch.is_ascii_alphanumeric() {
            return false;
        }
    }
    count != 1
}

fn is_quoted_mark(word: &Word) -> bool {
    match word.text() {
        Some(text) => is_marked(text.as_slice()),
        None => false,
    }
}

// Whether it is one digit or one letter from A to Z.
fn is_letter(word: &Word) -> bool {
    match word {
        Word::Bare(text) => match text.as_slice() {
            [ch] => ch.is_ascii_uppercase() || ch.is_ascii_digit(),
            _ => false,
        },
        Word::Quoted(_) => false,
    }
}

fn fits(word: &Word, want: Want) -> bool {
    match want {
        Want::Num => word.number().is_some(),
        Want::Name => word.name().is_some(),
        Want::Str => word.text().is_some(),
        Want::Marked => is_quoted_mark(word),
        Want::Command => command(word).is_some(),
        Want::Key => key(word).is_some(),
        Want::Letter => is_letter(word),
        Want::This(text) => word.is(text.as_bytes()),
        Want::Domain | Want::Nothing => false,
    }
}

impl<'a> Cursor<'a> {
    /// Begins behind the keyword.
    pub fn new(words: &'a [Word]) -> Cursor<'a> {
        Cursor { words, at: 1 }
    }

    fn wrong(&self, want: Want) -> Result<(), Wrong> {
        Err(Wrong { at: self.at, want })
    }

    // Whether the next word is so.
    fn sees(&self, want: Want) -> bool {
        match self.words.get(self.at) {
            Some(word) => fits(word, want),
            None => false,
        }
    }

    fn go_on(&mut self) {
        self.at = self.at.saturating_add(1);
    }

    // Takes the next word, which has to be so.
    fn take(&mut self, want: Want) -> Result<(), Wrong> {
        if !self.sees(want) {
            return self.wrong(want);
        }
        self.go_on();
        Ok(())
    }

    // Takes the next words, which have to be so.
    fn all(&mut self, wants: &[Want]) -> Result<(), Wrong> {
        for want in wants {
            self.take(*want)?;
        }
        Ok(())
    }

    // Takes the next word if it is so.
    fn skip(&mut self, want: Want) -> bool {
        let sees = self.sees(want);
        if sees {
            self.go_on();
        }
        sees
    }

    // Takes each of these words that comes next, in their order.
    fn skip_each(&mut self, wants: &[Want]) {
        for want in wants {
            self.skip(*want);
        }
    }

    // Takes words while they are so: those that are left are fewer each time.
    fn skip_all(&mut self, want: Want) {
        for _ in self.at..self.words.len() {
            if !self.skip(want) {
                return;
            }
        }
    }

    // There has to be no further word.
    fn end(&self) -> Result<(), Wrong> {
        if self.at < self.words.len() {
            self.wrong(Want::Nothing)
        } else {
            Ok(())
        }
    }
}

const RULE: [Want; 3] = [Want::This("when"), Want::Name, Want::Num];

const CHOSEN: [Want; 2] = [Want::This("start"), Want::Num];

// The words that may end the line of an input, of a button and of a dialog.
const OPTIONS: [Want; 3] = [
    Want::This("validate"),
    Want::This("optional"),
    Want::This("fill"),
];

const BUTTON: [Want; 2] = [Want::This("default"), Want::This("grab")];

const ENDS: [Want; 4] = [
    Want::This("ok"),
    Want::This("cancel"),
    Want::This("yes"),
    Want::This("no"),
];

// An input's domain.
fn domain(cursor: &mut Cursor) -> Result<(), Wrong> {
    if cursor.skip(Want::This("any")) {
        return Ok(());
    }
    if cursor.skip(Want::This("range")) {
        return cursor.all(&[Want::Num, Want::Num]);
    }
    if cursor.skip(Want::This("filter")) {
        return cursor.take(Want::Str);
    }
    if cursor.skip(Want::This("picture")) {
        return cursor.take(Want::Str);
    }
    cursor.wrong(Want::Domain)
}

// An input's domain and what follows it.
fn asked(cursor: &mut Cursor) -> Result<(), Wrong> {
    domain(cursor)?;
    cursor.take(Want::Str)?;
    cursor.skip_each(&OPTIONS);
    Ok(())
}

// What follows a dialog's title.
fn ends(cursor: &mut Cursor) -> Result<(), Wrong> {
    if cursor.skip(Want::This("opens")) {
        cursor.take(Want::Num)?;
    }
    cursor.take(Want::This("ends"))?;
    cursor.skip_each(&ENDS);
    Ok(())
}

// The further items of check boxes, and what follows them.
fn marked(cursor: &mut Cursor) -> Result<(), Wrong> {
    cursor.skip_all(Want::Marked);
    if cursor.skip(Want::This("start")) {
        cursor.take(Want::Num)?;
        cursor.skip_all(Want::Num);
    }
    Ok(())
}

// The further items of radio buttons or of a list, and the one that is chosen.
fn chosen(cursor: &mut Cursor, item: Want) -> Result<(), Wrong> {
    cursor.skip_all(item);
    cursor.all(&CHOSEN)
}

// What follows the name in a certificate's line of a letter.
fn owner(cursor: &mut Cursor) -> Result<(), Wrong> {
    cursor.skip(Want::Num);
    if cursor.sees(Want::This("when")) {
        cursor.all(&RULE)?;
    }
    Ok(())
}

// The rest of a line after its fixed words.
fn rest(cursor: &mut Cursor, rest: Rest) -> Result<(), Wrong> {
    match rest {
        Rest::Nothing => Ok(()),
        Rest::Button => {
            cursor.skip_each(&BUTTON);
            Ok(())
        }
        Rest::Domain => asked(cursor),
        Rest::Ends => ends(cursor),
        Rest::Checks => marked(cursor),
        Rest::Radios => chosen(cursor, Want::Marked),
        Rest::List => chosen(cursor, Want::Str),
        Rest::Rule => cursor.all(&RULE),
        Rest::Owner => owner(cursor),
    }
}

/// Finds the first word of a line that doesn't fit its form.
pub fn wrong_word(form: &Form, words: &[Word]) -> Option<Wrong> {
    let mut cursor = Cursor::new(words);
    judge(&mut cursor, form).err()
}

fn judge(cursor: &mut Cursor, form: &Form) -> Result<(), Wrong> {
    cursor.all(form.words)?;
    rest(cursor, form.rest)?;
    cursor.end()
}
