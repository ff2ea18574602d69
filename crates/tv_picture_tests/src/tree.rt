//! Pictures as trees.

ghost use Rattle.std.specs.Prelude.{◌≡◌, ◌↔◌, ◌++◌, [], ◌∷◌, IsTrue, OnOk};
ghost use Rattle.tv_picture.specs.Pattern.{Allows};
ghost use Rattle.tv_picture.specs.Spelling.{spelled, mark_text, count_text};
ghost use Rattle.tv_picture_tests.specs.Trees.{mark_of, pattern_of};

use std::alloc::AllocError;

/// What one character of a text may be.
#[derive(Clone, Copy, Debug, PartialEq, Eq)]
pub enum Mark {
    Digit,
    Letter,
    Capital,
    Any,
    NotLower,
    Literal(char),
    Quoted(char),
}

/// A picture by its parts.
#[derive(Clone, Drop)]
pub enum Tree {
    Empty,
    One(Mark),
    Sequence(Box<Tree>, Box<Tree>),
    Either(Box<Tree>, Box<Tree>),
    Optional(Box<Tree>),
    Group(Box<Tree>),
    Many(Box<Tree>),
    Times(u8, Box<Tree>),
}

impl Mark {
    /// Whether it stands for the character.
    pub fn allows(self, ch: char) -> bool
        ensures { IsTrue result ↔ Allows (mark_of self) ch }
    {
        match self {
            Mark::Digit => matches!(ch, '0'..='9'),
            Mark::Letter => matches!(ch, 'A'..='Z' | 'a'..='z'),
            Mark::Capital => matches!(ch, 'A'..='Z'),
            Mark::Any => true,
            Mark::NotLower => !matches!(ch, 'a'..='z'),
            Mark::Literal(own) | Mark::Quoted(own) => ch == own,
        }
    }
}

/// Writes the picture after the text.
pub fn spell(tree: &Tree, text: &mut Vec<char>) -> Result<(), AllocError>
    ensures { OnOk result (text.new.items ≡ text.old.items ++ spelled (pattern_of tree.now)) }
{
    match tree {
        Tree::Empty => Ok(()),
        Tree::One(mark) => spell_mark(*mark, text),
        Tree::Sequence(first, second) => {
            spell(first, text)?;
            spell(second, text)
        }
        Tree::Either(first, second) => {
            spell(first, text)?;
            text.push(',')?;
            spell(second, text)
        }
        Tree::Optional(part) => {
            text.push('[')?;
            spell(part, text)?;
            put(']', text)
        }
        Tree::Group(part) => {
            text.push('{')?;
            spell(part, text)?;
            put('}', text)
        }
        Tree::Many(part) => {
            text.push('*')?;
            spell(part, text)
        }
        Tree::Times(count, part) => {
            text.push('*')?;
            spell_count(*count, text)?;
            spell(part, text)
        }
    }
}

fn put(ch: char, text: &mut Vec<char>) -> Result<(), AllocError>
    ensures { OnOk result (text.new.items ≡ text.old.items ++ ch ∷ []) }
{
    text.push(ch)?;
    Ok(())
}

fn spell_mark(mark: Mark, text: &mut Vec<char>) -> Result<(), AllocError>
    ensures { OnOk result (text.new.items ≡ text.old.items ++ mark_text (mark_of mark)) }
{
    match mark {
        Mark::Digit => put('#', text),
        Mark::Letter => put('?', text),
        Mark::Capital => put('&', text),
        Mark::Any => put('@', text),
        Mark::NotLower => put('!', text),
        Mark::Literal(own) => put(own, text),
        Mark::Quoted(own) => {
            text.push(';')?;
            put(own, text)
        }
    }
}

fn spell_count(count: u8, text: &mut Vec<char>) -> Result<(), AllocError>
    ensures { OnOk result (text.new.items ≡ text.old.items ++ count_text count) }
{
    if count >= 100 {
        text.push(char::from(48 + count / 100))?;
    }
    if count >= 10 {
        text.push(char::from(48 + count / 10 % 10))?;
    }
    put(char::from(48 + count % 10), text)
}
