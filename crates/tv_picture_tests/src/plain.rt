//! What a picture allows, by trying each way to divide the text.

ghost use Rattle.std.specs.Prelude.{◌≡◌, ◌↔◌, IsTrue};
ghost use Rattle.tv_picture.specs.Pattern.{IsMember, Begins, one, sequence, many, times};
ghost use Rattle.tv_picture_tests.specs.Trees.{mark_of, pattern_of};

use crate::tree::{Mark, Tree};

/// Whether the text is a member of the picture.
#[cycle(member)]
pub fn is_member(tree: &Tree, text: &[char]) -> bool
    ensures { IsTrue result ↔ IsMember (pattern_of tree.now) text.now }
{
    match tree {
        Tree::Empty => text.is_empty(),
        Tree::One(mark) => is_one(*mark, text),
        Tree::Sequence(first, second) => is_sequence(first, second, text),
        Tree::Either(first, second) => is_member(first, text) || is_member(second, text),
        Tree::Optional(part) => text.is_empty() || is_member(part, text),
        Tree::Group(part) => is_member(part, text),
        Tree::Many(part) => is_many(part, text),
        Tree::Times(count, part) => is_times(*count, part, text),
    }
}

fn is_one(mark: Mark, text: &[char]) -> bool
    ensures { IsTrue result ↔ IsMember (one (mark_of mark)) text.now }
{
    match text {
        [ch] => mark.allows(*ch),
        _ => false,
    }
}

#[cycle(member)]
fn is_sequence(first: &Tree, second: &Tree, text: &[char]) -> bool
    ensures { IsTrue result ↔ IsMember (sequence (pattern_of first.now) (pattern_of second.now)) text.now }
{
    for at in 0..text.len() + 1 {
        if is_member(first, &text[..at]) && is_member(second, &text[at..]) {
            return true;
        }
    }
    false
}

#[cycle(member)]
fn is_many(part: &Tree, text: &[char]) -> bool
    ensures { IsTrue result ↔ IsMember (many (pattern_of part.now)) text.now }
{
    for at in 1..text.len() + 1 {
        if is_member(part, &text[..at]) && is_many(part, &text[at..]) {
            return true;
        }
    }
    text.is_empty()
}

#[cycle(member)]
fn is_times(count: u8, part: &Tree, text: &[char]) -> bool
    ensures { IsTrue result ↔ IsMember (times count (pattern_of part.now)) text.now }
{
    if count == 0 {
        return text.is_empty();
    }
    for at in 0..text.len() + 1 {
        if is_member(part, &text[..at]) && is_times(count - 1, part, &text[at..]) {
            return true;
        }
    }
    false
}

/// Whether some member of the picture begins with the text.
#[cycle(beginning)]
pub fn begins(tree: &Tree, text: &[char]) -> bool
    ensures { IsTrue result ↔ Begins (pattern_of tree.now) text.now }
{
    match tree {
        Tree::Empty => text.is_empty(),
        Tree::One(mark) => text.is_empty() || is_one(*mark, text),
        Tree::Sequence(first, second) => begins_sequence(first, second, text),
        Tree::Either(first, second) => begins(first, text) || begins(second, text),
        Tree::Optional(part) => begins(part, text),
        Tree::Group(part) => begins(part, text),
        Tree::Many(part) => begins_many(part, text),
        Tree::Times(count, part) => begins_times(*count, part, text),
    }
}

#[cycle(beginning)]
fn begins_sequence(first: &Tree, second: &Tree, text: &[char]) -> bool
    ensures { IsTrue result ↔ Begins (sequence (pattern_of first.now) (pattern_of second.now)) text.now }
{
    for at in 0..text.len() + 1 {
        if is_member(first, &text[..at]) && begins(second, &text[at..]) {
            return true;
        }
    }
    begins(first, text)
}

#[cycle(beginning)]
fn begins_many(part: &Tree, text: &[char]) -> bool
    ensures { IsTrue result ↔ Begins (many (pattern_of part.now)) text.now }
{
    for at in 1..text.len() + 1 {
        if is_member(part, &text[..at]) && begins_many(part, &text[at..]) {
            return true;
        }
    }
    begins(part, text)
}

#[cycle(beginning)]
fn begins_times(count: u8, part: &Tree, text: &[char]) -> bool
    ensures { IsTrue result ↔ Begins (times count (pattern_of part.now)) text.now }
{
    if count == 0 {
        return text.is_empty();
    }
    for at in 0..text.len() + 1 {
        if is_member(part, &text[..at]) && begins_times(count - 1, part, &text[at..]) {
            return true;
        }
    }
    begins(part, text)
}
