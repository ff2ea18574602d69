//! The library's answers for short pictures, compared with the plain program's.

use crate::grammar::{Made, PICTURE, pictures};
use crate::plain::{begins, is_member};
use crate::texts::{longer, texts};
use crate::tree::Tree;
use std::alloc::{AllocError, Global};
use tv_picture::{Picture, Status};

/// What the texts are typed with, which have at most 4 characters.
static TYPED: [char; 3] = ['a', '2', '#'];

fn expected_status(tree: &Tree, text: &[char]) -> Status {
    if is_member(tree, text) {
        Status::Complete
    } else if begins(tree, text) {
        Status::Viable
    } else {
        Status::Error
    }
}

/// The only character that may follow a viable text.
///
/// What may follow is a digit wherever `#` stands, so it is enough to try two of them, and else a character of the picture.
fn expected_next(alloc: Global, tree: &Tree, text: &[char]) -> Result<Option<char>, AllocError> {
    if expected_status(tree, text) != Status::Viable {
        return Ok(None);
    }
    let mut next = None;
    for ch in &['7', '#', 'a', '*', '[', ']', '{', '}', ',', '2', ';'] {
        if begins(tree, longer(alloc, text, *ch)?.as_slice()) {
            if next.is_some() {
                return Ok(None);
            }
            next = Some(*ch);
        }
    }
    Ok(next)
}

/// Whether the library answers for the text as the plain program does.
fn agrees(
    alloc: Global,
    made: &Made,
    picture: &Picture,
    text: &[char],
) -> Result<bool, AllocError> {
    Ok(
        text.len() <= 120
            && picture.status(text) == expected_status(&made.tree, text)
            && picture.next_literal(text) == expected_next(alloc, &made.tree, text)?,
    )
}

#[test]
fn short_pictures_answer(rt: HostRuntime) {
    let alloc = rt.alloc();
    let pictures = pictures(alloc).expect(&rt, "memory");
    let typed = texts(alloc, &TYPED, 4).expect(&rt, "memory");
    assert!(rt; pictures.len() == 1615);
    for made in &pictures {
        let written = made.text.as_slice();
        let picture = Picture::from_chars(alloc, written).expect(&rt, "a picture");
        for text in &typed {
            let agreed = agrees(alloc, made, &picture, text.as_slice());
            assert!(rt; agreed == Ok(true), "{written:?} {text:?}");
        }
    }
}

/// The length of the shortest member, which has at most 4 characters or is one character 22 times.
///
/// The characters of the picture and a digit for `#` are enough for it.
fn expected_shortest(alloc: Global, made: &Made) -> Result<Option<usize>, AllocError> {
    let letters = longer(alloc, made.text.as_slice(), '7')?;
    for text in &texts(alloc, letters.as_slice(), PICTURE)? {
        if is_member(&made.tree, text.as_slice()) {
            return Ok(Some(text.len()));
        }
    }
    for ch in &letters {
        if is_member(&made.tree, &[*ch; 22]) {
            return Ok(Some(22));
        }
    }
    Ok(None)
}

#[test]
fn short_pictures_are_so_long(rt: HostRuntime) {
    let alloc = rt.alloc();
    for made in &pictures(alloc).expect(&rt, "memory") {
        let written = made.text.as_slice();
        let picture = Picture::from_chars(alloc, written).expect(&rt, "a picture");
        let shortest = expected_shortest(alloc, made);
        assert!(rt;
            shortest == Ok(Some(picture.shortest() as usize)),
            "{written:?}"
        );
    }
}
