//! The worked examples of pictures.

use crate::texts::characters;
use std::alloc::Global;
use tv_picture::{Picture, PictureFault, Status};

/// The picture's status of the text, if the picture is right and there is memory.
fn status_of(alloc: Global, picture: &str, text: &[char]) -> Option<Status> {
    if text.len() > 120 {
        return None;
    }
    Some(Picture::parse(alloc, picture).ok()?.status(text))
}

/// The same of what must follow the text.
fn next_of(alloc: Global, picture: &str, text: &[char]) -> Option<Option<char>> {
    if text.len() > 120 {
        return None;
    }
    Some(Picture::parse(alloc, picture).ok()?.next_literal(text))
}

/// The same of the length of the shortest member.
fn shortest_of(alloc: Global, picture: &str) -> Option<u32> {
    Some(Picture::parse(alloc, picture).ok()?.shortest())
}

fn fault_of(alloc: Global, picture: &str) -> Option<PictureFault> {
    Picture::parse(alloc, picture).err()
}

const STATUSES: [(&str, &str, Status); 15] = [
    ("##/##", "12/34", Status::Complete),
    ("{ab,ac}", "a", Status::Viable),
    ("*2{ab}", "abab", Status::Complete),
    ("*[a]", "", Status::Complete),
    ("*[a]", "aaa", Status::Complete),
    ("a,", "", Status::Complete),
    ("a,", "a", Status::Complete),
    // A letter where a digit has to stand.
    ("*3#[-*2&]", "123", Status::Complete),
    ("*3#[-*2&]", "123-A", Status::Viable),
    ("*3#[-*2&]", "12A", Status::Error),
    // What is optional is left out where the rest asks for it.
    ("[ab]a", "a", Status::Complete),
    ("[ab]a", "aba", Status::Complete),
    ("[ab]a", "", Status::Viable),
    ("[ab]a", "ab", Status::Viable),
    ("[ab]a", "b", Status::Error),
];

#[test]
fn statuses(rt: HostRuntime) {
    let alloc = rt.alloc();
    for &(picture, text, want) in &STATUSES {
        let typed = characters(alloc, text).expect(&rt, "memory");
        let status = status_of(alloc, picture, &typed);
        assert!(rt; status == Some(want), "{picture} {text}");
    }
}

const NEXT_LITERALS: [(&str, &str, Option<char>); 7] = [
    ("##/##", "1", None),
    ("##/##", "12", Some('/')),
    ("##/##", "12/34", None),
    ("{ab,ac}", "", Some('a')),
    ("{ab,ac}", "a", None),
    ("*2{ab}", "a", Some('b')),
    ("*2{ab}", "ab", Some('a')),
];

#[test]
fn next_literals(rt: HostRuntime) {
    let alloc = rt.alloc();
    for &(picture, text, want) in &NEXT_LITERALS {
        let typed = characters(alloc, text).expect(&rt, "memory");
        let next = next_of(alloc, picture, &typed);
        assert!(rt; next == Some(want), "{picture} {text}");
    }
}

const SHORTEST: [(&str, u32); 5] = [
    ("##/##", 5),
    ("*2{ab}", 4),
    ("*[a]", 0),
    ("*2{*120#}", 121),
    ("*3#[-*2&]", 3),
];

#[test]
fn shortest_members(rt: HostRuntime) {
    for &(picture, want) in &SHORTEST {
        let shortest = shortest_of(rt.alloc(), picture);
        assert!(rt; shortest == Some(want), "{picture}");
    }
}

#[test]
fn many_digits(rt: HostRuntime) {
    let text = ['7'; 120];
    let status = status_of(rt.alloc(), "*2{*120#}", &text);
    assert!(rt; status == Some(Status::Viable));
    assert!(rt; next_of(rt.alloc(), "*2{*120#}", &text) == Some(None));
}

const REFUSED: [(&str, usize); 8] = [
    ("[a", 2),
    ("*0#", 1),
    ("]", 0),
    ("*121#", 3),
    ("[[[[[[[[[", 8),
    ("[a}", 2),
    ("a;", 2),
    ("**", 1),
];

#[test]
fn refused_pictures(rt: HostRuntime) {
    for &(picture, want) in &REFUSED {
        let fault = fault_of(rt.alloc(), picture);
        assert!(rt; fault == Some(PictureFault::Syntax(want)), "{picture}");
    }
}
