//! Large pictures and sets of characters: where there is memory, nothing is refused for the want of it.

use crate::texts::characters;
use std::alloc::{AllocError, Global};
use std::test::Fail;
use tv_picture::{Picture, PictureFault};
use tv_valid::{Chars, Domain, DomainFault, DomainSpec, InputSpec};

/// The length of the shortest member of a picture, which is read as a text and as characters.
fn shortest_of(alloc: Global, picture: &str) -> Result<(u32, u32), PictureFault> {
    let chars = characters(alloc, picture)?;
    let of_text = Picture::parse(alloc, picture)?.shortest();
    let of_chars = Picture::from_chars(alloc, &chars)?.shortest();
    Ok((of_text, of_chars))
}

const LARGE: [(&str, usize, u32); 9] = [
    ("#", 120, 120),
    ("*@", 60, 0),
    ("[a]", 40, 0),
    ("{a,aa}", 20, 20),
    ("*99{*@}", 17, 0),
    ("*120{*120{*120[#]}}", 6, 0),
    ("*{#,a}", 10_000, 0),
    ("ab,", 10_000, 0),
    ("{#}", 10_000, 121),
];

#[test]
fn large_pictures(rt: HostRuntime) -> Result<(), Fail> {
    let alloc = rt.alloc();
    for &(part, times, shortest) in &LARGE {
        let picture = part.repeat(alloc, times)?;
        let found = shortest_of(alloc, &picture)?;
        assert_eq!(rt; found, (shortest, shortest), "{part}");
    }
    Ok(())
}

/// Whether a domain is made of so many characters at most, and of what asks for it a copy that is the same.
fn is_made(alloc: Global, domain: DomainSpec) -> Result<bool, DomainFault> {
    let spec = InputSpec {
        max: 120,
        domain,
        optional: false,
        fill: true,
    };
    Domain::new(alloc, &spec)?;
    Ok(spec.copy(alloc)?.is(&spec))
}

fn chars(alloc: Global, part: &str, times: usize) -> Result<Chars, AllocError> {
    let text = part.repeat(alloc, times)?;
    Ok(Chars::from_vec(characters(alloc, &text)?))
}

#[test]
fn large_domains(rt: HostRuntime) -> Result<(), Fail> {
    let alloc = rt.alloc();
    for (part, times) in [("#", 120), ("*@", 60), ("{a,aa}", 20), ("*{#,a}", 10_000)] {
        let characters = chars(alloc, part, times)?;
        assert!(rt; is_made(alloc, DomainSpec::Filter(characters))?, "{part}");
        let picture = chars(alloc, part, times)?;
        assert!(rt; is_made(alloc, DomainSpec::Picture(picture))?, "{part}");
    }
    Ok(())
}
