//! The worked examples of the domains of inputs.

use crate::texts::characters;
use std::alloc::Global;
use tv_valid::{Chars, Domain, DomainFault, DomainSpec, InputSpec, Text};

/// The domain of the numbers from the first of the bounds to the second.
fn range(
    alloc: Global,
    bounds: (i32, i32),
    max: i32,
    optional: bool,
) -> Result<Domain, DomainFault> {
    let (least, greatest) = bounds;
    let spec = InputSpec {
        max,
        domain: DomainSpec::Range { least, greatest },
        optional,
        fill: false,
    };
    Domain::new(alloc, &spec)
}

fn any(alloc: Global, max: i32, optional: bool) -> Result<Domain, DomainFault> {
    let spec = InputSpec {
        max,
        domain: DomainSpec::Any,
        optional,
        fill: false,
    };
    Domain::new(alloc, &spec)
}

fn picture(alloc: Global, picture: &str, max: i32, fill: bool) -> Result<Domain, DomainFault> {
    let spec = InputSpec {
        max,
        domain: DomainSpec::Picture(Chars::from_vec(characters(alloc, picture)?)),
        optional: false,
        fill,
    };
    Domain::new(alloc, &spec)
}

/// Whether the domain accepts the text and whether it is viable, if it is short enough.
fn judged(domain: &Domain, text: &[char]) -> Option<(bool, bool)> {
    let text = Text::from_chars(text)?;
    Some((domain.accepts(&text), domain.viable(&text)))
}

/// The text after the keys were typed at its end.
fn typed(domain: &Domain, keys: &[char]) -> Text {
    let mut text = Text::new();
    for key in keys {
        if let Some(longer) = domain.typed(&text, text.len(), *key) {
            text = longer;
        }
    }
    text
}

fn holds(text: &Text, characters: &[char]) -> bool {
    text.as_slice() == characters
}

const RANGE_TEXTS: [(&str, bool, bool); 6] = [
    ("-005", true, true),
    ("-0", true, true),
    ("+", false, true),
    ("6", false, true),
    ("", false, true),
    ("x", false, false),
];

#[test]
fn range_texts(rt: HostRuntime) {
    let alloc = rt.alloc();
    let small = range(alloc, (-5, 5), 120, false).expect(&rt, "a domain");
    for &(written, accepted, viable) in &RANGE_TEXTS {
        let text = characters(alloc, written).expect(&rt, "memory");
        assert!(rt;
            judged(&small, &text) == Some((accepted, viable)),
            "{written}"
        );
    }
    let mut long = ['0'; 120];
    long[119] = '5';
    assert!(rt; judged(&small, &long) == Some((true, true)));
    let optional = range(alloc, (-5, 5), 120, true).expect(&rt, "a domain");
    assert!(rt; judged(&optional, &[]) == Some((true, true)));
}

#[test]
fn refused_domains(rt: HostRuntime) {
    let alloc = rt.alloc();
    for (fault, want) in [
        (range(alloc, (100, 200), 2, false).err(), DomainFault::Empty),
        (any(alloc, -1, true).err(), DomainFault::Empty),
        (
            picture(alloc, "[a", 9, false).err(),
            DomainFault::BadPicture(2),
        ),
    ] {
        assert!(rt; fault == Some(want), "{want}");
    }
}

const TYPED: [(&str, i32, bool, &str, &str); 3] = [
    ("*3#[-*2&]", 8, false, "123-abc", "123-AB"),
    ("##/##", 5, true, "1234", "12/34"),
    ("##/##", 5, true, "12/34", "12/34"),
];

#[test]
fn typed_texts(rt: HostRuntime) {
    let alloc = rt.alloc();
    for &(written, max, fill, keys, want) in &TYPED {
        let domain = picture(alloc, written, max, fill).expect(&rt, "a domain");
        let keys = characters(alloc, keys).expect(&rt, "memory");
        let want = characters(alloc, want).expect(&rt, "memory");
        assert!(rt; holds(&typed(&domain, &keys), &want), "{written} {keys:?}");
    }
    let four = any(alloc, 4, false).expect(&rt, "a domain");
    let keys = ['a', 'b', 'X', 'Y', 'Z'];
    assert!(rt; holds(&typed(&four, &keys), &['a', 'b', 'X', 'Y']));
}
