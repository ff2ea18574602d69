//! What `accept` hands back where it refuses: a description that can be accepted later.

use std::alloc::Global;
use std::test::Fail;
use tv_test_support::certificates::{NO_BLOCKS, ORDER_CERTIFICATE};
use tv_test_support::descriptions::ORDER;
use tv_test_support::{AcceptingLater, expect_answer};

#[test]
fn accepted_after_a_refusal(rt: HostRuntime) -> Result<(), Fail> {
    let later = AcceptingLater {
        desc: ORDER,
        first: NO_BLOCKS,
    };
    expect_answer(&later, rt.alloc(), ORDER_CERTIFICATE, "tab 1\naccepted\n")
}

// Fails unless the order form is refused so with its certificate, edited, and then accepted with its own.
fn expect_later(alloc: Global, old: &str, new: &str, refusal: &str) -> Result<(), Fail> {
    let first = ORDER_CERTIFICATE.replace(alloc, old, new)?;
    let later = AcceptingLater {
        desc: ORDER,
        first: &first,
    };
    let wanted = format!(in alloc; "{refusal}\naccepted\n")?;
    expect_answer(&later, alloc, ORDER_CERTIFICATE, &wanted)
}

const EDITED: [(&str, &str, &str); 5] = [
    ("end\n", "end\ndialog z\ntab a\nend\n", "tab 7"),
    ("key N opts 2", "key N opts 1", "key N"),
    ("key A amount", "key A amount 1", "key A"),
    ("key O ok\n", "", "key O"),
    ("tvcert 1", "tvcert 2", "version"),
];

#[test]
fn accepted_after_edited_certificates(rt: HostRuntime) -> Result<(), Fail> {
    for &(old, new, refusal) in &EDITED {
        expect_later(rt.alloc(), old, new, refusal)?;
    }
    Ok(())
}
