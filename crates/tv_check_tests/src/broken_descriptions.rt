//! Texts that no file of cases has: without a last line end, and with a byte that is no text.

use std::alloc::{AllocError, Global};
use std::test::Fail;
use tv_test_support::descriptions::ORDER;
use tv_test_support::{Findings, Question, expect_finding};

#[test]
fn missing_line_ends(rt: HostRuntime) -> Result<(), Fail> {
    let text = ORDER.strip_suffix("\n").ok_or("no last line end")?;
    expect_finding(rt.alloc(), text, "sound")?;
    expect_finding(rt.alloc(), "tvd 7", "unknown version")
}

#[test]
fn byte_that_is_no_text(rt: HostRuntime) -> Result<(), Fail> {
    let (before, after) = ORDER.split_once("checks").ok_or("no check boxes")?;
    let text = spoiled(rt.alloc(), before, after)?;
    let found = Findings.answer(rt.alloc(), text.as_slice())?;
    assert_eq!(rt; found.as_str(), "syntax at line 9\n");
    Ok(())
}

// The order form with a byte before its check boxes that no text has.
fn spoiled(alloc: Global, before: &str, after: &str) -> Result<Vec<u8>, AllocError> {
    let mut text = Vec::from_slice(alloc, before.as_bytes())?;
    text.push(0xff)?;
    text.extend_from_slice(b"checks")?;
    text.extend_from_slice(after.as_bytes())?;
    Ok(text)
}
