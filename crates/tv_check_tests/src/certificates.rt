//! Certificates as they are read and printed, and the first fault for which a description has none.

use std::alloc::Global;
use std::test::Fail;
use tv_test_support::certificates::{
    CANCEL_CERTIFICATE, COLOUR_CERTIFICATE, NO_BLOCKS, ORDER_CERTIFICATE,
};
use tv_test_support::descriptions::HEAD;
use tv_test_support::{Certifying, PrintingCertificate, Question, expect_answer, expect_answers};

// The first fault is that of the least number, and of the least line among these.
const FAULTY: &str = r#"dialog d 2 2 36 11 "" ends ok cancel
button c 1 1 3 "~C~" cancel
button c 1 2 10 "~C~" cancel
button c 1 3 10 "" cancel
end
=> faulty F1 line 5
dialog d 2 2 36 11 "" ends ok
button c 1 1 3 "" cancel
end
=> faulty F10 line 3
"#;

#[test]
fn first_faults(rt: HostRuntime) -> Result<(), Fail> {
    expect_answers(&Certifying, rt.alloc(), HEAD, FAULTY, "")
}

// Certificates of several blocks, with comments and spaces, and with any numbers.
const READ: &str = "# of no dialog

tvcert  1\u{20}
=> tvcert 1
tvcert  2
=> tvcert 2
tvcert 1
  dialog a

tab   a
# b
tab a
key 0 a
key 9   b -5
key A a 2147483647
key Z tab
end
dialog a
tab dialog
end
=> tvcert 1
=> dialog a
=> tab a
=> tab a
=> key 0 a
=> key 9 b -5
=> key A a 2147483647
=> key Z tab
=> end
=> dialog a
=> tab dialog
=> end
";

#[test]
fn read_and_printed(rt: HostRuntime) -> Result<(), Fail> {
    expect_answers(&PrintingCertificate, rt.alloc(), "", READ, "")
}

// The certificate of the description with one button, where that is of version 2.
const CANCEL_CERTIFICATE_TWO: &str = "tvcert 2
dialog a
tab c
key C c
end
";

// Key lines of version 2: with an item and without, each with `when` and without, of names that are keywords too. A letter may
// have several of them.
const KEYS: &str = "tvcert 2
dialog a
tab when
key 9 when
key 9 when
key A c 1
key A when when when 1
key A when 1 when key -1
key B c when r 2147483647
end
";

#[test]
fn canonical_certificates(rt: HostRuntime) -> Result<(), Fail> {
    for text in [
        CANCEL_CERTIFICATE,
        ORDER_CERTIFICATE,
        COLOUR_CERTIFICATE,
        NO_BLOCKS,
        CANCEL_CERTIFICATE_TWO,
        "tvcert 2\n",
        KEYS,
    ] {
        expect_answer(&PrintingCertificate, rt.alloc(), text, text)?;
    }
    Ok(())
}

#[test]
fn last_line_end(rt: HostRuntime) -> Result<(), Fail> {
    let text = ORDER_CERTIFICATE
        .strip_suffix("\n")
        .ok_or("no last line end")?;
    expect_answer(&PrintingCertificate, rt.alloc(), text, ORDER_CERTIFICATE)
}

// A certificate whose second line is a comment of so many characters.
fn expect_comment(alloc: Global, length: usize, wanted: &str) -> Result<(), Fail> {
    let comment = "#".repeat(alloc, length)?;
    let text = format!(in alloc; "tvcert 1\n{comment}")?;
    expect_answer(&PrintingCertificate, alloc, &text, wanted)
}

#[test]
fn lengths_of_certificates(rt: HostRuntime) -> Result<(), Fail> {
    expect_comment(rt.alloc(), 262_135, NO_BLOCKS)?;
    expect_comment(rt.alloc(), 262_136, "too long\n")
}

#[test]
fn bytes_that_are_no_text(rt: HostRuntime) -> Result<(), Fail> {
    let found = PrintingCertificate.answer(rt.alloc(), b"tvcert 1\n# \xff\n")?;
    assert_eq!(rt; found.as_str(), "syntax at line 2\n");
    Ok(())
}
