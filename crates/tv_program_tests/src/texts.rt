//! Texts that are read as descriptions: their last line ends, their bytes and lengths, and what is read of them.

use std::alloc::Global;
use std::test::Fail;
use tv_test_support::descriptions::CANCEL;
use tv_test_support::{FirstDialog, Question, Reading, expect_answer, expect_answers};

// Texts that aren't UTF-8, and such without a last line end.
#[test]
fn refused_bytes(rt: HostRuntime) -> Result<(), Fail> {
    const TABLE: [(&[u8], &str); 6] = [
        (b"", "syntax at line 1\n"),
        (b"tvd 1", "syntax at line 2\n"),
        (b"tvd 2", "syntax at line 2\n"),
        (b"tvd 3", "unknown version\n"),
        (b"tvd 0\n\xff", "unknown version\n"),
        (b"#\xff\ntvd 3\n", "syntax at line 1\n"),
    ];
    for &(text, wanted) in &TABLE {
        let found = Reading.answer(rt.alloc(), text)?;
        assert_eq!(rt; found.as_str(), wanted, "{text:?}");
    }
    Ok(())
}

#[test]
fn last_line_end(rt: HostRuntime) -> Result<(), Fail> {
    let text = CANCEL.strip_suffix("\n").ok_or("no line end")?;
    expect_answer(&Reading, rt.alloc(), text, "read\n")
}

fn expect_comment(alloc: Global, length: usize, wanted: &str) -> Result<(), Fail> {
    let comment = "#".repeat(alloc, length)?;
    expect_answer(&Reading, alloc, &comment, wanted)
}

#[test]
fn lengths_of_texts(rt: HostRuntime) -> Result<(), Fail> {
    expect_comment(rt.alloc(), 262_144, "syntax at line 2\n")?;
    expect_comment(rt.alloc(), 262_145, "too long\n")
}

// Ids are lines of the canonical text. A text may have several lines of its own for one of these.
const HEADS: &str = r#"tvd 1
screen 20 10
start a
=> screen 20 10, a start
=> dialog of line 4 at 2 2, 14 wide
=> |Q|
=> view of line 5
# one

tvd 1
  # two

screen 20 10

=> screen 20 10, no start
=> dialog of line 3 at 2 2, 14 wide
=> |Q|
=> view of line 4
"#;

#[test]
fn ids_are_canonical_lines(rt: HostRuntime) -> Result<(), Fail> {
    let rest = "dialog a 2 2 14 4 \"Q\" ends\n# three\ntext 1 1 2 1 \"\"\nend";
    expect_answers(&FirstDialog, rt.alloc(), "", HEADS, rest)
}

// The title ends with a quote, a backslash and a line end.
const READ: &str = r#"tvd 1
screen -2147483648 2147483647

dialog a -3 2 14 4 "Q\"\\\n" ends ok no
button c 2 1 10 "~C~ancel" cancel
end
=> screen -2147483648 2147483647, no start
=> dialog of line 3 at -3 2, 14 wide
=> |Q"\
=> | ok no
=> view of line 4
=> |Cancel| marked at 0
"#;

#[test]
fn what_is_read(rt: HostRuntime) -> Result<(), Fail> {
    expect_answers(&FirstDialog, rt.alloc(), "", READ, "")
}
