//! Scripts that come near the limits, and go on beyond them.

use crate::pieces::Pieces;
use crate::streams::expect_end;
use std::alloc::Global;
use std::process::Abort;
use std::test::Fail;
use tv_test_support::descriptions::CANCEL;

// A script, how its run ends, and what it has written then.
struct Long {
    before: &'static str,
    /// What comes then, so many times.
    again: &'static str,
    times: usize,
    after: &'static str,
    piece: usize,
    end: &'static str,
    written: &'static str,
}

// The log of the start.
const START: &str = "open a\nfocus c\n";

const TOO_LONG: &str = "Err(Script(TooLong))";

// A script has at most 1,048,576 bytes. A line whose end is the last of these is judged by itself; of a longer one, and of all that
// comes with the next byte, it is told that the script is too long.
const BYTES: [Long; 3] = [
    Long {
        before: "",
        again: "#",
        times: 1_048_568,
        after: "\nkey Foo\n",
        piece: 4096,
        end: TOO_LONG,
        written: START,
    },
    Long {
        before: "",
        again: "#",
        times: 1_048_567,
        after: "\nkey Foo\n",
        piece: 4096,
        end: "Err(Script(Syntax(2)))",
        written: START,
    },
    // The last piece has the line, its end and the byte after it.
    Long {
        before: "",
        again: "#",
        times: 1_048_567,
        after: "\nkey Esc\n#",
        piece: 4095,
        end: TOO_LONG,
        written: "open a\nfocus c\nend a cancel\n",
    },
];

const WITHOUT_END: Long = Long {
    before: "",
    again: "#",
    times: 1_100_000,
    after: "",
    piece: 4096,
    end: TOO_LONG,
    written: START,
};

// A script has at most 100,000 items: here letters, of which all but one do nothing.
const ITEMS: [Long; 2] = [
    // The last of them presses the button, whose letter it is; the line with one more comes before the faulty one.
    Long {
        before: "type \"",
        again: "x",
        times: 99_999,
        after: "c\"\nkey Tab\nkey Foo\n",
        piece: 4096,
        end: TOO_LONG,
        written: "open a\nfocus c\npress c\nend a cancel\n",
    },
    Long {
        before: "type \"",
        again: "x",
        times: 100_000,
        after: "c\"\n",
        piece: 4096,
        end: TOO_LONG,
        written: START,
    },
];

// How many bytes a run asks for. Fails where it ends otherwise than so.
fn asked(alloc: Global, row: &Long) -> Result<usize, Fail> {
    let again = row.again.repeat(alloc, row.times)?;
    let script = format!(in alloc; "{}{again}{}", row.before, row.after)?;
    let mut script = Pieces::new(&script, row.piece, 0);
    expect_end(alloc, CANCEL, &mut script, row.end, row.written)?;
    Ok(script.asked)
}

#[test]
fn up_to_the_last_byte(rt: HostRuntime) -> Result<(), Fail> {
    for row in &BYTES {
        asked(rt.alloc(), row)?;
    }
    // No more is asked for than the byte that shows that there are too many.
    assert_eq!(rt; asked(rt.alloc(), &WITHOUT_END)?, 1_048_577);
    Ok(())
}

#[test]
fn up_to_the_last_item(rt: HostRuntime) -> Result<(), Fail> {
    for row in &ITEMS {
        asked(rt.alloc(), row)?;
    }
    Ok(())
}
