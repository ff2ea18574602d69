//! Scripts that come in pieces.

use crate::pieces::{Held, Pieces, Watching};
use crate::running::run_on;
use crate::writers::{GIFTS, GIFTS_LOG};
use std::alloc::Global;
use std::cell::Cell;
use std::process::Abort;
use std::test::Fail;
use tv_io::Reader;
use tv_test_support::Memory;
use tv_test_support::descriptions::{CANCEL, ORDER};

/// Fails where a run on a description ends otherwise than so, or writes something else than this.
pub fn expect_end<R: Reader>(
    alloc: Global,
    desc: &str,
    script: &mut R,
    wanted: &str,
    text: &str,
) -> Result<(), Fail> {
    let mut out = Memory::ample(alloc)?;
    let end = run_on(alloc, desc, script, None, &mut out);
    let told = format!(in alloc; "{end:?}")?;
    let written = str::from_utf8(out.taken())?;
    if told.as_str() == wanted && written == text {
        return Ok(());
    }
    Err(Fail::new(format_args!("{told} after:\n{written}wanted: {wanted} after:\n{text}")))
}

// A script in pieces of each of these sizes, how its run ends, and what it has written then.
struct Ending {
    desc: &'static str,
    script: &'static str,
    pieces: &'static [usize],
    end: &'static str,
    written: &'static str,
}

// What the order form writes before its script is read.
const START: &str = "open b\nfocus amount\n";

const ENDINGS: [Ending; 8] = [
    Ending {
        desc: ORDER,
        script: GIFTS,
        pieces: &[1, 7, 88, 4096],
        end: "Ok(())",
        written: GIFTS_LOG,
    },
    // The lines before the faulty one are performed, though they do nothing, and no line after it is.
    Ending {
        desc: CANCEL,
        script: "key Tab\nkey Foo\nkey Esc\n",
        pieces: &[1, 5, 100],
        end: "Err(Script(Syntax(2)))",
        written: "open a\nfocus c\n",
    },
    // An up that isn't on the screen is a faulty line: what came before it is written, and that the dialog moved isn't.
    Ending {
        desc: CANCEL,
        script: "down 8 2\nmove 9 3\n\nup 20 3\n",
        pieces: &[7],
        end: "Err(Script(OffScreen(4)))",
        written: "open a\nfocus c\n",
    },
    Ending {
        desc: ORDER,
        script: "",
        pieces: &[7],
        end: "Ok(())",
        written: START,
    },
    Ending {
        desc: ORDER,
        script: "type \"a\n",
        pieces: &[7],
        end: "Err(Script(Syntax(1)))",
        written: START,
    },
    Ending {
        desc: ORDER,
        script: "down 1\n",
        pieces: &[7],
        end: "Err(Script(Syntax(1)))",
        written: START,
    },
    Ending {
        desc: ORDER,
        script: "key Foo\ndown 40 0\n",
        pieces: &[7],
        end: "Err(Script(Syntax(1)))",
        written: START,
    },
    Ending {
        desc: ORDER,
        script: "down 40 0\nkey Foo\n",
        pieces: &[7],
        end: "Err(Script(OffScreen(1)))",
        written: START,
    },
];

#[test]
fn endings(rt: HostRuntime) -> Result<(), Fail> {
    for row in &ENDINGS {
        for piece in row.pieces {
            let mut script = Pieces::new(row.script, *piece, 0);
            expect_end(rt.alloc(), row.desc, &mut script, row.end, row.written)?;
        }
    }
    Ok(())
}

// The bytes of the log that are written before each read of the script of the gifts in pieces of seven bytes; the last read
// would be the end.
const WRITTEN: [usize; 14] = [20, 20, 20, 31, 43, 43, 65, 65, 65, 77, 77, 77, 77, 133];

#[test]
fn readers_that_fail_at_each_read(rt: HostRuntime) -> Result<(), Fail> {
    for (index, written) in WRITTEN.iter().enumerate() {
        let mut script = Pieces::new(GIFTS, 7, index + 1);
        let text = GIFTS_LOG.get(..*written).unwrap_or("");
        expect_end(rt.alloc(), ORDER, &mut script, "Err(Read)", text)?;
    }
    Ok(())
}

// Refuses a run that gathers its script first, and one that doesn't pass on what it wrote before it waits for more.
#[test]
fn gathers_whole_script(rt: HostRuntime) -> Result<(), Fail> {
    let passed_on = Cell::new(0);
    let mut script = Watching {
        script: Pieces::new(GIFTS, 7, 0),
        passed_on: &passed_on,
        wanted: &WRITTEN,
        odd: None,
    };
    let mut out = Held {
        taken: 0,
        passed_on: &passed_on,
    };
    let is_run = run_on(rt.alloc(), ORDER, &mut script, None, &mut out).is_ok();
    assert!(rt; is_run);
    assert_eq!(rt; script.odd, None);
    assert_eq!(rt; script.script.reads, 14);
    Ok(())
}
