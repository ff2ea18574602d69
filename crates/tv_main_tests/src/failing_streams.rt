//! How the program ends where a stream fails, or where there is nothing to do.

use crate::endings::{
    AMPLE, ANSWER, CHECK, FILL, FORM, QUESTIONS, RUN, Room, RoomEnding, WARN, WAY, WAYS, ending,
    expect_room_endings, expect_told, status,
};
use crate::shelf::Shelf;
use crate::sink::Sink;
use crate::user::User;
use std::alloc::Global;
use std::test::Fail;
use tv_files::{DirectStream, NoTask, tell_no_memory};
use tv_test_support::descriptions::{CANCEL, CLOSED, SHARED_LETTER};

// A certificate that was taken, but not flushed.
const UNFLUSHED: &str = "tvcert 1
dialog a
tab c
key C c
end
tvdlg: cannot write
status 3
opened 1
";

// A form that was filled, of which a message isn't told.
const FILLED: &str = r#"tvd 1
screen 40 12
dialog form 1 1 30 8 "Form" opens 100 ends ok cancel
input port 1 1 8 5 range 1 65535 "80"
button ok 1 5 8 "OK" ok
button no 12 5 8 "No" cancel
end
status 0
opened 12
"#;

const FAILING: [RoomEnding<'static>; 23] = [
    (
        CHECK,
        (CANCEL, ""),
        ((0, true), AMPLE),
        "tvdlg: cannot write\nstatus 3\nopened 1\n",
    ),
    (
        CHECK,
        (CANCEL, ""),
        ((8, true), AMPLE),
        "tvcert 1tvdlg: cannot write\nstatus 3\nopened 1\n",
    ),
    (CHECK, (CANCEL, ""), ((1000, false), AMPLE), UNFLUSHED),
    (
        CHECK,
        (CANCEL, ""),
        ((0, true), (0, true)),
        "status 3\nopened 1\n",
    ),
    (
        CHECK,
        (SHARED_LETTER, ""),
        ((0, true), AMPLE),
        "tvdlg: cannot write\nstatus 3\nopened 1\n",
    ),
    (
        CHECK,
        (SHARED_LETTER, ""),
        ((5, true), AMPLE),
        "F4 litvdlg: cannot write\nstatus 3\nopened 1\n",
    ),
    (
        CHECK,
        (SHARED_LETTER, ""),
        ((1000, false), AMPLE),
        "F4 line 8\ntvdlg: cannot write\nstatus 3\nopened 1\n",
    ),
    (
        CHECK,
        (SHARED_LETTER, ""),
        (AMPLE, (0, false)),
        "F4 line 8\nstatus 1\nopened 1\n",
    ),
    (
        CHECK,
        ("tvd 3\n", ""),
        (AMPLE, (0, true)),
        "status 1\nopened 1\n",
    ),
    (
        CHECK,
        ("tvd 3\n", ""),
        (AMPLE, (11, true)),
        "tvdlg: FILEstatus 1\nopened 1\n",
    ),
    (
        CHECK,
        ("tvd 3\n", ""),
        (AMPLE, (1000, false)),
        "tvdlg: FILE: unknown version\nstatus 1\nopened 1\n",
    ),
    // Of a run the first that failed is told, alone. The log of the start has 15 bytes.
    (
        RUN,
        (CANCEL, "key Foo\n"),
        ((0, true), AMPLE),
        "tvdlg: cannot write\nstatus 3\nopened 12\n",
    ),
    (
        RUN,
        (CANCEL, "key Foo\n"),
        ((7, true), AMPLE),
        "open a\ntvdlg: cannot write\nstatus 3\nopened 12\n",
    ),
    (
        RUN,
        (CANCEL, "key Esc\nkey Foo\n"),
        ((20, true), AMPLE),
        "open a\nfocus c\nend atvdlg: cannot write\nstatus 3\nopened 12\n",
    ),
    (
        RUN,
        (CANCEL, "key Foo\n"),
        ((15, true), AMPLE),
        "open a\nfocus c\ntvdlg: BESIDE: syntax at line 1\nstatus 1\nopened 12\n",
    ),
    // An answer that doesn't fit.
    (
        FILL,
        (FORM, "end x ok\n"),
        ((6, true), AMPLE),
        "tvd 1\ntvdlg: BESIDE: no dialog x at line 1\ntvdlg: cannot write\nstatus 3\nopened 12\n",
    ),
    (
        FILL,
        (FORM, "end x ok\n"),
        ((6, true), (9, true)),
        "tvd 1\ntvdlg: BEstatus 3\nopened 12\n",
    ),
    (FILL, (FORM, "end x ok\n"), (AMPLE, (0, true)), FILLED),
    (
        ANSWER,
        (QUESTIONS, "end first ok\n"),
        ((6, true), AMPLE),
        "open ftvdlg: cannot write\nstatus 3\nopened 12\n",
    ),
    (
        WAYS,
        (CANCEL, ""),
        ((12, true), AMPLE),
        "dialog a\nendtvdlg: cannot write\nstatus 3\nopened 1\n",
    ),
    (
        WAYS,
        (SHARED_LETTER, ""),
        ((6, true), AMPLE),
        "FILE:8tvdlg: cannot write\nstatus 3\nopened 1\n",
    ),
    (
        WAY,
        (CANCEL, ""),
        ((2, true), AMPLE),
        "ketvdlg: cannot write\nstatus 3\nopened 1\n",
    ),
    (
        WARN,
        (CLOSED, ""),
        ((6, true), AMPLE),
        "FILE:3tvdlg: cannot write\nstatus 3\nopened 1\n",
    ),
];

#[test]
fn streams_that_fail(rt: HostRuntime) -> Result<(), Fail> {
    expect_room_endings(rt.alloc(), &FAILING)
}

// More than is kept back, so that the stream fails while the script is performed.
#[test]
fn streams_that_fail_in_a_run(rt: HostRuntime) -> Result<(), Fail> {
    let alloc = rt.alloc();
    let script = "shot\n".repeat(alloc, 100)?;
    let files = Shelf::new(CANCEL, script.as_str());
    let mut out = Sink::new(alloc, 9000, true);
    let mut err = Sink::new(alloc, 1000, true);
    let ended = status(alloc, Ok(RUN), files, User::silent(), &mut out, &mut err)?;
    assert_eq!(rt; ended, (3, 12));
    assert_eq!(rt; out.taken().len(), 9000);
    assert_eq!(rt; str::from_utf8(err.taken())?, "tvdlg: cannot write\n");
    Ok(())
}

// The room of standard error, and what is told of a usage and where there is no memory.
const IDLE: [(Room, &str, &str); 4] = [
    (
        AMPLE,
        "a\nstatus 2\nopened 0\n",
        "tvdlg: no memory\nstatus 3\nopened 0\n",
    ),
    ((0, true), "status 3\nopened 0\n", "status 3\nopened 0\n"),
    ((1, true), "astatus 3\nopened 0\n", "tstatus 3\nopened 0\n"),
    (
        (1000, false),
        "a\nstatus 3\nopened 0\n",
        "tvdlg: no memory\nstatus 3\nopened 0\n",
    ),
];

fn expect_idle(alloc: Global, asked: NoTask, room: Room, wanted: &str) -> Result<(), Fail> {
    let told = ending(alloc, Err(asked), ("", ""), AMPLE, room)?;
    expect_told(&told, wanted)
}

#[test]
fn nothing_to_do(rt: HostRuntime) -> Result<(), Fail> {
    let alloc = rt.alloc();
    for &(room, told, untold) in &IDLE {
        let text = String::from_str(alloc, "a\n")?;
        expect_idle(alloc, NoTask::Usage(text), room, told)?;
        expect_idle(alloc, NoTask::NoMemory, room, untold)?;
    }
    Ok(())
}

#[test]
fn no_room_for_streams(rt: HostRuntime) -> Result<(), Fail> {
    for (room, wanted) in [(AMPLE, "tvdlg: no memory\n"), ((5, true), "tvdlg")] {
        let mut err = Sink::new(rt.alloc(), room.0, room.1);
        assert_eq!(rt; tell_no_memory(&mut DirectStream::new(&mut err)), 3);
        assert_eq!(rt; str::from_utf8(err.taken())?, wanted, "{room:?}");
    }
    Ok(())
}
