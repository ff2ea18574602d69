//! Sessions by keys and by the mouse, and what ends them.

use super::runs::{expect_ran, expect_same, expect_taped, logged, played};
use super::sent::Sent;
use std::alloc::Global;
use std::test::Fail;
use tv_play::{Parting, PlayFault};
use tv_test_support::Memory;
use tv_test_support::descriptions::{CANCEL, MENUS};

// What is sent to a description, the script of the same events, what it logs, and why it ends.
struct Row {
    desc: &'static str,
    sent: &'static [u8],
    script: &'static str,
    log: &'static str,
    parting: Parting,
}

// Two windows, one over the other, and a status item by which nobody leaves.
const DESK: &str = r#"tvd 1
screen 24 10
status "Ctrl-C Copy" Ctrl-C 101
window one 1 1 16 4 1 "One"
end
window two 8 3 20 4 2 "Two"
end
"#;

// A status item that has the key by which the screen is painted anew.
const LISTING: &str = r#"tvd 1
screen 24 10
status "Ctrl-L List" Ctrl-L 101
"#;

const KEYS: [Row; 7] = [
    Row {
        desc: CANCEL,
        sent: b"\x1b[200~\t\r\x1bc\x1b[201~\tc",
        script: "key Tab\ntype \"c\"\n",
        log: "open a\nfocus c\npress c\nend a cancel\n",
        parting: Parting::Over,
    },
    Row {
        desc: CANCEL,
        sent: b"\x0c\x1b[8;24;80t\x1b[0n\tc",
        script: "key Tab\ntype \"c\"\n",
        log: "open a\nfocus c\npress c\nend a cancel\n",
        parting: Parting::Over,
    },
    Row {
        desc: LISTING,
        sent: b"\x0c",
        script: "key Ctrl-L\n",
        log: "command 101\n",
        parting: Parting::Ended,
    },
    Row {
        desc: CANCEL,
        sent: b"\tc",
        script: "key Tab\ntype \"c\"\n",
        log: "open a\nfocus c\npress c\nend a cancel\n",
        parting: Parting::Over,
    },
    Row {
        desc: CANCEL,
        sent: b"\x1b[A\x1bx\x1b[21~\xc3\xa9",
        script: "key Up\nkey Alt-X\nkey F10\ntype \"é\"\n",
        log: "open a\nfocus c\n",
        parting: Parting::Ended,
    },
    Row {
        desc: MENUS,
        sent: b"\x1b[21~\x1b[C\r\x1bf\x1bOA\r",
        script: "key F10\nkey Right\nkey Enter\nkey Alt-F\nkey Up\nkey Enter\n",
        log: "command 102\nquit\n",
        parting: Parting::Over,
    },
    Row {
        desc: DESK,
        sent: b"\x03\x03",
        script: "key Ctrl-C\nkey Ctrl-C\n",
        log: "command 101\ncommand 101\n",
        parting: Parting::Ended,
    },
];

const MOUSE: [Row; 4] = [
    // Off the screen.
    Row {
        desc: DESK,
        sent: b"\x1b[<0;14;4M\x1b[<32;41;21M\x1b[<0;99;99m\x1b[<0;30;5M\x1b[<0;30;5m",
        script: "down 13 3\nmove 23 9\nup 23 9\ndown 0 0\nup 23 4\n",
        log: "moved two 18 8\n",
        parting: Parting::Ended,
    },
    Row {
        desc: CANCEL,
        sent: b"\x1b[<0;8;4M\x1b[<0;8;4m",
        script: "down 7 3\nup 7 3\n",
        log: "open a\nfocus c\npress c\nend a cancel\n",
        parting: Parting::Over,
    },
    Row {
        desc: MENUS,
        sent: b"\x1b[<0;9;1M\x1b[<0;9;1m\x1b[<0;10;3M\x1b[<0;10;3m",
        script: "down 8 0\nup 8 0\ndown 9 2\nup 9 2\n",
        log: "command 102\n",
        parting: Parting::Ended,
    },
    Row {
        desc: DESK,
        sent: b"\x1b[<0;14;4M\x1b[<32;11;6M\x1b[<0;11;6m\x1b[<0;4;2M\x1b[<0;4;2M",
        script: "down 13 3\nmove 10 5\nup 10 5\ndown 3 1\ndown 3 1\n",
        log: "moved two 5 5\nclose one\n",
        parting: Parting::Ended,
    },
];

// Fails where the log isn't that of the row, or that of the program's run of its script, or another script was recorded.
fn expect_row(alloc: Global, row: &Row) -> Result<(), Fail> {
    let ran = played(alloc, row.desc, &mut Sent::new(&[row.sent]))?;
    expect_ran(&ran, Ok(row.parting), row.log.as_bytes())?;
    expect_taped(&ran, row.script)?;
    let logged = logged(alloc, row.desc, row.script)?;
    expect_ran(&ran, Ok(row.parting), logged.taken())
}

#[test]
fn keys(rt: HostRuntime) -> Result<(), Fail> {
    for row in &KEYS {
        expect_row(rt.alloc(), row)?;
    }
    Ok(())
}

#[test]
fn mouse(rt: HostRuntime) -> Result<(), Fail> {
    for row in &MOUSE {
        expect_row(rt.alloc(), row)?;
    }
    Ok(())
}

// Fails where a row's bytes in other pieces come to something else.
fn expect_pieces(alloc: Global, row: &Row) -> Result<(), Fail> {
    let whole = played(alloc, row.desc, &mut Sent::new(&[row.sent]))?;
    for cut in 1..row.sent.len() {
        let (front, rest) = row.sent.split_at(cut);
        let cut = played(alloc, row.desc, &mut Sent::new(&[front, rest]))?;
        expect_same(&cut, &whole)?;
    }
    let texts = [row.sent];
    let mut sent = Sent::new(&texts);
    sent.most = 1;
    let by_bytes = played(alloc, row.desc, &mut sent)?;
    expect_same(&by_bytes, &whole)
}

#[test]
fn cut_at_each_byte(rt: HostRuntime) -> Result<(), Fail> {
    for row in KEYS.iter().chain(&MOUSE) {
        expect_pieces(rt.alloc(), row)?;
    }
    Ok(())
}

// Events of a run that goes on after each of them, and their lines.
const EVENTS: [&[u8]; 6] = [
    b"\x1b[21~",
    b"\x1b[C",
    b"\r",
    b"\x1bf",
    b"\x1b[<0;4;3M",
    b"\x1b[<0;4;3m",
];

const LINES: [&str; 6] = [
    "key F10\n",
    "key Right\n",
    "key Enter\n",
    "key Alt-F\n",
    "down 3 2\n",
    "up 3 2\n",
];

// What the first of them log.
fn logged_of(alloc: Global, count: usize) -> Result<Memory, Fail> {
    let mut script = String::new(alloc);
    for line in LINES.iter().take(count) {
        script.push_str(line)?;
    }
    logged(alloc, MENUS, &script)
}

// Fails unless all that came before is performed, where the input ends or its reader fails after so many pieces.
fn expect_heard(alloc: Global, count: usize) -> Result<(), Fail> {
    let log = logged_of(alloc, count)?;
    let texts = EVENTS.get(..count).ok_or("fewer events")?;
    let ended = played(alloc, MENUS, &mut Sent::new(texts))?;
    expect_ran(&ended, Ok(Parting::Ended), log.taken())?;
    let mut failing = Sent::new(&EVENTS);
    failing.failing = count.saturating_add(1);
    let mut failed = played(alloc, MENUS, &mut failing)?;
    expect_ran(&failed, Err(PlayFault::Read), log.taken())?;
    failed.outcome = ended.outcome;
    expect_same(&failed, &ended)
}

#[test]
fn input_that_ends_or_fails_after_each_piece(rt: HostRuntime) -> Result<(), Fail> {
    for count in 0..=EVENTS.len() {
        expect_heard(rt.alloc(), count)?;
    }
    let all = logged_of(rt.alloc(), EVENTS.len())?;
    assert!(rt; all.taken() == b"command 102\ncommand 101\n".as_slice());
    Ok(())
}

// Pieces that are sent to a description, how many are read, what they log, and why that ends.
struct Leave {
    desc: &'static str,
    sent: &'static [&'static [u8]],
    reads: usize,
    log: &'static str,
    parting: Parting,
}

const LEAVES: [Leave; 9] = [
    Leave {
        desc: MENUS,
        sent: &[b"\x1c", b"\x1bf"],
        reads: 1,
        log: "",
        parting: Parting::Left,
    },
    Leave {
        desc: MENUS,
        sent: &[b"\x03", b"\x1bf"],
        reads: 1,
        log: "",
        parting: Parting::Left,
    },
    Leave {
        desc: CANCEL,
        sent: &[b"\t\x1cc", b"c"],
        reads: 1,
        log: "open a\nfocus c\n",
        parting: Parting::Left,
    },
    // A sequence that isn't whole means nothing before it.
    Leave {
        desc: CANCEL,
        sent: &[b"\t", b"\x1b[1\x03", b"c"],
        reads: 2,
        log: "open a\nfocus c\n",
        parting: Parting::Left,
    },
    Leave {
        desc: DESK,
        sent: &[b"\x03", b"", b"\x1c\x03"],
        reads: 3,
        log: "command 101\n",
        parting: Parting::Left,
    },
    Leave {
        desc: MENUS,
        sent: &[b"\x1bf", b"\x1b[A\r\x1bf", b"\x1c"],
        reads: 2,
        log: "quit\n",
        parting: Parting::Over,
    },
    // Esc, by a pause, by the end, and not where more of its sequence comes.
    Leave {
        desc: CANCEL,
        sent: &[b"\x1b", b"", b"[A"],
        reads: 2,
        log: "open a\nfocus c\nend a cancel\n",
        parting: Parting::Over,
    },
    Leave {
        desc: CANCEL,
        sent: &[b"\x1b"],
        reads: 2,
        log: "open a\nfocus c\nend a cancel\n",
        parting: Parting::Over,
    },
    Leave {
        desc: CANCEL,
        sent: &[b"\x1b", b"[A"],
        reads: 3,
        log: "open a\nfocus c\n",
        parting: Parting::Ended,
    },
];

#[test]
fn partings(rt: HostRuntime) -> Result<(), Fail> {
    for row in &LEAVES {
        let mut sent = Sent::new(row.sent);
        let ran = played(rt.alloc(), row.desc, &mut sent)?;
        expect_ran(&ran, Ok(row.parting), row.log.as_bytes())?;
        assert_eq!(rt; sent.reads, row.reads);
    }
    Ok(())
}
