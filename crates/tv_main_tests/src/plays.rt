//! How a description that is played ends: what both streams took, and the status.

use crate::endings::{AMPLE, PLAY, Room, ending_of, expect_told};
use crate::shelf::Shelf;
use crate::user::User;
use std::alloc::Global;
use std::test::Fail;
use tv_test_support::descriptions::CANCEL;

// What a dialog of one button comes to, by what the user sends.
fn played(alloc: Global, user: User<'_>, rooms: (Room, Room)) -> Result<String, Fail> {
    let files = Shelf::new(CANCEL, "");
    ending_of(alloc, Ok(PLAY), files, user, rooms)
}

// The screen of the dialog, on the alternate screen.
const SHOWN: &str = "{
                   \x20
....................
..+=[x] Q =====+....
..| < Cancel > |....
..|            |....
..+============+....
....................
....................
....................
                   \x20";

// What the user sends, whether what comes after it can't be read, the room of standard output, what that takes, and what
// follows of the screen, the message and the status.
const PLAYS: [(&[u8], bool, Room, &str, &str); 7] = [
    (
        b"\x1b",
        false,
        AMPLE,
        "open a\nfocus c\nend a cancel\n",
        "\n..............\n................\n................\n................\n..............}status 0\n",
    ),
    (b"\x1c", false, AMPLE, "open a\nfocus c\n", "}status 4\n"),
    (b"", false, AMPLE, "open a\nfocus c\n", "}status 4\n"),
    (
        b"\t",
        true,
        AMPLE,
        "open a\nfocus c\n",
        "}tvdlg: cannot read standard input\nstatus 3\n",
    ),
    (
        b"\x1c",
        false,
        (5, true),
        "open ",
        "}tvdlg: cannot write\nstatus 3\n",
    ),
    // Nothing is read once the log failed.
    (
        b"\x1b",
        false,
        (5, true),
        "open ",
        "}tvdlg: cannot write\nstatus 3\n",
    ),
    (
        b"\x1b",
        false,
        (20, true),
        "open a\nfocus c\nend a",
        "\n..............\n................\n................\n................\n..............}tvdlg: cannot write\nstatus 3\n",
    ),
];

#[test]
fn ends_of_a_play(rt: HostRuntime) -> Result<(), Fail> {
    let alloc = rt.alloc();
    for &(sent, is_torn, out_room, log, rest) in &PLAYS {
        let told = played(alloc, User::new(sent, is_torn), (out_room, AMPLE))?;
        let wanted = format!(in alloc; "{log}{SHOWN}{rest}opened 1\n")?;
        expect_told(&told, &wanted)?;
    }
    Ok(())
}

// The screen fails once the terminal is on its alternate screen, before a key is read; what was logged stands.
#[test]
fn screen_that_fails(rt: HostRuntime) -> Result<(), Fail> {
    for &sent in &[b"\x1b", b"\x1c"] {
        let user = User::new(sent, false);
        let told = played(rt.alloc(), user, (AMPLE, (8, true)))?;
        expect_told(&told, "open a\nfocus c\n{status 3\nopened 1\n")?;
    }
    Ok(())
}
