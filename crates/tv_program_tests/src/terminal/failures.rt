//! Writers that fail.

use super::runs::{AMPLE, Ran, Rooms, played, played_with};
use super::sent::Sent;
use std::alloc::Global;
use std::test::Fail;
use tv_play::PlayFault;
use tv_test_support::descriptions::CANCEL;

// Plays a dialog to its end into writers that fail after so many bytes.
fn cut(alloc: Global, rooms: Rooms) -> Result<Ran, Fail> {
    let texts: [&[u8]; 2] = [b"\t", b"c"];
    played_with(alloc, CANCEL, &mut Sent::new(&texts), rooms)
}

#[test]
fn log_that_fails_after_each_byte(rt: HostRuntime) -> Result<(), Fail> {
    let whole = cut(rt.alloc(), AMPLE)?;
    for room in 0..whole.log.taken().len() {
        let cut = cut(rt.alloc(), Rooms { log: room, ..AMPLE })?;
        assert_eq!(rt; cut.outcome, Err(PlayFault::Log), "after {room}");
        assert!(rt;
            whole.log.taken().get(..room) == Some(cut.log.taken()),
            "after {room}"
        );
        // The terminal shows its normal screen again.
        assert!(rt;
            cut.screen.taken().ends_with(b"\x1b[?1049l"),
            "after {room}"
        );
    }
    Ok(())
}

#[test]
fn screen_that_fails_after_each_byte(rt: HostRuntime) -> Result<(), Fail> {
    let whole = cut(rt.alloc(), AMPLE)?;
    for room in 0..whole.screen.taken().len() {
        let cut = cut(
            rt.alloc(),
            Rooms {
                screen: room,
                ..AMPLE
            },
        )?;
        assert_eq!(rt; cut.outcome, Err(PlayFault::Screen), "after {room}");
        assert!(rt;
            whole.screen.taken().get(..room) == Some(cut.screen.taken()),
            "after {room}"
        );
        assert!(rt;
            whole.log.taken().starts_with(cut.log.taken()),
            "after {room}"
        );
    }
    Ok(())
}

#[test]
fn tape_that_fails_after_each_byte(rt: HostRuntime) -> Result<(), Fail> {
    let whole = cut(rt.alloc(), AMPLE)?;
    for room in 0..whole.tape.taken().len() {
        let cut = cut(
            rt.alloc(),
            Rooms {
                tape: room,
                ..AMPLE
            },
        )?;
        assert_eq!(rt; cut.outcome, Err(PlayFault::Tape), "after {room}");
        assert!(rt;
            whole.tape.taken().get(..room) == Some(cut.tape.taken()),
            "after {room}"
        );
        // The event whose line is cut was performed.
        assert!(rt;
            whole.log.taken().starts_with(cut.log.taken()),
            "after {room}"
        );
    }
    Ok(())
}
