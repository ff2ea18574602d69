//! Runs into writers that fail, take nothing, or take little at once.

use crate::pieces::Relenting;
use crate::running::run_into;
use std::alloc::Global;
use std::test::Fail;
use tv_program::RunFault;
use tv_test_support::descriptions::{CANCEL, ORDER};
use tv_test_support::{Idle, Memory};

/// The order form, until it has a gift, a note and a quantity.
pub const GIFTS: &str = "\
key F2
key Alt-G
key F2
key Alt-N
key F2
type \"0\"
key F2
key Backspace
type \"07\"
key F2
";

/// What a run of it writes.
pub const GIFTS_LOG: &str = "\
open b
focus amount
focus opts
invalid qty
invalid qty
focus qty
invalid qty
end b ok
field amount \"1\"
field opts 1 2
field qty \"07\"
";

// A run into a writer with room for so many bytes, which takes at most so many a call.
#[derive(Clone, Copy)]
struct Cut {
    desc: &'static str,
    script: &'static str,
    room: usize,
    most_a_call: usize,
    end: &'static str,
    // The bytes of which as many are written as there is room for.
    whole: &'static str,
}

const CUTS: [Cut; 2] = [
    // In the first row of a screen.
    Cut {
        desc: CANCEL,
        script: "shot\n",
        room: 30,
        most_a_call: 30,
        end: "Err(Write)",
        whole: "open a\nfocus c\nshot 20 10\n:   ",
    },
    Cut {
        desc: ORDER,
        script: GIFTS,
        room: GIFTS_LOG.len(),
        most_a_call: 1,
        end: "Ok(())",
        whole: GIFTS_LOG,
    },
];

// Fails unless the run ends so, with those bytes written.
fn expect_cut(alloc: Global, cut: &Cut) -> Result<(), Fail> {
    let mut out = Memory::new(alloc, cut.room, cut.most_a_call)?;
    let stop = run_into(alloc, cut.desc, cut.script, None, &mut out);
    let told = format!(in alloc; "{stop:?}")?;
    if told.as_str() == cut.end && cut.whole.as_bytes().get(..cut.room) == Some(out.taken()) {
        return Ok(());
    }
    Err(Fail::new(format_args!("{told} of {} bytes", cut.room)))
}

// Fails unless a run into a writer that fails once ends there: it is offered nothing more.
fn expect_end(alloc: Global, room: usize) -> Result<(), Fail> {
    let mut out = Relenting {
        room,
        failures: 0,
        offered: 0,
    };
    let stop = run_into(alloc, ORDER, GIFTS, None, &mut out);
    match (stop, out.room, out.offered) {
        (Err(RunFault::Write), 0, 0) => Ok(()),
        (stop, left, offered) => Err(Fail::new(format_args!(
            "{stop:?} of {room} bytes, with {left} left and {offered} offered later"
        ))),
    }
}

#[test]
fn writers_that_fail_at_each_byte(rt: HostRuntime) -> Result<(), Fail> {
    for room in 0..GIFTS_LOG.len() {
        let cut = Cut {
            desc: ORDER,
            script: GIFTS,
            room,
            most_a_call: GIFTS_LOG.len(),
            end: "Err(Write)",
            whole: GIFTS_LOG,
        };
        expect_cut(rt.alloc(), &cut)?;
        expect_end(rt.alloc(), room)?;
    }
    Ok(())
}

#[test]
fn other_writers(rt: HostRuntime) -> Result<(), Fail> {
    for cut in &CUTS {
        expect_cut(rt.alloc(), cut)?;
    }
    // One that takes nothing is called once, and never again.
    let mut out = Idle { calls: 0 };
    let stop = run_into(rt.alloc(), ORDER, GIFTS, None, &mut out);
    match (stop, out.calls) {
        (Err(RunFault::Write), 1) => Ok(()),
        (stop, calls) => Err(Fail::new(format_args!("{stop:?} after {calls} calls"))),
    }
}
