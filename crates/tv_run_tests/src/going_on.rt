//! Sessions that go on after their writer or their reader failed.

ghost use Rattle.std.specs.Prelude.{IfOk};
ghost use Rattle.tv_machine.specs.Run.{Session as Standing};
ghost use Rattle.tv_script.specs.Performed.{FitsLargestScreen};
ghost use Rattle.tv_session.specs.Session.{StandsFor};

use crate::bodies::checked;
use crate::making::views;
use crate::pieces::Pieces;
use crate::running::lines;
use crate::writers::{GIFTS, GIFTS_LOG};
use std::alloc::Global;
use std::test::Fail;
use tv_check::Checked;
use tv_script::{Script, StreamFault, perform, perform_from};
use tv_session::{SessionOf, Views, parts_are_lawful};
use tv_test_support::Memory;
use tv_test_support::descriptions::ORDER;
use tv_view::View;

// What a writer that takes some bytes of a run leaves.
#[derive(Clone, Copy)]
struct Left {
    /// It is so from this number of bytes on.
    from: usize,
    /// The items that were begun.
    begun: usize,
    /// The reads of the script, in pieces of seven bytes.
    reads: usize,
    /// What Esc and then F3 log.
    later: &'static str,
}

// The gifts of the order form. An item that writes nothing can't be the one at which the writer fails.
const LEFT: [Left; 6] = [
    Left {
        from: 0,
        begun: 0,
        reads: 0,
        later: "end b cancel; field amount \"1\"; field opts -; field qty \"\"; open b; focus amount",
    },
    Left {
        from: 20,
        begun: 2,
        reads: 3,
        later: "end b cancel; field amount \"1\"; field opts 1; field qty \"\"; open b; focus amount",
    },
    Left {
        from: 31,
        begun: 3,
        reads: 4,
        later: "end b cancel; field amount \"1\"; field opts 1; field qty \"\"; open b; focus amount",
    },
    Left {
        from: 43,
        begun: 5,
        reads: 6,
        later: "end b cancel; field amount \"1\"; field opts 1 2; field qty \"\"; open b; focus amount",
    },
    Left {
        from: 65,
        begun: 7,
        reads: 9,
        later: "end b cancel; field amount \"1\"; field opts 1 2; field qty \"0\"; open b; focus amount",
    },
    Left {
        from: 77,
        begun: 11,
        reads: 13,
        later: "open b; focus amount",
    },
];

// The bytes that the whole run writes.
const WHOLE: usize = 133;

// Performs a script that doesn't come to its end, and tells why.
fn stopped<V: View>(
    alloc: Global,
    session: &mut SessionOf<V>,
    script: &mut Pieces<'_>,
    out: &mut Memory,
) -> Result<StreamFault, Fail>
    requires { (s : Standing) × StandsFor V.meaning session.old s × FitsLargestScreen s.desc }
    ensures { IfOk result (λ _. (s : Standing) × StandsFor V.meaning session.new s) }
{
    match perform_from(alloc, session, script, out) {
        Ok(()) => Err("it comes to its end".into()),
        Err(fault) => Ok(fault),
    }
}

// A run of the gifts that is stopped.
#[derive(Clone, Copy)]
struct Stop<'a> {
    /// The bytes that its writer takes.
    room: usize,
    /// The read that fails, in pieces of seven bytes; none does at 0.
    failing: usize,
    fault: StreamFault,
    reads: usize,
    /// The script that the session goes on with.
    rest: &'a str,
    /// What both scripts write.
    written: &'a str,
}

// Performs the rest of a script whole. Fails where both have written something else than is wanted then.
fn expect_more<V: View>(
    alloc: Global,
    session: &mut SessionOf<V>,
    stop: Stop<'_>,
    first: &[u8],
) -> Result<(), Fail>
    requires { (s : Standing) × StandsFor V.meaning session.old s }
{
    let script = Script::parse(alloc, stop.rest.as_bytes(), 40, 14)?;
    let mut out = Memory::ample(alloc)?;
    let end = perform(session, &script, &mut out);
    let first = str::from_utf8(first)?;
    let later = str::from_utf8(out.taken())?;
    if end.is_ok() && stop.written.strip_prefix(first) == Some(later) {
        return Ok(());
    }
    Err(Fail::new(format_args!("{end:?} after:\n{first}{later}wanted:\n{}", stop.written)))
}

fn expect_stopped<V: View>(
    alloc: Global,
    session: &mut SessionOf<V>,
    stop: Stop<'_>,
) -> Result<(), Fail>
    requires { (s : Standing) × StandsFor V.meaning session.old s × FitsLargestScreen s.desc }
{
    let mut script = Pieces::new(GIFTS, 7, stop.failing);
    let mut out = Memory::new(alloc, stop.room, stop.room)?;
    let fault = stopped(alloc, session, &mut script, &mut out)?;
    if (fault, script.reads) != (stop.fault, stop.reads) {
        return Err(Fail::new(format_args!("{fault:?} after {} reads", script.reads)));
    }
    expect_more(alloc, session, stop, out.taken())
}

fn expect_goes_on<V: View>(
    alloc: Global,
    checked: Checked,
    views: Views<V>,
    stop: Stop<'_>,
) -> Result<(), Fail> {
    parts_are_lawful(checked.desc());
    let Views { windows, bodies } = views;
    match SessionOf::new(alloc, checked, windows, bodies) {
        Ok(mut session) => expect_stopped(alloc, &mut session, stop),
        Err(refused) => Err(Fail::new(format_args!("{}", refused.fault))),
    }
}

fn expect_stop(alloc: Global, stop: Stop<'_>) -> Result<(), Fail> {
    let checked = checked(alloc, ORDER)?;
    let views = views(alloc, &checked, None)?;
    expect_goes_on(alloc, checked, views, stop)
}

fn expect_cut(alloc: Global, room: usize) -> Result<(), Fail> {
    let left = LEFT
        .iter()
        .rev()
        .find(|left| left.from <= room)
        .ok_or("no row")?;
    let first = GIFTS_LOG.get(..room).ok_or("no such room")?;
    let later = lines(alloc, left.later)?;
    let written = format!(in alloc; "{first}{later}")?;
    let stop = Stop {
        room,
        failing: 0,
        fault: StreamFault::Write(left.begun),
        reads: left.reads,
        rest: "key Esc\nkey F3\n",
        written: &written,
    };
    expect_stop(alloc, stop)
}

#[test]
fn writers_that_fail_at_each_byte(rt: HostRuntime) -> Result<(), Fail> {
    for room in 0..WHOLE {
        expect_cut(rt.alloc(), room)?;
    }
    Ok(())
}

// The lines of the gifts that don't end among so many bytes.
fn rest_after(bytes: usize) -> &'static str {
    let given = GIFTS.get(..bytes).unwrap_or(GIFTS);
    match given.rsplit_once('\n') {
        Some((whole, _)) => GIFTS.get(whole.len().saturating_add(1)..).unwrap_or(""),
        None => GIFTS,
    }
}

// What the lines write that hadn't ended when the read failed comes by a second call, and nothing is written twice.
#[test]
fn readers_that_fail_at_each_read(rt: HostRuntime) -> Result<(), Fail> {
    for read in 1..15usize {
        let stop = Stop {
            room: WHOLE,
            failing: read,
            fault: StreamFault::Read,
            reads: read,
            rest: rest_after(read.saturating_sub(1).saturating_mul(7)),
            written: GIFTS_LOG,
        };
        expect_stop(rt.alloc(), stop)?;
    }
    Ok(())
}
