//! Sessions that are begun and performed.

ghost use Rattle.std.specs.Prelude.{IfOk};
ghost use Rattle.tv_machine.specs.Run.{Session as Standing};
ghost use Rattle.tv_script.specs.Performed.{FitsLargestScreen};
ghost use Rattle.tv_session.specs.Session.{StandsFor};

use super::ending::{Ending, expect, expect_whole, refused};
use super::fixtures::{FOUR, checked_of, views_of};
use std::alloc::Global;
use std::test::Fail;
use tv_check::Checked;
use tv_controls::Button;
use tv_io::FileReader;
use tv_script::{Script, StreamFault, perform, perform_from};
use tv_session::{Refused, SessionFault, SessionOf, Views, parts_are_lawful};
use tv_test_support::Memory;
use tv_test_support::descriptions::CANCEL;
use tv_view::View;

// What was handed in comes back after a refusal, and a session is made of it.
fn begin(alloc: Global, checked: Checked, views: Views<Button>) -> Result<(), Ending> {
    match SessionOf::new(alloc, checked, views.windows, views.bodies) {
        Ok(_) => Ok(()),
        Err(first) => begin_again(alloc, first),
    }
}

fn begin_again(alloc: Global, first: Refused<Button>) -> Result<(), Ending> {
    if first.fault != SessionFault::NoMemory {
        return Err(Ending::Other("the views are refused"));
    }
    let again = SessionOf::new(alloc, first.checked, first.windows, first.bodies);
    refused(again.is_ok())
}

fn begun(alloc: Global) -> Result<(), Ending> {
    let checked = checked_of(alloc, FOUR)?;
    let views = views_of(alloc, &checked)?;
    begin(alloc, checked, views)
}

#[test]
fn beginning(rt: HostRuntime) -> Result<(), Fail> {
    expect_whole(begun(rt.alloc()))
}

const SCRIPT: &str = "key Tab\ntype \"c\"\n";

const WRITTEN: &str = "open a\nfocus c\npress c\nend a cancel\n";

// Performs the script as it comes. Whether memory was refused to it.
fn is_refused<V: View>(
    alloc: Global,
    session: &mut SessionOf<V>,
    out: &mut Memory,
) -> Result<bool, Ending>
    requires { (s : Standing) × StandsFor V.meaning session.old s × FitsLargestScreen s.desc }
    ensures { IfOk result (λ _. (s : Standing) × StandsFor V.meaning session.new s) }
{
    let mut script = FileReader::new(SCRIPT.as_bytes());
    match perform_from(alloc, session, &mut script, out) {
        Ok(()) => Ok(false),
        Err(StreamFault::NoMemory) => Ok(true),
        Err(_) => Err(Ending::Other("the script is left")),
    }
}

// After a refusal the log was written, and the same session performs the whole script.
fn goes_on<V: View>(alloc: Global, session: &mut SessionOf<V>, out: &mut Memory) -> bool
    requires { (s : Standing) × StandsFor V.meaning session.old s }
{
    let is_start = out.taken() == b"open a\nfocus c\n".as_slice();
    match Script::parse(alloc, SCRIPT.as_bytes(), 20, 10) {
        Ok(script) => is_start && perform(session, &script, out).is_ok(),
        Err(_) => false,
    }
}

fn perform_all<V: View>(alloc: Global, session: &mut SessionOf<V>) -> Result<(), Ending>
    requires { (s : Standing) × StandsFor V.meaning session.old s × FitsLargestScreen s.desc }
{
    let mut out = Memory::ample(alloc)?;
    let again = is_refused(alloc, session, &mut out)?;
    if again && !goes_on(alloc, session, &mut out) {
        return Err(Ending::Other("the session doesn't go on"));
    }
    let is_written = out.taken() == WRITTEN.as_bytes();
    if again {
        refused(is_written)
    } else {
        expect(is_written, "another text")
    }
}

fn perform_over<V: View>(alloc: Global, checked: Checked, views: Views<V>) -> Result<(), Ending> {
    parts_are_lawful(checked.desc());
    match SessionOf::new(alloc, checked, views.windows, views.bodies) {
        Ok(mut session) => perform_all(alloc, &mut session),
        Err(_) => Err(Ending::NoMemory),
    }
}

fn performed(alloc: Global) -> Result<(), Ending> {
    let checked = checked_of(alloc, CANCEL)?;
    let views = views_of(alloc, &checked)?;
    perform_over(alloc, checked, views)
}

#[test]
fn performing(rt: HostRuntime) -> Result<(), Fail> {
    expect_whole(performed(rt.alloc()))
}
