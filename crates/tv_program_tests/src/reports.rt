//! What is told of a run that didn't come to its end.

use crate::calls::{report_into, run_into};
use std::alloc::Global;
use std::test::Fail;
use tv_answers::AnswersFault;
use tv_check::CertificateFault;
use tv_lang::LangFault;
use tv_program::Trouble;
use tv_script::ScriptFault;
use tv_test_support::descriptions::WITHOUT_CANCEL;
use tv_test_support::{Idle, Memory};

// Fails where a fault has another message or status than this, and where anything is told elsewhere.
fn expect_report(alloc: Global, fault: &Trouble, message: &str, status: u8) -> Result<(), Fail> {
    let mut out = Memory::ample(alloc)?;
    let mut err = Memory::ample(alloc)?;
    let answer = report_into(fault, &mut out, &mut err);
    let is_told = err.taken() == message.as_bytes() && out.taken().is_empty();
    if is_told && answer == status {
        return Ok(());
    }
    Err(Fail::new(format_args!("{fault:?}: status {answer}")))
}

const ON_TEXTS: [(Trouble, &str); 13] = [
    (
        Trouble::Lang(LangFault::Syntax(2)),
        "tvdlg: NAME: syntax at line 2\n",
    ),
    (Trouble::Lang(LangFault::TooLong), "tvdlg: NAME: too long\n"),
    (
        Trouble::Lang(LangFault::Version),
        "tvdlg: NAME: unknown version\n",
    ),
    (
        Trouble::Script(ScriptFault::Syntax(100)),
        "tvdlg: NAME: syntax at line 100\n",
    ),
    (
        Trouble::Script(ScriptFault::OffScreen(12)),
        "tvdlg: NAME: off screen at line 12\n",
    ),
    (
        Trouble::Script(ScriptFault::TooLong),
        "tvdlg: NAME: too long\n",
    ),
    (
        Trouble::Answers(AnswersFault::Syntax(3)),
        "tvdlg: NAME: syntax at line 3\n",
    ),
    (
        Trouble::Answers(AnswersFault::TooLong),
        "tvdlg: NAME: too long\n",
    ),
    (
        Trouble::Cert(CertificateFault::Syntax(7)),
        "tvdlg: NAME: syntax at line 7\n",
    ),
    (
        Trouble::Cert(CertificateFault::TooLong),
        "tvdlg: NAME: too long\n",
    ),
    (Trouble::NoAnswers, "tvdlg: NAME: no answers\n"),
    (Trouble::Misfits, ""),
    (Trouble::View, "tvdlg: view refused\n"),
];

#[test]
fn reports_on_texts(rt: HostRuntime) -> Result<(), Fail> {
    for (fault, message) in &ON_TEXTS {
        expect_report(rt.alloc(), fault, message, 1)?;
    }
    Ok(())
}

const ON_MEMORY_AND_DEVICES: [(Trouble, &str); 6] = [
    (Trouble::Lang(LangFault::NoMemory), "tvdlg: no memory\n"),
    (Trouble::Script(ScriptFault::NoMemory), "tvdlg: no memory\n"),
    (
        Trouble::Answers(AnswersFault::NoMemory),
        "tvdlg: no memory\n",
    ),
    (Trouble::NoMemory, "tvdlg: no memory\n"),
    (Trouble::Read, "tvdlg: cannot read NAME\n"),
    (Trouble::Write, "tvdlg: cannot write\n"),
];

#[test]
fn reports_on_memory_and_devices(rt: HostRuntime) -> Result<(), Fail> {
    for (fault, message) in &ON_MEMORY_AND_DEVICES {
        expect_report(rt.alloc(), fault, message, 3)?;
    }
    Ok(())
}

// Fails where a fault has another status, or leaves anything but this on a writer that fails after so many bytes.
fn expect_begun(alloc: Global, fault: &Trouble, prefix: &str, status: u8) -> Result<(), Fail> {
    let mut err = Memory::new(alloc, prefix.len(), 5)?;
    let mut out = Idle { calls: 0 };
    let answer = report_into(fault, &mut out, &mut err);
    if answer == status && err.taken() == prefix.as_bytes() && out.calls == 0 {
        return Ok(());
    }
    Err(Fail::new(format_args!("{fault:?}: status {answer}")))
}

const BEGUN: [(Trouble, &str, u8); 4] = [
    (Trouble::Lang(LangFault::Syntax(2)), "tvdlg: NAME", 1),
    (Trouble::Script(ScriptFault::Syntax(100)), "tvdlg: NAME", 1),
    (Trouble::Write, "tvdlg: canno", 3),
    (Trouble::NoMemory, "tvdlg: no me", 3),
];

#[test]
fn statuses_where_writers_fail(rt: HostRuntime) -> Result<(), Fail> {
    for (fault, prefix, status) in &BEGUN {
        expect_begun(rt.alloc(), fault, prefix, *status)?;
    }
    Ok(())
}

// Runs a faulty description with a writer, and tells that of its faults. Returns the status, and how often standard error was
// called; and no status where it runs.
fn run_and_report(alloc: Global, desc: &str, out: &mut Memory) -> (Option<u8>, u64) {
    let mut err = Idle { calls: 0 };
    let status = match run_into(alloc, desc.as_bytes(), b"", out) {
        Ok(()) => None,
        Err(fault) => Some(report_into(&fault, out, &mut err)),
    };
    (status, err.calls)
}

#[test]
fn faults_where_writers_fail(rt: HostRuntime) -> Result<(), Fail> {
    let mut out = Memory::new(rt.alloc(), 5, 4)?;
    let told = run_and_report(rt.alloc(), WITHOUT_CANCEL, &mut out);
    assert_eq!(rt; told, (Some(1), 0));
    assert_eq!(rt; str::from_utf8(out.taken())?, "F10 l");
    Ok(())
}
