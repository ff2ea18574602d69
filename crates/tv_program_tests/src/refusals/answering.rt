//! Dialogs that are given the ends that a log answers.

use super::ending::{Ending, expect, expect_whole};
use super::fixtures::desc_of;
use std::alloc::Global;
use std::test::Fail;
use tv_program::{AnswerFault, NamedLog, RunFault, answer_text};
use tv_test_support::Memory;
use tv_test_support::button_views::buttons;

const QUESTION: &str = r#"tvd 1
screen 30 12
dialog a 2 2 14 4 "Q" ends ok cancel
button g 2 1 10 "~G~o" ok
end
"#;

const LOG: &str = "open a\nfocus g\nend a ok\n";

// Where memory was refused, nothing is written.
fn ended(alloc: Global) -> Result<(), Ending> {
    let desc = desc_of(alloc, QUESTION)?;
    let mut out = Memory::ample(alloc)?;
    let mut told = Memory::ample(alloc)?;
    let text = LOG.as_bytes();
    let log = NamedLog { name: "LOG", text };
    match answer_text(alloc, desc, log, &buttons, &mut out, &mut told) {
        Ok(()) => expect(out.taken() == text, "another text"),
        Err(AnswerFault::Run(RunFault::NoMemory)) => {
            expect(out.taken().is_empty(), "a part of the text")?;
            Err(Ending::NoMemory)
        }
        Err(_) => Err(Ending::Other("another fault")),
    }
}

#[test]
fn ending(rt: HostRuntime) -> Result<(), Fail> {
    expect_whole(ended(rt.alloc()))
}
