//! Descriptions that are read, printed, searched and planned.

use super::ending::{Ending, expect, expect_whole};
use super::fixtures::{FOUR, checked_of, desc_of};
use std::alloc::Global;
use std::test::Fail;
use tv_check::{DescFault, examine, faults};
use tv_lang::{LangFault, parse, print};
use tv_test_support::descriptions::{CANCEL, SHARED_LETTER};

// What a text is refused for, where it isn't for want of memory.
fn fault_of(alloc: Global, text: &str) -> Result<Option<LangFault>, Ending> {
    match parse(alloc, text.as_bytes()).err() {
        Some(LangFault::NoMemory) => Err(Ending::NoMemory),
        fault => Ok(fault),
    }
}

// The whole text, without its last line, and of another version.
const READ: [(&str, Option<LangFault>); 3] = [
    (CANCEL, None),
    (
        "tvd 1\nscreen 20 10\nmenu \"~F~\"\n",
        Some(LangFault::Syntax(4)),
    ),
    ("tvd 7\nscreen 20 10\n", Some(LangFault::Version)),
];

fn read_texts(alloc: Global) -> Result<(), Ending> {
    for &(text, wanted) in &READ {
        expect(fault_of(alloc, text)? == wanted, "another fault")?;
    }
    Ok(())
}

#[test]
fn texts(rt: HostRuntime) -> Result<(), Fail> {
    expect_whole(read_texts(rt.alloc()))
}

fn printed(alloc: Global) -> Result<(), Ending> {
    let desc = desc_of(alloc, CANCEL)?;
    let text = print(alloc, &desc)?;
    expect(text.as_str() == CANCEL, "another text")
}

#[test]
fn printing(rt: HostRuntime) -> Result<(), Fail> {
    expect_whole(printed(rt.alloc()))
}

// One fault, and none: a letter that two buttons mark, and one button.
fn searched(alloc: Global) -> Result<(), Ending> {
    for (text, count) in [(SHARED_LETTER, 1), (CANCEL, 0)] {
        let desc = desc_of(alloc, text)?;
        let list = faults(alloc, &desc)?;
        expect(list.as_slice().len() == count, "other faults")?;
    }
    Ok(())
}

#[test]
fn searching(rt: HostRuntime) -> Result<(), Fail> {
    expect_whole(searched(rt.alloc()))
}

fn examined(alloc: Global) -> Result<(), Ending> {
    let desc = desc_of(alloc, CANCEL)?;
    match examine(alloc, desc) {
        Ok(_) => Ok(()),
        Err(DescFault::NoMemory) => Err(Ending::NoMemory),
        Err(DescFault::Faults(_)) => Err(Ending::Other("it is refused")),
    }
}

#[test]
fn examining(rt: HostRuntime) -> Result<(), Fail> {
    expect_whole(examined(rt.alloc()))
}

fn planned(alloc: Global) -> Result<(), Ending> {
    let checked = checked_of(alloc, FOUR)?;
    let plan = checked.build_plan(alloc)?;
    expect(plan.len() == 10, "another plan")
}

#[test]
fn planning(rt: HostRuntime) -> Result<(), Fail> {
    expect_whole(planned(rt.alloc()))
}
