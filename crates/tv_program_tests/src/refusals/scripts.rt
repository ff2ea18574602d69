//! Scripts that are read.

use super::ending::{Ending, expect, expect_whole};
use std::alloc::Global;
use std::test::Fail;
use tv_script::{Script, ScriptFault};

fn read_script(alloc: Global) -> Result<(), Ending> {
    let text = b"key Tab\ntype \"ab\"\ndown 1 1\nshot\n";
    match Script::parse(alloc, text, 20, 10) {
        Ok(script) => expect(script.items().len() == 5, "other items"),
        Err(ScriptFault::NoMemory) => Err(Ending::NoMemory),
        Err(_) => Err(Ending::Other("the script is refused")),
    }
}

#[test]
fn script(rt: HostRuntime) -> Result<(), Fail> {
    expect_whole(read_script(rt.alloc()))
}

fn refused_script(alloc: Global) -> Result<(), Ending> {
    match Script::parse(alloc, b"key Tab\ndown 20 1\n", 20, 10).err() {
        Some(ScriptFault::NoMemory) => Err(Ending::NoMemory),
        fault => expect(fault == Some(ScriptFault::OffScreen(2)), "another fault"),
    }
}

#[test]
fn faulty_script(rt: HostRuntime) -> Result<(), Fail> {
    expect_whole(refused_script(rt.alloc()))
}
