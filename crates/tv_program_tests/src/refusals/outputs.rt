//! What a run writes to: a terminal's painter.

use super::ending::{Ending, expect_whole};
use std::alloc::Global;
use std::test::Fail;
use tv_cells::ScreenFault;
use tv_terminal::{Colours, Painter};

fn made_painter(alloc: Global) -> Result<(), Ending> {
    match Painter::new(alloc, 132, 60, Colours::Sixteen) {
        Ok(_) => Ok(()),
        Err(ScreenFault::NoMemory) => Err(Ending::NoMemory),
        Err(ScreenFault::BadSize) => Err(Ending::Other("the size is refused")),
    }
}

#[test]
fn painter(rt: HostRuntime) -> Result<(), Fail> {
    expect_whole(made_painter(rt.alloc()))
}
