//! What a run allocates for a script that comes in pieces.
//!
//! Both tests pass with ample memory. Where each allocation is refused in turn, both pass from the same one on: so a script of
//! ten thousand lines makes no more of them than one of a single line.

use crate::pieces::Repeated;
use crate::streams::expect_end;
use std::alloc::Global;
use std::test::Fail;
use tv_test_support::descriptions::CANCEL;

fn expect_lines(alloc: Global, times: usize) -> Result<(), Fail> {
    let mut script = Repeated {
        line: "key Tab\n",
        left: times,
        is_ended: false,
    };
    expect_end(alloc, CANCEL, &mut script, "Ok(())", "open a\nfocus c\n")
}

#[test]
fn one_line(rt: HostRuntime) -> Result<(), Fail> {
    expect_lines(rt.alloc(), 1)
}

#[test]
fn ten_thousand_lines(rt: HostRuntime) -> Result<(), Fail> {
    expect_lines(rt.alloc(), 10_000)
}
