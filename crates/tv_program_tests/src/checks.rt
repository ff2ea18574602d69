//! Checks, acceptances and runs of texts that are too long or large, without the declared views, and into writers that fail.

use crate::calls::{Call, expect_cuts, expect_stop};
use std::alloc::Global;
use std::test::Fail;
use tv_test_support::certificates::CANCEL_CERTIFICATE;
use tv_test_support::descriptions::{CANCEL, COLOUR, MENUS, ORDER, SHARED_LETTER, WINDOWS};
use tv_test_support::large::{large_certificate, large_description};
use tv_test_support::{expect_answer, expect_answers, expect_row, expect_rows};

#[test]
fn descriptions_too_long(rt: HostRuntime) -> Result<(), Fail> {
    expect_too_long(&Call::Check, rt.alloc())
}

// One byte more than a description or a certificate may have.
fn expect_too_long(call: &Call<'_>, alloc: Global) -> Result<(), Fail> {
    let too_long = "#".repeat(alloc, 262_145)?;
    expect_answer(call, alloc, &too_long, "tvdlg: NAME: too long\nstatus 1\n")
}

#[test]
fn certificates_too_long(rt: HostRuntime) -> Result<(), Fail> {
    let files = Call::AcceptFiles { desc: ORDER };
    let text = Call::AcceptText { desc: ORDER };
    expect_too_long(&files, rt.alloc())?;
    expect_too_long(&text, rt.alloc())
}

// Views are made once both texts have passed, and have to be those that the description declares.
const VIEWS: &str = r#"dialog d 2 2 36 11 "" ends ok cancel
input i 1 1 8 4 any ""
end
=> tvdlg: view refused
=> status 1
dialog d 2 2 36 11 "" ends cancel
input i 1 1 8 4 any ""
button c 1 2 10 "~C~" cancel
end
=> tvdlg: view refused
=> status 1
dialog d 2 2 36 11 "" ends ok
input i 1 1 8 4 any ""
end
=> F10 line 3
=> status 1
window w 1 1 20 5 1 ""
text 1 1 5 1 "C"
end
=> tvdlg: view refused
=> status 1
window w 1 1 20 5 1 ""
end
=> status 0
dialog d 2 2 36 11 "" opens 100 ends cancel
button c 1 1 10 "~C~" cancel default grab
end
=> status 0
dialog d 2 2 36 11 "" ends cancel
button c 1 1 10 "~C~" stop
end
=> tvdlg: NAME: syntax at line 4
=> status 1
"#;

const NO_ITEMS: Call<'static> = Call::Run { script: "" };

#[test]
fn views_of_another_kind(rt: HostRuntime) -> Result<(), Fail> {
    expect_answers(&NO_ITEMS, rt.alloc(), "tvd 1\nscreen 40 14\n", VIEWS, "")
}

const REFUSED_VIEW: &str = "tvdlg: view refused\nstatus 1\n";

#[test]
fn examples_without_their_views(rt: HostRuntime) -> Result<(), Fail> {
    const ROWS: [(&str, &str); 6] = [
        (ORDER, REFUSED_VIEW),
        (COLOUR, REFUSED_VIEW),
        (WINDOWS, REFUSED_VIEW),
        (CANCEL, REFUSED_VIEW),
        (MENUS, "status 0\n"),
        (SHARED_LETTER, "F4 line 8\nstatus 1\n"),
    ];
    expect_rows(&Call::RunBare { script: "" }, rt.alloc(), &ROWS)
}

// A script that is no script isn't looked at where the views are refused.
#[test]
fn scripts_are_read_last(rt: HostRuntime) -> Result<(), Fail> {
    for call in [
        Call::Run {
            script: "key Foo\n",
        },
        Call::RunBare {
            script: "key Foo\n",
        },
    ] {
        let rows = [(ORDER, REFUSED_VIEW), (WINDOWS, REFUSED_VIEW)];
        expect_rows(&call, rt.alloc(), &rows)?;
    }
    Ok(())
}

#[test]
fn writers_that_fail(rt: HostRuntime) -> Result<(), Fail> {
    expect_cuts(&Call::Check, rt.alloc(), CANCEL, CANCEL_CERTIFICATE, 5)
}

#[test]
fn acceptance_that_cannot_be_written(rt: HostRuntime) -> Result<(), Fail> {
    let accepting = Call::AcceptFiles { desc: CANCEL };
    expect_stop(&accepting, rt.alloc(), CANCEL_CERTIFICATE)
}

fn expect_checked(alloc: Global, text: &str, certificate: &str) -> Result<(), Fail> {
    let wanted = format!(in alloc; "{certificate}status 0\n")?;
    expect_row(&Call::Check, alloc, text, &wanted)
}

// Where there is memory, nothing is refused for the want of it.
#[test]
fn large_descriptions(rt: HostRuntime) -> Result<(), Fail> {
    let desc = large_description(rt.alloc())?;
    let certificate = large_certificate(rt.alloc())?;
    expect_checked(rt.alloc(), &desc, &certificate)?;
    for call in [
        Call::AcceptFiles { desc: &desc },
        Call::AcceptText { desc: &desc },
    ] {
        expect_answer(&call, rt.alloc(), &certificate, "accepted\nstatus 0\n")?;
    }
    Ok(())
}
