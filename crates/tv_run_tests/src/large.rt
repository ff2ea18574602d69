//! Runs of descriptions near the limits.

use crate::running::expect_run;
use std::test::Fail;
use tv_test_support::large::large_description;

// Nine windows and sixteen dialogs of sixty views, of which the first is opened twice.
#[test]
fn sixteen_dialogs(rt: HostRuntime) -> Result<(), Fail> {
    let alloc = rt.alloc();
    let desc = large_description(alloc)?;
    let digits = "0123456789".repeat(alloc, 12)?;
    let fields = format!(in alloc;
        "end d0 cancel
field i \"{digits}\"
field f \"{digits}\"
field q \"{digits}\"
field k 1 2 3 4 5 6 7 8 9 10 11 12 13 14 15 16
field r 16
field l 100
"
    )?;
    let wanted = format!(in alloc;
        "open d0\nfocus i\n{fields}open d0\nfocus i\nfocus l\n{fields}"
    )?;
    expect_run(
        alloc,
        &desc,
        "key Esc\nkey F1\nkey Alt-L\nkey Esc\n",
        &wanted,
    )
}

// One dialog of sixty views, the last of which is a button.
#[test]
fn sixty_views(rt: HostRuntime) -> Result<(), Fail> {
    let alloc = rt.alloc();
    let texts = "text 40 22 20 30 \"row\\nrow\\n\"\n".repeat(alloc, 59)?;
    let desc = format!(in alloc;
        "tvd 1
screen 132 60
start d
dialog d 0 1 132 58 \"\" ends cancel
{texts}button c 1 2 10 \"~C~ancel\" cancel
end
"
    )?;
    let wanted = "open d\nfocus c\npress c\nend d cancel\n";
    expect_run(alloc, &desc, "key Tab\nkey Enter\n", wanted)
}
