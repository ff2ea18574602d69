//! The order in which views are made.

use std::test::Fail;
use tv_test_support::certificates::ORDER_CERTIFICATE;
use tv_test_support::descriptions::{MENUS, ORDER, WINDOWS};
use tv_test_support::{Planning, PlanningWith, expect_answer, expect_rows};

const ORDER_PLAN: &str = "open b
leaf line 7
leaf amount
leaf opts
open more
leaf qty
close
leaf ok
leaf no
leaf log
close
";

const WINDOWS_PLAN: &str = "open one
leaf line 4
close
open two
leaf line 7
close
";

#[test]
fn plans(rt: HostRuntime) -> Result<(), Fail> {
    const ROWS: [(&str, &str); 3] = [(ORDER, ORDER_PLAN), (WINDOWS, WINDOWS_PLAN), (MENUS, "")];
    expect_rows(&Planning, rt.alloc(), &ROWS)
}

// Windows before dialogs, panes in panes, empty ones, and panes that end together.
const NESTED: &str = r#"tvd 1
screen 40 14
window w 1 1 20 5 1 ""
end
dialog d 2 2 36 11 "" ends cancel
pane p 1 1 20 3
pane q 0 0 20 2
button a 0 0 10 "~A~" cancel
end
end
pane r 1 5 20 1
end
button c 1 7 10 "~C~" cancel
end
dialog e 2 2 36 11 "" ends cancel
pane s 1 1 20 3
pane t 0 0 20 1
end
button b 0 1 10 "~B~" cancel
end
end
"#;

const NESTED_PLAN: &str = "open w
close
open d
open p
open q
leaf a
close
close
open r
close
leaf c
close
open e
open s
open t
close
leaf b
close
close
";

#[test]
fn nested_panes(rt: HostRuntime) -> Result<(), Fail> {
    expect_answer(&Planning, rt.alloc(), NESTED, NESTED_PLAN)
}

// The plan is that of the description also where the certificate was read.
#[test]
fn plan_after_reading(rt: HostRuntime) -> Result<(), Fail> {
    let read = PlanningWith {
        certificate: ORDER_CERTIFICATE,
    };
    expect_answer(&read, rt.alloc(), ORDER, ORDER_PLAN)
}
