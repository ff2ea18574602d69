//! Sessions that are refused, since their views aren't those that the description declares.

use crate::makers::checked;
use std::alloc::Global;
use std::test::Fail;
use tv_check::Checked;
use tv_controls::Button;
use tv_session::{Refused, SessionFault, SessionOf, Views};
use tv_test_support::button_views::buttons;

// Two windows without views, and two dialogs.
const FOUR_VIEWS: &str = r#"tvd 1
screen 30 12
start b
window one 1 1 16 4 1 "One"
end
window two 8 3 20 4 2 "Two"
end
dialog a 2 2 14 4 "Q" opens 100 ends cancel
button c 2 1 10 "~C~ancel" cancel
end
dialog b 3 3 14 4 "R" opens 101 ends cancel
button m 2 1 10 "~M~ore" 100
end
"#;

// How the views differ from those that are declared.
#[derive(Clone, Copy, Debug)]
enum Change {
    Nothing,
    NoViews,
    NoBodies,
    WindowMissing,
    BodyMissing,
    WindowTooMany,
    BodyTooMany,
    WindowsExchanged,
    BodiesExchanged,
}

fn changed(alloc: Global, checked: &Checked, change: Change) -> Result<Views<Button>, Fail> {
    let mut views = buttons(alloc, checked)?;
    let mut more = buttons(alloc, checked)?;
    match change {
        Change::Nothing => {}
        Change::NoViews => {
            views.windows.clear();
            views.bodies.clear();
        }
        Change::NoBodies => views.bodies.clear(),
        Change::WindowMissing => views.windows.truncate(1),
        Change::BodyMissing => views.bodies.truncate(1),
        Change::WindowTooMany => views.windows.append(&mut more.windows)?,
        Change::BodyTooMany => views.bodies.append(&mut more.bodies)?,
        Change::WindowsExchanged => views.windows.reverse(),
        Change::BodiesExchanged => views.bodies.reverse(),
    }
    Ok(views)
}

// The first of the changed views that isn't as it is declared.
fn mismatch(alloc: Global, change: Change) -> Result<Option<usize>, Fail> {
    let checked = checked(alloc, FOUR_VIEWS)?;
    let views = changed(alloc, &checked, change)?;
    match SessionOf::new(alloc, checked, views.windows, views.bodies) {
        Ok(_) => Ok(None),
        Err(refused) => mismatch_of(&refused),
    }
}

fn mismatch_of(refused: &Refused<Button>) -> Result<Option<usize>, Fail> {
    match refused.fault {
        SessionFault::ViewMismatch(place) => Ok(Some(place)),
        SessionFault::NoMemory => Err(Fail::new("no memory")),
    }
}

// Windows count before bodies.
#[test]
fn refused_views(rt: HostRuntime) -> Result<(), Fail> {
    for &(change, wanted) in &[
        (Change::Nothing, None),
        (Change::NoViews, Some(1)),
        (Change::NoBodies, Some(3)),
        (Change::WindowMissing, Some(2)),
        (Change::BodyMissing, Some(4)),
        (Change::WindowTooMany, Some(3)),
        (Change::BodyTooMany, Some(5)),
        (Change::WindowsExchanged, Some(1)),
        (Change::BodiesExchanged, Some(3)),
    ] {
        let found = mismatch(rt.alloc(), change)?;
        assert_eq!(rt; found, wanted, "{change:?}");
    }
    Ok(())
}
