//! Views for which no session is made.

use crate::bodies::{checked, first_body, first_dialog};
use crate::making::views;
use crate::naming::{id_of, put};
use crate::opening::with_values;
use std::alloc::Global;
use std::process::Abort;
use std::test::Fail;
use tv_check::Checked;
use tv_model::{Record, Value};
use tv_session::{Refused, Session, SessionFault, Views};
use tv_test_support::descriptions::{CANCEL, ORDER, WINDOWS};
use tv_valid::Text;
use tv_view::View;

// What is done to the views of a description.
#[derive(Clone, Copy, Debug)]
enum Edit {
    Nothing,
    /// The only body is taken away.
    Missing,
    /// A second body is handed in after the only one.
    OneTooMany,
    /// The first window changes its place with the second.
    Exchanged,
}

impl Edit {
    fn make(
        self,
        views: &mut Views<Box<dyn View>>,
        other: Views<Box<dyn View>>,
    ) -> Result<(), Fail> {
        match self {
            Edit::Nothing => {}
            Edit::Missing => views.bodies.clear(),
            Edit::OneTooMany => {
                for body in other.bodies {
                    views.bodies.push(body)?;
                }
            }
            Edit::Exchanged => {
                if views.windows.len() < 2 {
                    return Err("there are no two windows".into());
                }
                views.windows.swap(0, 1);
            }
        }
        Ok(())
    }

    // Takes the edit back.
    fn mend(
        self,
        views: &mut Views<Box<dyn View>>,
        other: Views<Box<dyn View>>,
    ) -> Result<(), Fail> {
        match self {
            Edit::OneTooMany => {
                views.bodies.truncate(1);
                Ok(())
            }
            Edit::Missing => Edit::OneTooMany.make(views, other),
            edit => edit.make(views, other),
        }
    }
}

// Why no session is made over the views, if so, with what came back.
fn refusal(
    alloc: Global,
    checked: Checked,
    views: Views<Box<dyn View>>,
) -> Option<Refused<Box<dyn View>>> {
    Session::new(alloc, checked, views.windows, views.bodies).err()
}

// Why no session was made. Fails unless one is made of what came back, after that was put right by views that are as declared.
fn expect_mended(
    alloc: Global,
    refused: Refused<Box<dyn View>>,
    other: Views<Box<dyn View>>,
    edit: Edit,
) -> Result<SessionFault, Fail> {
    let Refused {
        fault,
        checked,
        windows,
        bodies,
    } = refused;
    let mut again = Views { windows, bodies };
    edit.mend(&mut again, other)?;
    match refusal(alloc, checked, again) {
        None => Ok(fault),
        Some(refused) => Err(Fail::new(format_args!("{} after {fault}", refused.fault))),
    }
}

fn refusal_after(alloc: Global, desc: &str, edit: Edit) -> Result<Option<SessionFault>, Fail> {
    let checked = checked(alloc, desc)?;
    let mut made = views(alloc, &checked, None)?;
    edit.make(&mut made, views(alloc, &checked, None)?)?;
    match refusal(alloc, checked, made) {
        None => Ok(None),
        Some(refused) => {
            let other = views(alloc, &refused.checked, None)?;
            Ok(Some(expect_mended(alloc, refused, other, edit)?))
        }
    }
}

const EDITS: [(&str, Edit, Option<SessionFault>); 6] = [
    (CANCEL, Edit::Nothing, None),
    (CANCEL, Edit::Missing, Some(SessionFault::ViewMismatch(1))),
    (ORDER, Edit::Nothing, None),
    (ORDER, Edit::OneTooMany, Some(SessionFault::ViewMismatch(2))),
    (WINDOWS, Edit::Nothing, None),
    (
        WINDOWS,
        Edit::Exchanged,
        Some(SessionFault::ViewMismatch(1)),
    ),
];

#[test]
fn mismatches(rt: HostRuntime) -> Result<(), Fail> {
    for &(desc, edit, wanted) in &EDITS {
        assert_eq!(rt;
            refusal_after(rt.alloc(), desc, edit)?,
            wanted,
            "{edit:?} in {desc}"
        );
    }
    Ok(())
}

// The views of the order form, whose amount has another value than it is declared with.
fn changed_views(alloc: Global, checked: &Checked) -> Result<Views<Box<dyn View>>, Fail> {
    let dialog = first_dialog(checked)?;
    let body = first_body(alloc, checked)?;
    let mut values = Record::new();
    body.gather(&mut values);
    let amount = Text::from_chars(&['2']).ok_or("one character")?;
    put(&mut values, id_of(dialog, "amount")?, Value::Text(amount))?;
    let mut bodies = Vec::new(alloc);
    bodies.push(with_values(alloc, dialog, body, &values)?)?;
    Ok(Views {
        windows: Vec::new(alloc),
        bodies,
    })
}

#[test]
fn a_changed_value(rt: HostRuntime) -> Result<(), Fail> {
    let alloc = rt.alloc();
    let checked = checked(alloc, ORDER)?;
    let changed = changed_views(alloc, &checked)?;
    let mut refused = refusal(alloc, checked, changed).ok_or("the value isn't seen")?;
    assert_eq!(rt; refused.fault, SessionFault::ViewMismatch(1));
    refused.bodies.clear();
    let other = views(alloc, &refused.checked, None)?;
    expect_mended(alloc, refused, other, Edit::Missing)?;
    Ok(())
}
