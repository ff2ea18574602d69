//! Checked descriptions, and sessions over their views.

ghost use Rattle.std.specs.Prelude.{IfOk};
ghost use Rattle.tv_machine.specs.Run.{started};
ghost use Rattle.tv_session.specs.Session.{StandsFor};

use std::alloc::Global;
use std::test::Fail;
use tv_check::Checked;
use tv_program::read_checked;
use tv_session::{SessionOf, Views};
use tv_view::View;

/// The checked description that a text spells.
pub fn checked(alloc: Global, text: &str) -> Result<Checked, Fail> {
    match read_checked(alloc, text.as_bytes()) {
        Ok(checked) => Ok(checked),
        Err(_) => Err(Fail::new("no sound description")),
    }
}

/// The start of a run of a checked description through its views.
pub fn session<V: View>(
    alloc: Global,
    checked: Checked,
    views: Views<V>,
) -> Result<SessionOf<V>, Fail>
    ensures { IfOk result (λ session. StandsFor V.meaning session (started checked)) }
{
    match SessionOf::new(alloc, checked, views.windows, views.bodies) {
        Ok(session) => Ok(session),
        Err(refused) => Err(Fail::new(format_args!("{}", refused.fault))),
    }
}
