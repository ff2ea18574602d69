//! How a description's text is opened.

ghost use Rattle.std.specs.Prelude.{◌≡◌, [], IfErr, IfOk};
ghost use Rattle.tv_app.specs.Opening.{IsSpelledSound, RefusesOpening, StartsText};
ghost use Rattle.tv_app.specs.Running.{Runs};
ghost use Rattle.tv_app.specs.declared.fault.OpenFault.TheVariants.{NoMemory};
ghost use Rattle.tv_machine.specs.Run.{started};

use crate::app::App;
use crate::fault::OpenFault;
use crate::making::views;
use std::alloc::Global;
use tv_check::{Checked, examine};
use tv_lang::parse;
use tv_lawful::runs_go_by_laws;
use tv_session::{SessionFault, SessionOf};

/// Opens a description's text: reads it, looks for its faults, makes its windows and dialogs of the toolkit's own controls,
/// and starts its run. The start dialog is open, if the description names one.
///
/// # Errors
///
/// `Lang` where the text isn't spelled right, `Faults` where it is but the description has faults; `NoMemory`.
pub fn open(alloc: Global, text: &[u8]) -> Result<App, OpenFault>
    ensures opened { IfOk result (StartsText text.now) }
    ensures fault { IfErr result (RefusesOpening text.now) }
{
    let checked = read_checked(alloc, text)?;
    begin(alloc, checked)
}

// The description that a text spells, where it has no faults.
fn read_checked(alloc: Global, text: &[u8]) -> Result<Checked, OpenFault>
    ensures sound { IfOk result (IsSpelledSound text.now) }
    ensures fault { IfErr result (RefusesOpening text.now) }
{
    let desc = parse(alloc, text)?;
    Ok(examine(alloc, desc)?)
}

// The run of a description at its start.
fn begin(alloc: Global, checked: Checked) -> Result<App, OpenFault>
    ensures start { IfOk result (λ app. Runs app (started checked)) }
    ensures none_repainted { IfOk result (λ app. app.session.repainted ≡ []) }
    ensures memory { IfErr result (λ fault. fault ≡ NoMemory) }
{
    let views = views(alloc, &checked)?;
    // What these two say of the description is part of what `Runs` says.
    let desc = checked.desc();
    runs_go_by_laws(desc);
    match SessionOf::new(alloc, checked, views.windows, views.bodies) {
        Ok(session) => Ok(App { session }),
        Err(refused) => match refused.fault {
            SessionFault::NoMemory => Err(OpenFault::NoMemory),
            SessionFault::ViewMismatch(_) => unreachable!(),
        },
    }
}
