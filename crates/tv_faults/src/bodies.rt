//! Windows and dialogs as what has views, whose domains and starts were judged.

ghost use Rattle.std.specs.Prelude.{◌≡◌, map, IfOk, option_copied};
ghost use Rattle.tv_model.specs.Description.Sharing.{sharing_rules};
ghost use Rattle.tv_faults.specs.Starts.{AreStartsIn, starts_of};

use crate::starts::{StartFaults, judge_starts};
use std::alloc::{AllocError, Global};
use tv_model::{Desc, Dialog, Ends, Node, Rule, Sequence, Version, Window};

/// The views of a window or dialog, its frame, with its ends, with the rules by which letters may be shared, if any, and
/// with what their domains and starts have.
#[derive(Drop)]
pub struct Body<'a> {
    pub frame: &'a Node,
    pub ends: Ends,
    pub sharing: Option<&'a [Rule]>,
    pub views: &'a [Node],
    pub starts: &'a [StartFaults],
    ghost judged: { starts.now ≡ starts_of views.now },
}

/// What the domains and starts of all views have, window by window and dialog by dialog.
#[derive(Drop)]
pub struct Starts {
    pub in_windows: Sequence<Sequence<StartFaults>>,
    pub in_dialogs: Sequence<Sequence<StartFaults>>,
}

/// Returns the rules by which letters of the dialog may be shared: in version 1 there are none.
pub fn sharing_rules(version: Version, dialog: &Dialog) -> Option<&[Rule]>
    ensures { option_copied result ≡ sharing_rules version dialog.now.rules }
{
    match version {
        Version::One => None,
        Version::Two => Some(dialog.rules.as_slice()),
    }
}

fn judge_windows(
    alloc: Global,
    windows: &[Window],
) -> Result<Sequence<Sequence<StartFaults>>, AllocError>
    ensures { IfOk result (λ starts. starts ≡ map (λ window. starts_of window.views) windows.now) }
{
    let mut starts = Sequence::new(alloc);
    for window in windows {
        starts.push(judge_starts(alloc, window.views.as_slice())?)?;
    }
    Ok(starts)
}

fn judge_dialogs(
    alloc: Global,
    dialogs: &[Dialog],
) -> Result<Sequence<Sequence<StartFaults>>, AllocError>
    ensures { IfOk result (λ starts. starts ≡ map (λ dialog. starts_of dialog.views) dialogs.now) }
{
    let mut starts = Sequence::new(alloc);
    for dialog in dialogs {
        starts.push(judge_starts(alloc, dialog.views.as_slice())?)?;
    }
    Ok(starts)
}

/// Judges the domain and the start of each view of the description.
pub fn judge_all_starts(alloc: Global, desc: &Desc) -> Result<Starts, AllocError>
    ensures { IfOk result (AreStartsIn desc.now) }
{
    Ok(Starts {
        in_windows: judge_windows(alloc, desc.windows.as_slice())?,
        in_dialogs: judge_dialogs(alloc, desc.dialogs.as_slice())?,
    })
}
