//! What holds of every run and of every open dialog, as contracts.
ghost use Rattle.tv_machine.specs.Safe.{IsAlwaysSafe, StandOnDesktop};
ghost use Rattle.tv_laws.specs.Letters.{LettersAlwaysHaveOneMarker};
ghost use Rattle.tv_laws.specs.Leaving.{EscCancels, TabGoesOn, UpLetsGo};
ghost use Rattle.tv_laws.specs.Runs.{FitIsSafe, HasSoundDialogs, ReachesFit, RecordsFit, RunsFit, StartsFit};
ghost use Rattle.tv_laws.specs.Sheets.{RunsBare, SheetsFit, StartsBare};
ghost use Rattle.tv_laws.specs.Sound.{IsSoundDialog};
ghost use Rattle.tv_laws.specs.Steps.{OpensFit, StaysFit};

use tv_model::{Desc, Dialog};

/// A theorem, as a function without a body: a run of a description whose dialogs are sound starts fit, and events, commands
/// that the program gives and records that it hands in keep it so. No letter ever has two visible markers.
pub fn runs_stay_fit(_desc: &Desc)
    requires sound { HasSoundDialogs _desc.now }
    ensures starts { StartsFit _desc.now }
    ensures runs { RunsFit _desc.now }
    ensures records { RecordsFit _desc.now }
    ensures reaches { ReachesFit _desc.now }
    ensures once { LettersAlwaysHaveOneMarker _desc.now }
{}

/// A theorem, as a function without a body: no run has sheets but those that its program lays, and a fit state stays fit where one
/// is laid, or taken away.
pub fn sheets_are_laid(_desc: &Desc)
    ensures starts { StartsBare _desc.now }
    ensures runs { RunsBare _desc.now }
    ensures fit { SheetsFit _desc.now }
{}

/// A theorem, as a function without a body: every fit state is safe, and so each that events lead to, where the dialogs
/// stand on the desktop.
pub fn runs_are_safe(_desc: &Desc)
    requires sound { HasSoundDialogs _desc.now }
    requires stand { StandOnDesktop _desc.now }
    ensures fit { FitIsSafe _desc.now }
    ensures safe { IsAlwaysSafe _desc.now }
{}

/// A theorem, as a function without a body: a sound dialog opens, stays usable and can be left.
pub fn dialog_stays_fit(_dialog: &Dialog)
    requires sound { IsSoundDialog _dialog.now }
    ensures opens { OpensFit _dialog.now }
    ensures stays { StaysFit _dialog.now }
    ensures cancels { EscCancels _dialog.now }
    ensures lets_go { UpLetsGo _dialog.now }
    ensures goes_on { TabGoesOn _dialog.now }
{}
