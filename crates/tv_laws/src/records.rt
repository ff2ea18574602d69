//! What runs log and save of dialogs that end, what they show of it, and how dialogs can be left, as contracts.
ghost use Rattle.tv_laws.specs.Escape.{EscCancelsOpen, UpEscCancels, UpEscLeaves, UpFreesFrame, UpFreesMouse};
ghost use Rattle.tv_laws.specs.Records.{DeclareCancel, EndsAsDeclared, SavesWhatItLogs, StaysOver};
ghost use Rattle.tv_laws.specs.Records.{OpensAsSaved, ReopensAsSaved, StartsAsDeclared};
ghost use Rattle.tv_laws.specs.Runs.{HasSoundDialogs};
ghost use Rattle.tv_laws.specs.Sound.{IsSoundDialog};

use tv_model::{Desc, Dialog};

/// A theorem, as a function without a body: every run ends dialogs as they declare, saves what it logs of them, and
/// shows that when they open again.
pub fn records_are_kept(_desc: &Desc)
    requires sound { HasSoundDialogs _desc.now }
    ensures ends { EndsAsDeclared _desc.now }
    ensures cancel { DeclareCancel _desc.now }
    ensures saves { SavesWhatItLogs _desc.now }
    ensures reopens { ReopensAsSaved _desc.now }
    ensures starts { StartsAsDeclared _desc.now }
{}

/// A theorem, as a function without a body: every run can leave the dialog that is open, and nothing happens once it is
/// over.
pub fn dialogs_can_be_left(_desc: &Desc)
    requires sound { HasSoundDialogs _desc.now }
    ensures cancels { EscCancelsOpen _desc.now }
    ensures frees { UpFreesMouse _desc.now }
    ensures frees_frame { UpFreesFrame _desc.now }
    ensures leaves { UpEscLeaves _desc.now }
    ensures cancels_left { UpEscCancels _desc.now }
    ensures over { StaysOver _desc.now }
{}

/// A theorem, as a function without a body: a sound dialog opens with what was saved of it.
pub fn dialog_shows_record(_dialog: &Dialog)
    requires sound { IsSoundDialog _dialog.now }
    ensures shows { OpensAsSaved _dialog.now }
{}
