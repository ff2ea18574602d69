//! What events make of the rules that hold, and what they never reach, as contracts.
ghost use Rattle.tv_laws.specs.Runs.{HasSoundDialogs};
ghost use Rattle.tv_laws.specs.Sound.{IsSoundDialog};
ghost use Rattle.tv_reach.specs.Givers.{EndsAreGiven};
ghost use Rattle.tv_reach.specs.Marks.{EventsMoveOne, HiddenTextsStay};
ghost use Rattle.tv_reach.specs.Masks.{ClosedHolds};
ghost use Rattle.tv_reach.specs.Never.{DialogsRise, NeverReached};
ghost use Rattle.tv_reach.specs.Runs.{RunsWithin};

use tv_model::{Desc, Dialog};

/// A theorem, as a function without a body: an event changes the marks and the text of one leaf at
/// most, which was visible before.
pub fn marks_move(_dialog: &Dialog)
    requires sound { IsSoundDialog _dialog.now }
    ensures { EventsMoveOne _dialog.now }
{}

/// A theorem, as a function without a body: an event leaves the texts of hidden inputs as they were.
pub fn texts_move(_dialog: &Dialog)
    requires sound { IsSoundDialog _dialog.now }
    ensures { HiddenTextsStay _dialog.now }
{}

/// A theorem, as a function without a body: the rules that hold in an open dialog stay within a closed list of masks,
/// whatever the event.
pub fn closed_holds(_dialog: &Dialog)
    requires sound { IsSoundDialog _dialog.now }
    ensures { ClosedHolds _dialog.now }
{}

/// A theorem, as a function without a body: an event that ends a dialog but by `cancel` presses an enabled button, which is
/// visible or the default, while no input's text lies outside its domain.
pub fn ends_are_given(_dialog: &Dialog)
    requires sound { IsSoundDialog _dialog.now }
    ensures { EndsAreGiven _dialog.now }
{}

/// A theorem, as a function without a body: after any events the rules that hold in a dialog, open or saved, lie within
/// a mask of a closed list, and what is hidden under every mask has the text that is declared.
pub fn runs_within(_desc: &Desc)
    requires sound { HasSoundDialogs _desc.now }
    ensures { RunsWithin _desc.now }
{}

/// A theorem, as a function without a body: what there is a reason against, by a closed list of masks, is reached by no
/// events.
pub fn never_reached(_desc: &Desc)
    requires sound { HasSoundDialogs _desc.now }
    requires rise { DialogsRise _desc.now }
    ensures { NeverReached _desc.now }
{}
