//! The order of Tab, as a contract.
ghost use Rattle.tv_laws.specs.Leaving.{TabAsksNext};
ghost use Rattle.tv_laws.specs.Order.{FreeAreControls, RefusalStays, ShiftTabAsksPrevious, StopsAreTabs, TabGoesRound, TabKeepsValues};
ghost use Rattle.tv_laws.specs.Sound.{IsSoundDialog};

use tv_model::Dialog;

/// A theorem, as a function without a body: Tab goes round the free controls of a sound dialog in the order of its
/// certificate, and Shift-Tab the other way. Both leave every value as it was, and only an input may keep the focus.
pub fn tab_goes_round(_dialog: &Dialog)
    requires sound { IsSoundDialog _dialog.now }
    ensures stops { StopsAreTabs _dialog.now }
    ensures controls { FreeAreControls _dialog.now }
    ensures asks_next { TabAsksNext _dialog.now }
    ensures asks_previous { ShiftTabAsksPrevious _dialog.now }
    ensures stays { RefusalStays _dialog.now }
    ensures keeps { TabKeepsValues _dialog.now }
    ensures round { TabGoesRound _dialog.now }
{}
