//! What letters act on in every open dialog, as a contract.
ghost use Rattle.tv_laws.specs.Letters.{CertificateNamesMarker, HasLines, KeysActAsNamed, LettersHaveOneMarker, NamedActOnControls};
ghost use Rattle.tv_laws.specs.Letters.{OneLineInFirstVersion, RefusedFocusChangesNothing, UnableNamedDoNothing, VisibleIsMarker};
ghost use Rattle.tv_laws.specs.Sound.{IsSoundDialog};

use tv_model::{Dialog, Version};

/// A theorem, as a function without a body: in a sound dialog a shortcut is the act of what a sound certificate names for its
/// letter by the line that holds, or nothing. Other controls keep their values, the mouse what it holds, and the log its lines.
pub fn shortcuts_act(_version: Version, _dialog: &Dialog)
    requires sound { IsSoundDialog _dialog.now }
    requires lines { HasLines _version _dialog.now }
    ensures keys { KeysActAsNamed _version _dialog.now }
    ensures unable { UnableNamedDoNothing _dialog.now }
    ensures refused { RefusedFocusChangesNothing _dialog.now }
    ensures acts { NamedActOnControls _version _dialog.now }
    ensures once { LettersHaveOneMarker _dialog.now }
    ensures visible { VisibleIsMarker _dialog.now }
    ensures marker { CertificateNamesMarker _version _dialog.now }
    ensures first { OneLineInFirstVersion _dialog.now }
{}
