//! The kinds of faults, by the lines that they may name.

ghost use Rattle.std.specs.Prelude.{◌≡◌};
ghost use Rattle.tv_explain.specs.Groups.{kind_of};

use tv_model::FaultKind;

/// The kinds of faults. Those that views alone can have are an enum of their own, and so are those of rules: what is
/// said of other lines lists each of the two as one.
#[derive(Clone, Copy)]
pub enum FaultGroup {
    /// F1: of a window, a dialog or a view.
    NameTwice,
    /// F2: of a dialog or a view.
    OutsideOwner,
    /// F5: of a status item.
    StatusKey,
    /// F9: of a dialog.
    NothingToFocus,
    /// F10: of a dialog or a view.
    MissingEnd,
    /// F14: of any line with a text.
    WideCharacter,
    /// F15: of any line.
    OutsideLimits,
    /// F16: of a dialog or the `start`.
    BadOpening,
    /// F17: of a menu, an item of a menu, a window or a rule.
    MenuLetter,
    /// Those of views alone.
    OfView(ViewFault),
    /// Those of rules alone.
    OfRule(RuleFault),
}

/// The kinds of faults that views alone can have.
#[derive(Clone, Copy)]
pub enum ViewFault {
    /// F3.
    Overlap,
    /// F4.
    LetterTwice,
    /// F6.
    LabelLink,
    /// F11.
    SecondDefault,
    /// F12.
    EmptyDomain,
    /// F13.
    BadStart,
}

/// The kinds of faults that rules alone can have.
#[derive(Clone, Copy)]
pub enum RuleFault {
    /// F7.
    UnknownInRule,
    /// F8.
    ShowsItself,
}

/// Finds the group of a kind of faults.
pub fn group_of(kind: FaultKind) -> FaultGroup
    ensures { kind_of result ≡ kind }
{
    match kind {
        FaultKind::NameTwice => FaultGroup::NameTwice,
        FaultKind::OutsideOwner => FaultGroup::OutsideOwner,
        FaultKind::Overlap => FaultGroup::OfView(ViewFault::Overlap),
        FaultKind::LetterTwice => FaultGroup::OfView(ViewFault::LetterTwice),
        FaultKind::StatusKey => FaultGroup::StatusKey,
        FaultKind::LabelLink => FaultGroup::OfView(ViewFault::LabelLink),
        FaultKind::UnknownInRule => FaultGroup::OfRule(RuleFault::UnknownInRule),
        FaultKind::ShowsItself => FaultGroup::OfRule(RuleFault::ShowsItself),
        FaultKind::NothingToFocus => FaultGroup::NothingToFocus,
        FaultKind::MissingEnd => FaultGroup::MissingEnd,
        FaultKind::SecondDefault => FaultGroup::OfView(ViewFault::SecondDefault),
        FaultKind::EmptyDomain => FaultGroup::OfView(ViewFault::EmptyDomain),
        FaultKind::BadStart => FaultGroup::OfView(ViewFault::BadStart),
        FaultKind::WideCharacter => FaultGroup::WideCharacter,
        FaultKind::OutsideLimits => FaultGroup::OutsideLimits,
        FaultKind::BadOpening => FaultGroup::BadOpening,
        FaultKind::MenuLetter => FaultGroup::MenuLetter,
    }
}
