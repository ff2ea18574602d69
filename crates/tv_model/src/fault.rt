//! What a description may do wrong.

ghost use Rattle.std.specs.Prelude.{◌≡◌};
ghost use Rattle.tv_model.specs.Faults.{fault_number};

use std::fmt;

/// A fault of a well-formed description, with the line of the canonical text that it names.
#[derive(Clone, Copy, Debug, PartialEq, Eq)]
pub struct Fault {
    pub kind: FaultKind,
    pub line: u32,
}

/// Writes the fault as `check` reports it: `F4 line 8`.
impl fmt::Display for Fault {
    ghost use Rattle.std.specs.Prelude.{Some};
    ghost use Rattle.tv_model.specs.Faults.{fault_text};

    ghost output = { λ fault. Some (fault_text fault) };

    fn fmt<W: fmt::Write>(&self, f: &mut fmt::Formatter<W>) -> fmt::Result {
        let number = self.kind.number();
        let line = self.line;
        write!(f, "F{number} line {line}")
    }
}

/// The seventeen faults, in the order of their numbers: the first is F1.
#[derive(Clone, Copy, Debug, PartialEq, Eq)]
pub enum FaultKind {
    /// F1: a name that was given before.
    NameTwice,
    /// F2: a dialog not within the desktop, or a view not within its owner.
    OutsideOwner,
    /// F3: a view that overlaps an earlier one.
    Overlap,
    /// F4: a letter that was marked before.
    LetterTwice,
    /// F5: a status item's key that isn't free for it.
    StatusKey,
    /// F6: a label whose link is no control.
    LabelLink,
    /// F7: a rule over something that isn't there.
    UnknownInRule,
    /// F8: a rule that shows its own cluster.
    ShowsItself,
    /// F9: a dialog that rules may leave without a control to focus.
    NothingToFocus,
    /// F10: a missing end.
    MissingEnd,
    /// F11: a second default button.
    SecondDefault,
    /// F12: an input whose domain is empty.
    EmptyDomain,
    /// F13: a start value that can't be.
    BadStart,
    /// F14: a character that doesn't take one column.
    WideCharacter,
    /// F15: a number, size, count or length outside its limits.
    OutsideLimits,
    /// F16: an opening command or a start that can't be.
    BadOpening,
    /// F17: a letter or number of menus and windows that was given before.
    MenuLetter,
}

impl FaultKind {
    /// Returns the number by which the fault is reported, 1 to 17.
    pub fn number(self) -> u8
        ensures { result ≡ fault_number self }
    {
        match self {
            FaultKind::NameTwice => 1,
            FaultKind::OutsideOwner => 2,
            FaultKind::Overlap => 3,
            FaultKind::LetterTwice => 4,
            FaultKind::StatusKey => 5,
            FaultKind::LabelLink => 6,
            FaultKind::UnknownInRule => 7,
            FaultKind::ShowsItself => 8,
            FaultKind::NothingToFocus => 9,
            FaultKind::MissingEnd => 10,
            FaultKind::SecondDefault => 11,
            FaultKind::EmptyDomain => 12,
            FaultKind::BadStart => 13,
            FaultKind::WideCharacter => 14,
            FaultKind::OutsideLimits => 15,
            FaultKind::BadOpening => 16,
            FaultKind::MenuLetter => 17,
        }
    }
}
