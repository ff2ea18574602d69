//! How frames and buttons stand.

ghost use Rattle.std.specs.Prelude.{◌≤◌};

/// How the frame of a window or a dialog stands.
#[derive(Clone, Copy)]
pub struct FrameLook {
    /// 1 to 9, or 0 for none.
    pub number: u8,
    pub is_active: bool,
    /// The attribute of the frame.
    pub edge: u8,
    /// The attribute of what it surrounds.
    pub inside: u8,
    ghost digit: { number ≤ 9 },
}

/// How a button stands.
#[derive(Clone, Copy)]
pub struct ButtonLook {
    pub is_focused: bool,
    pub is_default_now: bool,
    pub is_disabled: bool,
}
