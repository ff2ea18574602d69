//! What views answer to events.

use tv_event::Command;
use tv_model::Id;

/// What a view answers to an event, and so what it asks of its owner.
///
/// All but `Pass` say that the event was consumed, and that no other view is to get it.
#[derive(Clone, Copy, Debug, PartialEq, Eq)]
pub enum Reaction {
    /// The event was not consumed.
    Pass,
    /// It was consumed, and nothing is asked for.
    Done,
    /// The control is to receive the focus, if it is free. If a mouse down gets this answer and the focus is granted,
    /// the same down goes once more, with the same environment, to the topmost leaf at the point. That is the leaf that
    /// answered, and not the control that got the focus, which may be a label's link. If it answers `Focus` again,
    /// nothing more happens.
    Focus(Id),
    /// As `Focus`; if the focus is granted, the item of the cluster is then to be selected and pressed.
    FocusPress(Id, u8),
    /// The button was pressed, and its command is to be handled.
    Post(Id, Command),
    /// A mark of the cluster may have changed, so that rules are to be applied.
    Changed(Id),
    /// The control holds the mouse from now on: moves and the mouse up are to go to it.
    Capture(Id),
    /// The control doesn't hold the mouse any longer, and nothing else is asked for.
    Release,
}
