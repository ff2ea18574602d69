//! What changes while a run goes on.

use crate::colours::Colours;
use crate::dragging::HeldFrame;
use crate::log::Log;
use tv_cells::Damage;
use tv_dialogs::DialogsOf;
use tv_menu::MenuBar;
use tv_view::View;
use tv_window::DeskOf;

/// What changes while a run goes on: its windows, dialogs and menus, the frame that is dragged, and the lines of its last
/// event.
#[derive(Drop)]
pub(crate) struct RunOf<V> {
    pub(crate) desk: DeskOf<V>,
    pub(crate) dialogs: DialogsOf<V>,
    pub(crate) bar: MenuBar,
    /// The frame that the mouse holds.
    pub(crate) frame: Option<HeldFrame>,
    /// Whether the run is over, after `quit`.
    pub(crate) is_over: bool,
    pub(crate) log: Log,
    /// Those of windows, which stay.
    pub(crate) colours: Colours,
    /// What the last event changed of what the screen shows.
    pub(crate) damage: Damage,
}
