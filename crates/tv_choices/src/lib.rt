//! Check boxes, radio buttons and lists, each of which does what its kind's table says.
#![tactic(auto)]

mod check_boxes;
mod chosen;
mod cluster;
mod list_box;
mod marking;
mod radio_buttons;

pub use check_boxes::CheckBoxes;
pub use list_box::ListBox;
pub use radio_buttons::RadioButtons;
