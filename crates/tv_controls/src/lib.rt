//! Static texts, labels, buttons and input lines, each of which does what its kind's table says.
#![tactic(auto)]

mod button;
mod input_line;
mod label;
mod line_edit;
mod static_text;

pub use button::Button;
pub use input_line::InputLine;
pub use label::Label;
pub use static_text::StaticText;
pub use tv_view::ControlFault;
