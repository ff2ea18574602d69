//! What each kind of view paints, cell by cell.
#![tactic(auto)]

mod background;
mod button;
mod cluster;
mod corner;
mod frame;
mod input;
mod label;
mod list;
mod look;
mod pieced_text;
mod place;
mod row;
mod static_text;

pub use background::Background;
pub use button::ButtonFace;
pub use cluster::{ClusterFace, ClusterMarks};
pub use corner::Corner;
pub use frame::Frame;
pub use input::{InputColours, InputFace, first_shown};
pub use label::LabelFace;
pub use list::ListFace;
pub use look::{ButtonLook, FrameLook};
pub use pieced_text::{PiecedFace, PiecedText};
pub use place::rect_at;
pub use row::char_after_space;
pub use static_text::TextFace;
