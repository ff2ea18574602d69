//! The menu bar and the status line.
#![tactic(auto)]

mod bar;
mod bar_face;
mod bars;
mod box_face;
mod boxes;
mod colours;
mod damage;
mod drawing;
mod effect;
mod keys;
mod menus;
mod offered;
mod row;
mod spaced_text;
mod spot;
mod status;
mod status_face;
mod titles;

pub use bars::{MenuBar, StatusLine};
pub use effect::Place;
pub use offered::Offered;
