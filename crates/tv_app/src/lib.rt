//! A description's text, run from a program: its dialogs shown, its events handled, and its records read; and the toolkit's
//! own controls as one type, of which its views are made.
#![tactic(auto)]

mod app;
mod control;
mod fault;
mod fields;
mod making;
mod names;
mod opening;
mod panes;
mod setting;
mod sheets;

pub use app::App;
pub use control::Control;
pub use fault::OpenFault;
pub use making::{views, views_by};
pub use names::dialog_place;
pub use opening::open;
pub use setting::{SetFault, Unset};
pub use sheets::LayFault;
pub use tv_cells::{Canvas, Cell, Point, Rect, Screen};
pub use tv_event::{Command, Event, Key};
pub use tv_lang::LangFault;
pub use tv_model::{Desc, Fault, FaultKind, Id, LogLine, Record, Sequence, Value};
pub use tv_session::Views;
pub use tv_valid::Text;
pub use tv_view::ControlFault;
