//! A run of a checked description through its views, and its screen; and how its views are put together.
#![tactic(auto)]

mod area;
mod before;
mod begun;
mod build_fault;
mod building;
mod colours;
mod commands;
mod dragging;
mod events;
mod fault;
mod freshness;
mod giving;
mod laying;
mod leaving;
mod log;
mod making;
mod paint;
mod parts;
mod run;
mod session;

pub use build_fault::BuildFault;
pub use building::{Building, Views};
pub use fault::SessionFault;
pub use making::Refused;
pub use parts::parts_are_lawful;
pub use session::{Session, SessionOf};
pub use tv_dialog::{Dialog, DialogFault, DialogOf};
pub use tv_window::{Window, WindowOf};
