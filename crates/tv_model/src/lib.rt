//! What a description says, what a run's records and log hold, and, in specs/, what each kind of view is and does and what a
//! description must not do.
#![tactic(auto)]

mod command;
mod copy;
mod desc;
mod fault;
mod items;
mod keys;
mod kind;
mod log;
mod node;
mod number;
mod on_heap;
mod record;

pub use command::{CommandSpec, Ends};
pub use desc::{
    Desc, Dialog, Effect, Menu, MenuItem, Rule, StatusItem, Version, When, Window, node_of,
};
pub use fault::{Fault, FaultKind};
pub use items::is_item;
pub use keys::is_same_key;
pub use kind::{
    Button, CheckBoxes, DialogHead, Input, Kind, Label, ListBox, MarkedText, Pane, RadioButtons,
    StaticText, WindowHead,
};
pub use log::LogLine;
pub use node::{Id, Node};
pub use number::natural;
pub use on_heap::{OnHeap, empty_record};
pub use record::{Entry, Record, Value};
pub use tv_valid::Sequence;
