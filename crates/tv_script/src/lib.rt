//! Scripts: read from a text, whole or in pieces, and performed on what a run shows and logs.
#![tactic(auto)]

mod feed;
mod feeding;
mod lines;
mod performing;
mod script;
mod script_line;
mod script_text;
mod shot;
mod stage;
mod stream_fault;
mod streaming;
mod tape;

pub use lines::{end_word, put_escaped_char, put_field, put_log, put_name};
pub use performing::{perform, put_waiting_log};
pub use script::Script;
pub use script_text::{ScriptFault, parse_items};
pub use stage::Stage;
pub use stream_fault::StreamFault;
pub use streaming::{cuts_decide_nothing, judgements_are_right, perform_from};
pub use tape::{put_event, put_event_line, tapes_are_scripts};
