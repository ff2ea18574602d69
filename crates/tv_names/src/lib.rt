//! Names, letters and keys that are given twice or mean nothing, and what rules name, show and reach: F1, F4 to F9 and F17.
#![tactic(auto)]

mod exits;
mod focus;
mod given;
mod keys;
mod labels;
mod letters;
mod marked;
mod menus;
mod names;
mod sharing;
mod showing;
mod unknown;

pub use exits::rules_cancel;
pub use focus::has_nothing_to_focus;
pub use given::{dialogs_named_again, names_again, windows_named_again};
pub use keys::{bad_keys, is_status_key};
pub use labels::unlinked_labels;
pub use letters::{marked_of, marks, marks_any};
pub use marked::marks_again;
pub use menus::{items_again, numbered_again, titled_again};
pub use names::Names;
pub use sharing::{Sharing, shared_letters};
pub use showing::{is_cluster, show_themselves};
pub use unknown::{has_target, unknown_names};
