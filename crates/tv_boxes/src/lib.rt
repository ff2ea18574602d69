//! Ready dialogs: the text of a description of what `dialog` would show, from its arguments.
#![tactic(auto)]

mod answering;
mod arguments;
mod asking;
mod buttons;
mod items;
mod layout;
mod lines;
mod making;
mod misuse;
mod request;
mod sameness;
mod settings;
mod size;
mod unfit;
mod views;
mod wrap;

pub use answering::{Refusal, box_text};
pub use arguments::{read_request, words_of};
pub use making::{BoxFault, boxed};
pub use misuse::Misuse;
pub use request::{BoxKind, Choices, FormField, Item, Labels, Request};
pub use unfit::{Part, Unfit};
