//! The declarations of a description, each read from the words of its line.
#![tactic(auto)]

mod cluster;
mod commands;
mod declaration;
mod input;
mod items;
mod keys;
pub mod keywords;
mod marked;
mod node;
mod place;

pub use commands::{command, command_name};
pub use declaration::{Declaration, declared};
pub use keys::{key, key_name, key_of, token_key};
pub use place::Position;
