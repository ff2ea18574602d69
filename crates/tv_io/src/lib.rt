//! Readers and writers: where a text comes from, and how it reaches a file, a pipe or a terminal.
#![tactic(auto)]

mod device;
mod file_reader;
mod gathering;
mod pen;
mod read_fault;
mod reader;
mod reading;
mod room;
mod utf8;
mod writer;

pub use device::Device;
pub use file_reader::FileReader;
pub use gathering::Gathering;
pub use pen::Pen;
pub use read_fault::ReadFault;
pub use reader::Reader;
pub use reading::read_text;
pub use room::show;
pub use utf8::push_char;
pub use writer::{WriteFailed, Writer, write_all};
