//! The lines of a text and their words: how each stands in a line, what it can be, and how a line of words is written.
#![tactic(auto)]

mod decimal;
mod line_text;
mod lines;
mod scan;
mod token;
mod tokens;
mod word;
mod written;

pub use decimal::number;
pub use line_text::with_line;
pub use lines::Lines;
pub use scan::words_of;
pub use token::{BareText, QuotedChars, QuotedText, Token};
pub use tokens::{Tokens, tokens_of};
pub use word::{Word, Words, is_same};
pub use written::WrittenWord;
