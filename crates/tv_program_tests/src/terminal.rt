//! What terminals send, and runs in one that is in memory.

mod decoding;
mod failures;
mod runs;
mod sent;
mod sessions;
