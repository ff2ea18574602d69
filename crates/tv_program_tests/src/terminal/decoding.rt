//! What terminals send, through the decoder.

mod keys;
mod others;

use tv_terminal::{Action, Decoder};

// Whether the bytes, and a pause after them, give these actions and no others.
fn gives(bytes: &[u8], actions: &[Action]) -> bool {
    let mut decoder = Decoder::new();
    let mut left = actions;
    for byte in bytes {
        if let Some(action) = decoder.take(*byte) {
            match left {
                [first, others @ ..] if *first == action => left = others,
                _ => return false,
            }
        }
    }
    match decoder.pause() {
        Some(action) => matches!(left, [last] if *last == action),
        None => left.is_empty(),
    }
}
