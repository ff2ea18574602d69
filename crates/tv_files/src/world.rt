//! What the program has of the system outside.

/// What the program has of the system outside: its files, and what it draws into, hears and writes.
///
/// Contracts see what is known of each part, by `known_world`.
#[derive(Drop)]
pub struct World<F, A, P, O, E> {
    /// Where files are opened, a `FileStore`.
    pub files: F,
    /// Where the pictures of a script's shots go, an `Album`.
    pub album: A,
    /// What a description that is played hears, `Pieces`.
    pub pieces: P,
    /// Where results, faults and refusals go.
    pub out: O,
    /// Where messages go, and the screen of what is played.
    pub err: E,
}
