//! Pieces of what a terminal sends.

ghost use Rattle.std.specs.Prelude.{◌≡◌, ◌<◌, length, IfSome, None};
ghost use Rattle.tv_play.specs.Pieces.{Comes, ComesNot, Heard, FitsRoom};

/// What came at a read.
#[derive(Clone, Copy, Debug, PartialEq, Eq)]
pub enum Piece {
    /// So many bytes, from the front of the room.
    Bytes(usize),
    /// For a while no byte came.
    Pause,
    /// No byte comes any more.
    End,
}

/// What pieces come from. Contracts see the symbols that it has left, bytes and pauses, where they are known, how many of
/// its calls failed, and whether its last call was the end.
pub trait Pieces {
    ghost heard: { Self → Heard };

    /// Waits for what comes next, and puts its bytes into the room. `None` is a failure.
    fn next(&mut self, room: &mut [u8]) -> Option<Piece>
        requires { 0 < length room.old }
        ensures within { IfSome result (λ piece. FitsRoom piece room.new) }
        ensures came { IfSome result (λ piece. Comes (heard self.old) (heard self.new) piece room.new) }
        ensures failed { result ≡ None → ComesNot (heard self.old) (heard self.new) };
}
