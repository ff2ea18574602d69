//! Readers.

ghost use Rattle.std.specs.Prelude.{◌≡◌, ◌<◌, ◌≤◌, length, take, IfSome, None};
ghost use Rattle.tv_io.specs.Reader.{Given, Gives, GivesNot};

/// What bytes come from. Contracts see the bytes that it gave and those that it has left, where they are known, how many
/// of its calls failed, and whether its last call was the end.
pub trait Reader {
    ghost seen: { Self → Given };

    /// Puts bytes into the room, from its front, and returns how many. None are the end; `None` is a failure.
    fn read(&mut self, room: &mut [u8]) -> Option<usize>
        requires { 0 < length room.old }
        ensures bound { IfSome result (λ count. count ≤ length room.new) }
        ensures gave { IfSome result (λ count. Gives (seen self.old) (seen self.new) (take count room.new)) }
        ensures failed { result ≡ None → GivesNot (seen self.old) (seen self.new) };
}
