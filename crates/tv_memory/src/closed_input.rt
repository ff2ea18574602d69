//! An input at its end.

ghost use Rattle.std.specs.Prelude.{◌≡◌, ◌<◌, length, false, true, IfSome, None, Some};
ghost use Rattle.tv_memory.specs.Closed.{input_of};

use tv_play::{Piece, Pieces};

/// Comes to its end at once. Any further call fails.
#[derive(Drop)]
pub struct ClosedInput {
    /// The end hasn't come yet.
    is_waiting: bool,
    failures: u64,
    is_ended: bool,
}

impl ClosedInput {
    /// One that nobody has asked.
    pub fn new() -> ClosedInput
        ensures waiting { result.is_waiting ≡ true }
        ensures count { result.failures ≡ 0 }
        ensures going { result.is_ended ≡ false }
    {
        ClosedInput {
            is_waiting: true,
            failures: 0,
            is_ended: false,
        }
    }
}

impl Pieces for ClosedInput {
    ghost use Rattle.tv_play.specs.Pieces.{Comes, ComesNot, FitsRoom};
    ghost use Rattle.tv_play.specs.declared.pieces.Piece.TheVariants.{End};

    ghost heard = { λ input. input_of input.is_waiting input.failures input.is_ended };

    // The first four clauses are those of the trait, which don't stand beside one of its own.
    fn next(&mut self, _room: &mut [u8]) -> Option<Piece>
        requires { 0 < length _room.old }
        ensures within { IfSome result (λ piece. FitsRoom piece _room.new) }
        ensures came { IfSome result (λ piece. Comes (input_of self.old.is_waiting self.old.failures self.old.is_ended)
            (input_of self.new.is_waiting self.new.failures self.new.is_ended) piece _room.new) }
        ensures failed { result ≡ None → ComesNot (input_of self.old.is_waiting self.old.failures self.old.is_ended)
            (input_of self.new.is_waiting self.new.failures self.new.is_ended) }
        ensures ended { self.old.is_waiting ≡ true → result ≡ Some End }
    {
        if self.is_waiting {
            self.is_waiting = false;
            self.is_ended = true;
            return Some(Piece::End);
        }
        self.failures = self.failures.saturating_add(1);
        self.is_ended = false;
        None
    }
}
