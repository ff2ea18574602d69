//! A user in memory.

ghost use Rattle.std.specs.Prelude.{None};

use tv_play::{Piece, Pieces};

/// Sends some bytes, and then nothing more.
#[derive(Drop)]
pub struct User<'a> {
    left: &'a [u8],
    /// What comes after them can't be read.
    is_torn: bool,
    failures: u64,
    is_ended: bool,
}

impl<'a> User<'a> {
    /// Sends these bytes. Then nothing comes, or reading fails.
    pub fn new(sent: &'a [u8], is_torn: bool) -> User<'a> {
        User {
            left: sent,
            is_torn,
            failures: 0,
            is_ended: false,
        }
    }

    /// Sends nothing.
    pub fn silent() -> User<'a> {
        User::new(b"", false)
    }
}

impl Pieces for User<'_> {
    ghost heard = { λ user. record { left = None; failures = user.failures; is_ended = user.is_ended } };

    fn next(&mut self, room: &mut [u8]) -> Option<Piece> {
        let left = self.left;
        let count = left.len().min(room.len());
        self.is_ended = false;
        if count > 0 {
            room[..count].copy_from_slice(&left[..count]);
            self.left = &left[count..];
            return Some(Piece::Bytes(count));
        }
        if self.is_torn {
            self.failures = self.failures.saturating_add(1);
            return None;
        }
        self.is_ended = true;
        Some(Piece::End)
    }
}
