//! A pen writes texts one after another, and nothing more once its writer failed.

ghost use Rattle.std.specs.Prelude.{◌≡◌, ◌∷◌, [], false, decimal, encode_utf8, flat_map};
ghost use Rattle.std.specs.Fmt.{signed_decimal};
ghost use Rattle.tv_io.specs.Pen.{Puts, PutsPart};

use crate::utf8::push_char;
use crate::writer::{Writer, write_all};
use arrayvec::ArrayVec;
use itoa::Buffer;

/// The most bytes of characters that are written at once.
const RUN: usize = 64;

/// A writer, and whether it failed.
#[derive(Drop)]
pub struct Pen<'a, W: Writer> {
    pub out: &'a mut W,
    pub stopped: bool,
}

impl<'a, W: Writer> Pen<'a, W> {
    /// Writes the bytes, unless the writer failed before.
    pub fn put(&mut self, bytes: &[u8])
        ensures { Puts W.seen self.old self.new bytes.now }
    {
        if !self.stopped {
            let out = &mut *self.out;
            self.stopped = write_all(out, bytes).is_err();
        }
    }

    /// Passes on what the writer took and keeps back, unless it failed before. Stops where that can't be passed on.
    pub fn pass_on(&mut self)
        ensures puts { Puts W.seen self.old self.new [] }
        ensures none { self.new.stopped ≡ false → (W.seen self.new.out.now).kept ≡ [] }
    {
        if !self.stopped {
            let out = &mut *self.out;
            self.stopped = out.pass_on().is_err();
        }
    }

    /// Writes the characters in UTF-8.
    pub fn put_chars(&mut self, chars: &[char])
        ensures { Puts W.seen self.old self.new (flat_map encode_utf8 chars.now) }
    {
        let mut waiting: ArrayVec<u8, RUN> = ArrayVec::new();
        for ch in chars {
            self.gather(&mut waiting, *ch);
        }
        self.put(waiting.as_slice());
    }

    // Adds the character to the bytes that wait. Writes those first where there may be no room for it.
    fn gather(&mut self, waiting: &mut ArrayVec<u8, RUN>, ch: char)
        ensures { PutsPart W.seen self.old self.new waiting.old.items (encode_utf8 ch) waiting.new.items }
    {
        if waiting.remaining_capacity() < 4 {
            self.put(waiting.as_slice());
            waiting.clear();
        }
        push_char(waiting, ch);
    }

    /// Writes the character in UTF-8.
    pub fn put_char(&mut self, ch: char)
        ensures { Puts W.seen self.old self.new (encode_utf8 ch) }
    {
        let mut buffer = [0u8; 4];
        self.put(ch.encode_utf8(&mut buffer).as_bytes());
    }

    /// Writes the place in decimal digits.
    pub fn put_place(&mut self, place: usize)
        ensures { Puts W.seen self.old self.new (decimal place) }
    {
        let mut buffer = Buffer::new();
        self.put(buffer.format(place).as_bytes());
    }

    /// Writes the number in decimal digits.
    pub fn put_number(&mut self, number: u32)
        ensures { Puts W.seen self.old self.new (decimal number) }
    {
        let mut buffer = Buffer::new();
        self.put(buffer.format(number).as_bytes());
    }

    /// Writes the number in decimal digits, with `-` before those of a negative one.
    pub fn put_signed(&mut self, value: i32)
        ensures { Puts W.seen self.old self.new (signed_decimal value) }
    {
        let mut buffer = Buffer::new();
        self.put(buffer.format(value).as_bytes());
    }
}
