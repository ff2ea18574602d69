//! Characters in UTF-8.

ghost use Rattle.std.specs.Prelude.{◌≡◌, ◌<◌, ◌≤◌, ◌+◌, ◌-◌, ◌*◌, ◌^◌};
ghost use Rattle.tv_terminal.specs.Sequences.{character, last_from, three_more, two_more};

use crate::reading::{Reading, only};
use crate::table::{ascii, typed_code};

// The number of a character with the six bits of one byte more.
fn with_bits(code: u32, byte: u8) -> u32
    requires code { code < 2 ^ 20 }
    requires byte { 128 ≤ byte }
    ensures { result ≡ 64 * code + (byte - 128) }
{
    64 * code + u32::from(byte - 128)
}

fn last_from(code: u32, bytes: &[u8]) -> Reading
    requires { code < 2 ^ 20 }
    ensures { result ≡ last_from code bytes.now }
{
    match bytes {
        [] => Reading::Unfinished,
        [byte @ 0x80..=0xbf, rest @ ..] => only(typed_code(with_bits(code, *byte)), rest),
        _ => Reading::Broken,
    }
}

fn two_more(low: u8, high: u8, code: u32, bytes: &[u8]) -> Reading
    requires low { 128 ≤ low }
    requires code { code < 2 ^ 13 }
    ensures { result ≡ two_more low high code bytes.now }
{
    match bytes {
        [] => Reading::Unfinished,
        [byte, rest @ ..] if low <= *byte && *byte <= high => {
            last_from(with_bits(code, *byte), rest)
        }
        _ => Reading::Broken,
    }
}

// What they are where three more bytes are to come.
fn three_more(low: u8, high: u8, code: u32, bytes: &[u8]) -> Reading
    requires low { 128 ≤ low }
    requires code { code < 2 ^ 6 }
    ensures { result ≡ three_more low high code bytes.now }
{
    match bytes {
        [] => Reading::Unfinished,
        [byte, rest @ ..] if low <= *byte && *byte <= high => {
            two_more(0x80, 0xbf, with_bits(code, *byte), rest)
        }
        _ => Reading::Broken,
    }
}

// What the bytes of a character are, by its first one and those behind it.
pub(crate) fn character(first: u8, bytes: &[u8]) -> Reading
    ensures { result ≡ character first bytes.now }
{
    match first {
        0x00..=0x7f => only(ascii(first), bytes),
        0x80..=0xc1 => Reading::Broken,
        0xc2..=0xdf => last_from(u32::from(first - 0xc0), bytes),
        0xe0 => two_more(0xa0, 0xbf, 0, bytes),
        0xed => two_more(0x80, 0x9f, 13, bytes),
        0xe1..=0xef => two_more(0x80, 0xbf, u32::from(first - 0xe0), bytes),
        0xf0 => three_more(0x90, 0xbf, 0, bytes),
        0xf1..=0xf3 => three_more(0x80, 0xbf, u32::from(first - 0xf0), bytes),
        0xf4 => three_more(0x80, 0x8f, 4, bytes),
        _ => Reading::Broken,
    }
}
