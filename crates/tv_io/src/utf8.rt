//! Characters as bytes.

ghost use Rattle.std.specs.Prelude.{◌≡◌, ◌≤◌, ◌+◌, ◌++◌, encode_utf8};
ghost use Rattle.arrayvec.specs.ArrayVec.{array_vec_len};

use arrayvec::ArrayVec;

/// Adds the character in UTF-8 to bytes that have room for four more.
pub fn push_char<const CAPACITY: usize>(bytes: &mut ArrayVec<u8, CAPACITY>, ch: char)
    requires { array_vec_len bytes.old + 4 ≤ CAPACITY }
    ensures bytes { bytes.new.items ≡ bytes.old.items ++ encode_utf8 ch }
    ensures few { array_vec_len bytes.new ≤ array_vec_len bytes.old + 4 }
{
    // Most characters are ASCII ones, each of which is its own byte.
    if ch.is_ascii() {
        bytes.push(ch as u8);
    } else {
        push_encoded(bytes, ch);
    }
}

fn push_encoded<const CAPACITY: usize>(bytes: &mut ArrayVec<u8, CAPACITY>, ch: char)
    requires { array_vec_len bytes.old + 4 ≤ CAPACITY }
    ensures bytes { bytes.new.items ≡ bytes.old.items ++ encode_utf8 ch }
    ensures few { array_vec_len bytes.new ≤ array_vec_len bytes.old + 4 }
{
    let mut buffer = [0u8; 4];
    for byte in ch.encode_utf8(&mut buffer).as_bytes() {
        bytes.push(*byte);
    }
}
