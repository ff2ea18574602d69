//! The decoder, which is fed byte by byte.

ghost use Rattle.std.specs.Prelude.{◌≡◌, [], ◌∷◌, IfSome, false, true};
ghost use Rattle.tv_terminal.specs.Decoding.{HearsLeaving, at_pause, anew_given, anew_kept, between, given, heard, heard_at_pause, heard_while, is_pasted, left_by, pasting_after};
ghost use Rattle.tv_terminal.specs.Sent.{IsSentAction};
ghost use Rattle.tv_terminal.specs.Sequences.{reading_of};

use crate::action::Action;
use crate::reading::{Reading, reading_of};
use arrayvec::ArrayVec;
use std::marker::Model;
use tv_event::{Event, Key};

/// How many bytes a sequence has at most that means something.
const MOST: usize = 32;

/// What xterm and others put around a pasted text, once they are asked to (mode 2004).
const PASTE_BEGIN: &[u8] = b"\x1b[200~";

const PASTE_END: &[u8] = b"\x1b[201~";

/// Bytes of a terminal as keys, characters and the mouse. Contracts see it as the bytes that are unfinished, the front
/// of a sequence or of a character in UTF-8, and whether a paste goes on.
///
/// Of a pasted text only its characters are typed: a Tab, a line end or an escape sequence in it is no key.
///
/// It takes no memory. Bytes may come in any pieces.
#[derive(Drop)]
pub struct Decoder {
    // Room for one byte more than is kept.
    bytes: ArrayVec<u8, 33>,
    is_pasting: bool,
}

impl Model for Decoder {
    ghost use Rattle.std.specs.Prelude.{◌≤◌, length};
    ghost use Rattle.tv_terminal.specs.Decoding.{Listening};

    ghost Value = { Listening };

    ghost view = { λ d. record { bytes = d.bytes.items; is_pasting = d.is_pasting } };

    ghost invariant = { λ d. length d.bytes.items ≤ 32 };
}

impl Decoder {
    /// Makes a decoder to which nothing has come.
    pub fn new() -> Decoder
        ensures { result ≡ between false }
    {
        Decoder {
            bytes: ArrayVec::new(),
            is_pasting: false,
        }
    }

    /// Takes the next byte, and returns what the user did, if that is known with it. Ctrl-\ always is, and Ctrl-C unless it
    /// is pasted (`leaving`).
    #[tactic(auto, using(crate::proofs::SentLemmas::byte_is_sent, crate::proofs::PasteLemmas::only_pasted, crate::proofs::PasteLemmas::leaving_heard))]
    pub fn take(&mut self, byte: u8) -> Option<Action>
        ensures heard { result ≡ heard self.old byte }
        ensures kept { self.new ≡ left_by self.old byte }
        ensures sent { IfSome result IsSentAction }
        ensures pasted { self.old.is_pasting ≡ true → IfSome result (λ action. is_pasted action ≡ true) }
        ensures leaving { HearsLeaving self.old.is_pasting byte result }
    {
        let is_pasting = self.is_pasting;
        let meant = self.follow(byte);
        heard_while(is_pasting, meant)
    }

    // Takes the next byte: with what is unfinished, or anew.
    fn follow(&mut self, byte: u8) -> Option<Action>
        ensures given { result ≡ given self.old.bytes byte }
        ensures kept { self.new ≡ left_by self.old byte }
    {
        let at_pause = at_pause(self.bytes.as_slice());
        self.bytes.push(byte);
        self.is_pasting = is_pasting_after(self.is_pasting, self.bytes.as_slice());
        match reading_of(self.bytes.as_slice()) {
            Reading::Unfinished => {
                self.bytes.truncate(MOST);
                None
            }
            Reading::Whole(action) => {
                let is_short = self.bytes.len() <= MOST;
                self.bytes.clear();
                if is_short { action } else { None }
            }
            Reading::Broken => {
                self.bytes.clear();
                let action = self.first(byte);
                if byte == 0x1b { at_pause } else { action }
            }
        }
    }

    // Takes a byte that begins anew.
    fn first(&mut self, byte: u8) -> Option<Action>
        requires { self.old.bytes ≡ [] }
        ensures given { result ≡ anew_given (reading_of (byte ∷ [])) }
        ensures kept { self.new.bytes ≡ anew_kept byte (reading_of (byte ∷ [])) }
        ensures pasting { self.new.is_pasting ≡ self.old.is_pasting }
    {
        match reading_of(&[byte]) {
            Reading::Unfinished => {
                self.bytes.push(byte);
                None
            }
            Reading::Whole(action) => action,
            Reading::Broken => None,
        }
    }

    /// Takes notice that for a while no byte came, or that none comes any more. ESC alone was the key Esc.
    pub fn pause(&mut self) -> Option<Action>
        ensures heard { result ≡ heard_at_pause self.old }
        ensures kept { self.new ≡ between self.old.is_pasting }
        ensures sent { IfSome result IsSentAction }
    {
        let meant = at_pause(self.bytes.as_slice());
        let heard = heard_while(self.is_pasting, meant);
        self.bytes.clear();
        heard
    }
}

// Whether a paste goes on after these bytes.
fn is_pasting_after(was: bool, bytes: &[u8]) -> bool
    ensures { result ≡ pasting_after was bytes.now }
{
    if bytes == PASTE_BEGIN {
        return true;
    }
    was && bytes != PASTE_END
}

// Whether an action is heard within a paste.
fn is_pasted(action: Action) -> bool
    ensures { result ≡ is_pasted action }
{
    matches!(
        action,
        Action::Event(Event::Key(Key::Char(_))) | Action::Quit
    )
}

// What is heard of an action.
fn heard_while(is_pasting: bool, meant: Option<Action>) -> Option<Action>
    ensures { result ≡ heard_while is_pasting meant }
{
    match meant {
        Some(action) if is_pasted(action) || !is_pasting => meant,
        _ => None,
    }
}

// What unfinished bytes are where a pause or ESC follows.
fn at_pause(bytes: &[u8]) -> Option<Action>
    ensures { result ≡ at_pause bytes.now }
{
    let key = match bytes {
        [0x1b] => Key::Esc,
        [0x1b, b'O'] => Key::Alt('O'),
        _ => return None,
    };
    Some(Action::Event(Event::Key(key)))
}
