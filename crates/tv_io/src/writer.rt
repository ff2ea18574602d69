//! Writers, and how a whole text is written to one.

ghost use Rattle.std.specs.Prelude.{◌≡◌, ◌<◌, ◌≤◌, length, take, IfSome, unwrap_or, MatchResult};
ghost use Rattle.tv_io.specs.Writer.{Seen, Takes, Fails, Cuts, PassesOn};

/// What a text is written to. Contracts see the bytes that it took, where they are known, those of them that it keeps back, and
/// how many of its calls failed or took nothing; that count stays at the greatest `u64`.
pub trait Writer {
    ghost seen: { Self → Seen };

    /// Offers bytes, and tells how many of them were taken, from the front; `None` is a failure.
    fn write(&mut self, bytes: &[u8]) -> Option<usize>
        requires { 0 < length bytes.now }
        ensures bound { IfSome result (λ count. count ≤ length bytes.now) }
        ensures took { 0 < unwrap_or result 0 → Takes (seen self.old) (seen self.new) (take (unwrap_or result 0) bytes.now) }
        ensures failed { unwrap_or result 0 ≡ 0 → Fails (seen self.old) (seen self.new) };

    /// Passes on what was taken and is kept back, so that who waits for it at the other end gets it. It fails where some of it
    /// can't be passed on.
    fn pass_on(&mut self) -> Result<(), WriteFailed>
        ensures { PassesOn (seen self.old) (seen self.new) result };
}

/// A writer failed, or took nothing.
#[derive(Clone, Copy, Debug, PartialEq, Eq)]
pub struct WriteFailed;

/// Writes the whole text, in as many calls as the writer needs.
pub fn write_all<W: Writer>(out: &mut W, text: &[u8]) -> Result<(), WriteFailed>
    ensures { MatchResult result
        (λ _. Takes (W.seen out.old) (W.seen out.new) text.now)
        (λ _. Cuts (W.seen out.old) (W.seen out.new) text.now) }
{
    let mut taken = 0;
    while taken < text.len() {
        match out.write(&text[taken..]) {
            Some(count) if count > 0 => taken += count,
            _ => return Err(WriteFailed),
        }
    }
    Ok(())
}
