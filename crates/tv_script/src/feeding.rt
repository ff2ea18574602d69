//! A script that comes in pieces, performed line by line.

ghost use Rattle.std.specs.Prelude.{◌≡◌, ◌≢◌, ◌<◌, ◌≤◌, ◌+◌, ◌++◌, ◌∷◌, [], All, List, IfErr, IfOk, MatchResult, OnOk, false, true, length, ℕ, Ok, Err};
ghost use Rattle.tv_io.specs.Writer.{Seen};
ghost use Rattle.tv_machine.specs.Run.{Session};
ghost use Rattle.tv_machine.specs.declared.script.Item.{Item as SeenItem};
ghost use Rattle.tv_script.specs.Lines.{IsItemOnScreen};
ghost use Rattle.tv_script.specs.declared.script_text.ScriptFault.TheVariants.{NoMemory};
ghost use Rattle.tv_script.specs.Reading.Scripts.{with_bytes};
ghost use Rattle.tv_script.specs.Reading.Streams.{BeginsLine, Breaks, Ends, HasPlayed, HasScreenOf, IsFed, IsTaken, IsUnplayed, is_stopped_by, is_write, items_found};

use crate::feed::Feed;
use crate::performing::perform_line;
use crate::script_line::{ScriptLine, script_line};
use crate::script_text::{MOST_BYTES, MOST_ITEMS, ScriptFault};
use crate::stage::Stage;
use crate::stream_fault::StreamFault;
use tv_io::{Pen, Writer};

impl Feed {
    /// Takes a piece, the empty one being the end of the script, and performs each line whose end comes with it.
    pub(crate) fn take<S: Stage, W: Writer>(
        &mut self,
        pen: &mut Pen<W>,
        stage: &mut S,
        piece: &[u8],
    ) -> Result<(), StreamFault>
        requires going { pen.old.stopped ≡ false }
        requires there { (s : Session) × S.stands stage.old s }
        ensures same { pen.new.out.ghost_name ≡ pen.old.out.ghost_name }
        ensures stopped { pen.new.stopped ≡ is_stopped_by result }
        ensures there { (s : Session) × S.stands stage.new s }
        ensures bytes { 0 < length piece.now → OnOk result (self.new.bytes ≡ self.old.bytes + length piece.now) }
        ensures taken { (s : Session) (from : Seen) (given : List ℕ)
            → IsFed s self.old given from (W.seen pen.old.out.now) (S.stands stage.old)
            → IsTaken s self.new given piece.now from (W.seen pen.new.out.now) (S.stands stage.new) result }
        ensures grown { self.old.items ≤ self.new.items }
    {
        if piece.is_empty() {
            self.finish(pen, stage)
        } else {
            self.take_piece(pen, stage, piece)
        }
    }

    // Takes the bytes of a piece, and performs each line whose end comes with them.
    fn take_piece<S: Stage, W: Writer>(
        &mut self,
        pen: &mut Pen<W>,
        stage: &mut S,
        piece: &[u8],
    ) -> Result<(), StreamFault>
        requires going { pen.old.stopped ≡ false }
        requires there { (s : Session) × S.stands stage.old s }
        ensures same { pen.new.out.ghost_name ≡ pen.old.out.ghost_name }
        ensures going { OnOk result (pen.new.stopped ≡ false) }
        ensures stopped { IfErr result (λ fault. pen.new.stopped ≡ is_write fault) }
        ensures there { (s : Session) × S.stands stage.new s }
        ensures bytes { OnOk result (self.new.bytes ≡ self.old.bytes + length piece.now) }
        ensures fed { (s : Session) (from : Seen) (given : List ℕ)
            → IsFed s self.old given from (W.seen pen.old.out.now) (S.stands stage.old)
            → MatchResult result
            (λ _. IsFed s self.new (given ++ piece.now) from (W.seen pen.new.out.now) (S.stands stage.new))
            (λ fault. Breaks s (given ++ piece.now) false self.new.items from (W.seen pen.new.out.now) (S.stands stage.new) fault) }
        ensures grown { self.old.items ≤ self.new.items }
    {
        for byte in piece {
            self.take_byte(pen, stage, *byte)?;
        }
        Ok(())
    }

    // Takes a byte. One that no script has is looked at no more.
    fn take_byte<S: Stage, W: Writer>(
        &mut self,
        pen: &mut Pen<W>,
        stage: &mut S,
        byte: u8,
    ) -> Result<(), StreamFault>
        requires going { pen.old.stopped ≡ false }
        requires there { (s : Session) × S.stands stage.old s }
        ensures same { pen.new.out.ghost_name ≡ pen.old.out.ghost_name }
        ensures going { OnOk result (pen.new.stopped ≡ false) }
        ensures stopped { IfErr result (λ fault. pen.new.stopped ≡ is_write fault) }
        ensures there { (s : Session) × S.stands stage.new s }
        ensures bytes { OnOk result (self.new.bytes ≡ self.old.bytes + 1) }
        ensures fed { (s : Session) (from : Seen) (given : List ℕ)
            → IsFed s self.old given from (W.seen pen.old.out.now) (S.stands stage.old)
            → MatchResult result
            (λ _. IsFed s self.new (given ++ byte ∷ []) from (W.seen pen.new.out.now) (S.stands stage.new))
            (λ fault. Breaks s (given ++ byte ∷ []) false self.new.items from (W.seen pen.new.out.now) (S.stands stage.new) fault) }
        ensures grown { self.old.items ≤ self.new.items }
    {
        if self.bytes == MOST_BYTES {
            return Err(StreamFault::TooLong);
        }
        self.bytes += 1;
        if byte == b'\n' {
            self.end_line(pen, stage)
        } else {
            self.line.push_reserved(byte);
            Ok(())
        }
    }

    // Performs what stands after the last line end, once the reader is at its end.
    fn finish<S: Stage, W: Writer>(
        &mut self,
        pen: &mut Pen<W>,
        stage: &mut S,
    ) -> Result<(), StreamFault>
        requires going { pen.old.stopped ≡ false }
        requires there { (s : Session) × S.stands stage.old s }
        ensures same { pen.new.out.ghost_name ≡ pen.old.out.ghost_name }
        ensures going { OnOk result (pen.new.stopped ≡ false) }
        ensures stopped { IfErr result (λ fault. pen.new.stopped ≡ is_write fault) }
        ensures there { (s : Session) × S.stands stage.new s }
        ensures ended { (s : Session) (from : Seen) (given : List ℕ)
            → IsFed s self.old given from (W.seen pen.old.out.now) (S.stands stage.old)
            → MatchResult result
            (λ _. Ends s given self.new.items from (W.seen pen.new.out.now) (S.stands stage.new))
            (λ fault. Breaks s given true self.new.items from (W.seen pen.new.out.now) (S.stands stage.new) fault) }
        ensures grown { self.old.items ≤ self.new.items }
    {
        if self.line.is_empty() {
            Ok(())
        } else {
            self.end_line(pen, stage)
        }
    }

    // Judges the line at hand, and performs it. Begins the next one.
    fn end_line<S: Stage, W: Writer>(
        &mut self,
        pen: &mut Pen<W>,
        stage: &mut S,
    ) -> Result<(), StreamFault>
        requires going { pen.old.stopped ≡ false }
        requires room { self.old.lines + 1 ≤ self.old.bytes }
        requires there { (s : Session) × S.stands stage.old s }
        ensures same { pen.new.out.ghost_name ≡ pen.old.out.ghost_name }
        ensures going { OnOk result (pen.new.stopped ≡ false) }
        ensures stopped { IfErr result (λ fault. pen.new.stopped ≡ is_write fault) }
        ensures there { (s : Session) × S.stands stage.new s }
        ensures played { (s : Session) (from : Seen) (lines : List (List ℕ))
            → HasScreenOf s self.old → self.old.lines ≡ length lines
            → HasPlayed s lines self.old.items from (W.seen pen.old.out.now) (S.stands stage.old)
            → MatchResult result
            (λ _. HasPlayed s (lines ++ self.old.line.items ∷ []) self.new.items from (W.seen pen.new.out.now) (S.stands stage.new))
            (λ fault. IsUnplayed s lines self.old.line.items self.old.items from (W.seen pen.new.out.now) (S.stands stage.new) fault) }
        ensures next { OnOk result (BeginsLine self.old self.new) }
        ensures kept { IfErr result (λ _. self.new.items ≡ self.old.items) }
        ensures grown { self.old.items ≤ self.new.items }
    {
        let items = match self.judge()? {
            Some(line) => perform_line(pen, stage, &line, self.items)?,
            None => self.items,
        };
        self.items = items;
        self.line.clear();
        self.lines += 1;
        Ok(())
    }

    // The line at hand, where it may be performed and has something to perform.
    fn judge(&self) -> Result<Option<ScriptLine<'_>>, ScriptFault>
        ensures line { MatchResult result
            (λ found. (items : List SeenItem) → self.now.items ≡ length items
            → with_bytes self.now.width self.now.height (self.now.lines + 1) items self.now.line.items ≡ Ok (items ++ items_found found))
            (λ fault. (items : List SeenItem) → self.now.items ≡ length items
            → with_bytes self.now.width self.now.height (self.now.lines + 1) items self.now.line.items ≡ Err fault) }
        ensures shown { IfOk result (λ found. All IsItemOnScreen (items_found found)) }
        ensures few { IfOk result (λ found. self.now.items + length (items_found found) ≤ 100000) }
        ensures memory { IfErr result (λ fault. fault ≢ NoMemory) }
    {
        let number = self.lines + 1;
        let Some(found) = script_line(self.line.as_slice()) else {
            return Err(ScriptFault::Syntax(number));
        };
        let Some(line) = found else {
            return Ok(None);
        };
        if !line.is_on_screen(self.width, self.height) {
            return Err(ScriptFault::OffScreen(number));
        }
        if line.count() > MOST_ITEMS - self.items {
            return Err(ScriptFault::TooLong);
        }
        Ok(Some(line))
    }
}
