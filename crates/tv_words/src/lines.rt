//! The lines of a text.

ghost use Rattle.std.specs.Prelude.{◌≡◌, ◌<◌, ◌∷◌, ◌==◌, length, position};
ghost use Rattle.tv_words.specs.Lines.{lines_of};

/// Goes over the lines of a text, without their line ends.
#[derive(Drop)]
pub struct Lines<'a> {
    rest: &'a [u8],
}

impl<'a> Lines<'a> {
    ghost use Rattle.tv_words.specs.LinesLeft.{lines_left};

    /// Makes an iterator over the lines of a text. A line end at the end of the text starts no further line.
    pub fn new(text: &'a [u8]) -> Lines<'a>
        ensures { lines_left result ≡ lines_of text.now }
    {
        Lines { rest: text }
    }
}

impl<'a> Iterator for Lines<'a> {
    ghost use Rattle.std.specs.Iterator.{YieldsFirstRef, item_count};
    ghost use Rattle.tv_words.specs.LinesLeft.{lines_left};

    type Item = &'a [u8];

    ghost next_gives = { YieldsFirstRef lines_left };

    ghost remaining = { item_count lines_left };

    fn next(&mut self) -> Option<&'a [u8]> {
        let text = self.rest;
        if text.is_empty() {
            return None;
        }
        let (first, rest) = first_line(text);
        self.rest = rest;
        Some(first)
    }
}

// The first line, and what follows its line end.
fn first_line(text: &[u8]) -> (&[u8], &[u8])
    requires { 0 < length text.now }
    ensures { lines_of text.now ≡ result.0.now ∷ lines_of result.1.now }
{
    match first_end(text) {
        Some(end) => (&text[..end], &text[end + 1..]),
        None => (text, &[]),
    }
}

fn first_end(text: &[u8]) -> Option<usize>
    ensures { result ≡ position (λ b. b == 10) text.now }
{
    text.iter().position(|byte| *byte == b'\n')
}
