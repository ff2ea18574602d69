//! Buttons.

ghost use Rattle.std.specs.Prelude.{◌≡◌, ◌≢◌, ◌<◌, ◌≤◌, ◌+◌, ◌-◌, ◌/◌, ◌^◌, ℕ, length, slice_index_or};
ghost use Rattle.tv_palette.specs.Chain.{coloured};
ghost use Rattle.tv_palette.specs.Palettes.{colour_in, owners_of_part};
ghost use Rattle.tv_palette.specs.declared.role.Owner.TheVariants.{Dialog};
ghost use Rattle.tv_palette.specs.declared.role.Role.TheVariants.{Button};
ghost use Rattle.tv_model.specs.Screen.Faces.{button_attr, button_role, button_text, button_row, is_letter_column};
ghost use Rattle.tv_faces.specs.Looks.{button_look_of};

use crate::look::ButtonLook;
use crate::row::{put, text_char, write_over};
use tv_cells::{Cell, Face};
use tv_palette::{ButtonRole, Chain, Role};

impl ButtonLook {
    /// Returns the attribute of the marked letter, or of the rest, to which the chain of the dialog leads.
    pub fn attr(self, chain: &Chain, is_letter: bool) -> u8
        ensures chain { result ≡ colour_in chain.now (Button (button_role (button_look_of self) is_letter)) }
        ensures table { coloured chain.now ≡ owners_of_part Dialog → result ≡ button_attr (button_look_of self) is_letter }
    {
        Role::Button(self.role(is_letter)).attr(chain)
    }

    fn role(self, is_letter: bool) -> ButtonRole
        ensures { result ≡ button_role (button_look_of self) is_letter }
    {
        if self.is_disabled {
            ButtonRole::Disabled
        } else if is_letter {
            ButtonRole::Letter
        } else if self.is_focused {
            ButtonRole::Focused
        } else if self.is_default_now {
            ButtonRole::Default
        } else {
            ButtonRole::Normal
        }
    }
}

/// A button of a dialog.
#[derive(Clone, Copy)]
pub struct ButtonFace<'a> {
    pub width: u32,
    pub text: &'a [char],
    pub mark: Option<usize>,
    pub is_default_now: bool,
    /// The attribute of the marked letter.
    pub letter: u8,
    /// The attribute of all other cells.
    pub rest: u8,
}

fn cut(width: usize, text: &[char]) -> &[char]
    ensures { result.now ≡ button_text width text.now }
{
    let count = text.len().min(width.saturating_sub(2));
    &text[..count]
}

fn button_start(width: usize, cut: &[char]) -> usize
    requires { width < 2 ^ 32 }
    ensures value { result ≡ 1 + (width - 2 - length cut.now) / 2 }
    ensures small { result < 2 ^ 32 }
{
    1 + width.saturating_sub(2).saturating_sub(cut.len()) / 2
}

fn is_letter(width: usize, text: &[char], mark: Option<usize>, x: usize) -> bool
    requires { width < 2 ^ 32 }
    ensures { result ≡ is_letter_column width text.now mark x }
{
    let shown = cut(width, text);
    match mark {
        Some(mark) => mark < shown.len() && x == button_start(width, shown) + mark,
        None => false,
    }
}

fn button_char(width: usize, text: &[char], is_default_now: bool, x: usize) -> char
    requires column { x < 2 ^ 32 }
    requires width { width < 2 ^ 32 }
    ensures { result ≡ button_row width text.now is_default_now x }
{
    if x == 0 {
        return if is_default_now { '<' } else { '[' };
    }
    if x + 1 == width {
        return if is_default_now { '>' } else { ']' };
    }
    let shown = cut(width, text);
    let start = button_start(width, shown);
    if start <= x && x < start + shown.len() {
        text_char(shown, x - start)
    } else {
        ' '
    }
}

impl ButtonFace<'_> {
    ghost use Rattle.tv_cells.specs.Glyph.{blank};
    ghost use Rattle.tv_model.specs.Screen.Faces.{button_cells};

    // The brackets in the first and the last column, neither of which ever shows the marked letter.
    #[tactic(auto, using(crate::proofs::LetterLemmas::letter_first, crate::proofs::LetterLemmas::letter_last))]
    fn ends(&self) -> (Cell, Cell)
        ensures left { result.0
            ≡ button_cells self.now.width self.now.text.now self.now.mark self.now.is_default_now self.now.letter
            self.now.rest 0 0 }
        ensures right { 1 < self.now.width
            → result.1 ≡ button_cells self.now.width self.now.text.now self.now.mark self.now.is_default_now
            self.now.letter self.now.rest (self.now.width - 1) 0 }
    {
        if self.is_default_now {
            (Cell::shown('<', self.rest), Cell::shown('>', self.rest))
        } else {
            (Cell::shown('[', self.rest), Cell::shown(']', self.rest))
        }
    }

    // The text with its letter. The columns of the brackets are left to be written.
    fn write_text(&self, from: usize, cells: &mut [Cell])
        requires { from + length cells.old ≤ 2 ^ 32 }
        ensures count { length cells.new ≡ length cells.old }
        ensures cells { (i : ℕ) → i < length cells.new → 0 < from + i → from + i + 1 ≢ self.now.width
            → slice_index_or cells.new i blank
            ≡ button_cells self.now.width self.now.text.now self.now.mark self.now.is_default_now self.now.letter
            self.now.rest (from + i) 0 }
    {
        let width = self.width as usize;
        let shown = cut(width, self.text);
        let start = button_start(width, shown);
        cells.fill(Cell::space(self.rest));
        write_over(shown, self.rest, start, from, cells);
        if let Some(mark) = self.mark {
            if mark < shown.len() {
                let letter = Cell::shown(text_char(shown, mark), self.letter);
                put(letter, start + mark, from, cells);
            }
        }
    }
}

impl Face for ButtonFace<'_> {
    ghost use Rattle.tv_model.specs.Screen.Faces.{button_cells};

    ghost face = { λ f. button_cells f.width f.text.now f.mark f.is_default_now f.letter f.rest };

    fn at(&self, x: u32, y: u32) -> Cell {
        let _row = y;
        let width = self.width as usize;
        let x = x as usize;
        let attr = if is_letter(width, self.text, self.mark, x) {
            self.letter
        } else {
            self.rest
        };
        Cell::shown(button_char(width, self.text, self.is_default_now, x), attr)
    }

    fn row(&self, _y: u32, from: u32, cells: &mut [Cell]) {
        let start = from as usize;
        let width = self.width as usize;
        let (left, right) = self.ends();
        self.write_text(start, cells);
        put(left, 0, start, cells);
        if width > 1 {
            put(right, width - 1, start, cells);
        }
    }
}
