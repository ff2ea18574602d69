//! Check boxes and radio buttons.

ghost use Rattle.std.specs.Prelude.{◌≡◌, ◌==◌, ◌&&◌, ◌≤◌, ◌^◌, ◌+◌, ◌++◌, ◌∷◌, [], Some, length, ℕ};
ghost use Rattle.tv_cells.specs.Glyph.{shown, shown_char};
ghost use Rattle.tv_cells.specs.Row.{IsRow};
ghost use Rattle.tv_model.specs.Kinds.Cluster.{is_marked, box_before, cluster_row};
ghost use Rattle.tv_model.specs.Controls.Look.{is_mark_from};
ghost use Rattle.tv_model.specs.Screen.Faces.{text_row};
ghost use Rattle.tv_model.specs.declared.record.Value.TheVariants.{Marks};
ghost use Rattle.tv_palette.specs.Palettes.{colour_in};
ghost use Rattle.tv_palette.specs.declared.role.ClusterRole.TheVariants as cluster;
ghost use Rattle.tv_palette.specs.declared.role.Role.TheVariants as roles;
ghost use Rattle.tv_faces.specs.Choices.{item_cells, cluster_of_marks, value_of_marks};

use crate::row::{put, text_char, write_first, write_over};
use tv_cells::{Cell, Face, NarrowChar};
use tv_model::MarkedText;
use tv_palette::{Chain, ClusterRole, Role};

/// What is marked of a cluster.
#[derive(Clone, Copy)]
pub enum ClusterMarks {
    /// Of check boxes any items: bit 0 is the first one.
    Boxes(u16),
    /// Of radio buttons the selected item.
    Radios,
}

/// Check boxes or radio buttons, an item a row.
#[derive(Clone, Copy)]
pub struct ClusterFace<'a> {
    pub items: &'a [MarkedText],
    pub marks: ClusterMarks,
    /// The selected item, from 1.
    pub selected: u8,
    pub is_focused: bool,
    /// The palettes of what it stands in.
    pub chain: &'a Chain,
}

// Whether an item, from 0, is marked of check boxes.
fn has_mark(marks: u16, place: u32) -> bool
    ensures { result ≡ is_marked (Some (Marks marks)) (place + 1) }
{
    match marks.checked_shr(place) {
        Some(from) => from % 2 == 1,
        None => false,
    }
}

// A character between two others, and a space after them.
fn enclosed(left: char, mark: char, right: char) -> [NarrowChar; 4]
    ensures { result ≡ (shown_char left ∷ shown_char mark ∷ shown_char right ∷ 32 ∷ []) }
{
    [
        NarrowChar::shown(left),
        NarrowChar::shown(mark),
        NarrowChar::shown(right),
        NarrowChar::space(),
    ]
}

impl ClusterMarks {
    fn has(self, selected: u8, place: u32) -> bool
        ensures { result ≡ is_marked (value_of_marks self selected) (place + 1) }
    {
        match self {
            ClusterMarks::Boxes(marks) => has_mark(marks, place),
            ClusterMarks::Radios => selected as u64 == place as u64 + 1,
        }
    }

    // The four columns before an item.
    #[tactic(auto, using(crate::proofs::NarrowLemmas::shown_ascii))]
    fn before(self, is_marked: bool) -> [NarrowChar; 4]
        ensures { result ≡ box_before (cluster_of_marks self) is_marked }
    {
        match self {
            ClusterMarks::Boxes(_) if is_marked => enclosed('[', 'X', ']'),
            ClusterMarks::Boxes(_) => enclosed('[', ' ', ']'),
            ClusterMarks::Radios if is_marked => enclosed('(', '*', ')'),
            ClusterMarks::Radios => enclosed('(', ' ', ')'),
        }
    }
}

// A row with an item. Its attributes are looked up once, since each look-up goes along the chain of palettes.
#[derive(Clone, Copy)]
struct ItemRow<'a> {
    // The columns before the text.
    before: [NarrowChar; 4],
    text: &'a [char],
    mark: Option<usize>,
    letter: u8,
    // The attribute of all but the marked letter.
    rest: u8,
}

impl ItemRow<'_> {
    fn char_at(&self, x: usize) -> char
        ensures { result ≡ text_row (self.now.before ++ self.now.text.now) x }
    {
        match self.before.get(x) {
            Some(ch) => ch.get(),
            None => text_char(self.text, x - 4),
        }
    }

    // Whether the column shows the marked letter.
    fn is_mark(&self, x: usize) -> bool
        ensures { result ≡ is_mark_from 4 self.now.mark x }
    {
        match self.mark {
            Some(place) => x >= 4 && x - 4 == place,
            None => false,
        }
    }

    fn cell(&self, x: usize) -> Cell
        ensures { result ≡ item_cells self.now x }
    {
        let attr = if self.is_mark(x) {
            self.letter
        } else {
            self.rest
        };
        Cell::shown(self.char_at(x), attr)
    }

    // Writes the cells from a column on as they are without the marked letter.
    fn write_rest(&self, from: usize, cells: &mut [Cell])
        requires { from + length cells.old ≤ 2 ^ 32 }
        ensures count { length cells.new ≡ length cells.old }
        ensures cells { IsRow (λ x. shown (text_row (self.now.before ++ self.now.text.now) x) self.now.rest) from cells.new }
    {
        cells.fill(Cell::space(self.rest));
        write_first(&self.before, self.rest, from, cells);
        write_over(self.text, self.rest, 4, from, cells);
    }

    // Writes the cells from a column on.
    fn write(&self, from: usize, cells: &mut [Cell])
        requires { from + length cells.old ≤ 2 ^ 32 }
        ensures count { length cells.new ≡ length cells.old }
        ensures cells { IsRow (item_cells self.now) from cells.new }
    {
        self.write_rest(from, cells);
        if let Some(place) = self.mark {
            let letter = Cell::shown(text_char(self.text, place), self.letter);
            put(letter, place.saturating_add(4), from, cells);
        }
    }
}

impl ClusterFace<'_> {
    // Whether a row is the selected one, and the cluster has the focus.
    fn is_selected(&self, y: u32) -> bool
        ensures { result ≡ (self.now.is_focused && (self.now.selected == y + 1)) }
    {
        self.is_focused && self.selected as u64 == y as u64 + 1
    }

    // The row of an item.
    fn item_row<'b>(&self, item: &'b MarkedText, y: u32) -> ItemRow<'b>
        ensures { (x : ℕ) → item_cells result x
            ≡ cluster_row (colour_in self.now.chain.now) (cluster_of_marks self.now.marks)
            (self.now.is_focused && (self.now.selected == y + 1))
            (is_marked (value_of_marks self.now.marks self.now.selected) (y + 1)) (Some item.now) x }
    {
        let rest = if self.is_selected(y) {
            ClusterRole::Selected
        } else {
            ClusterRole::Normal
        };
        ItemRow {
            before: self.marks.before(self.marks.has(self.selected, y)),
            text: item.text.as_slice(),
            mark: item.mark,
            letter: Role::Cluster(ClusterRole::Letter).attr(self.chain),
            rest: Role::Cluster(rest).attr(self.chain),
        }
    }

    // A cell of a row without an item.
    fn empty(&self) -> Cell
        ensures { result ≡ shown 32 (colour_in self.now.chain.now (roles.Cluster cluster.Normal)) }
    {
        Cell::space(Role::Cluster(ClusterRole::Normal).attr(self.chain))
    }
}

impl Face for ClusterFace<'_> {
    ghost use Rattle.tv_faces.specs.Choices.{cluster_cells};

    ghost face = { cluster_cells };

    fn at(&self, x: u32, y: u32) -> Cell {
        match self.items.get(y as usize) {
            Some(item) => self.item_row(item, y).cell(x as usize),
            None => self.empty(),
        }
    }

    fn row(&self, y: u32, from: u32, cells: &mut [Cell]) {
        match self.items.get(y as usize) {
            Some(item) => self.item_row(item, y).write(from as usize, cells),
            None => cells.fill(self.empty()),
        }
    }
}
