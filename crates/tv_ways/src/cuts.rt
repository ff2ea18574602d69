//! Texts of which a part is never shown.

ghost use Rattle.std.specs.Prelude.{◌≡◌, ◌==◌, ◌<◌, ◌-◌, ◌∷◌, ◌++◌, flat_map, length, position, IfOk, IfSome, OnOk, option_copied};
ghost use Rattle.tv_faces.specs.Looks.{pieces_left};
ghost use Rattle.tv_model.specs.Description.Heads.{dialog_nodes, window_nodes};
ghost use Rattle.tv_model.specs.Screen.Faces.{pieces_of};
ghost use Rattle.tv_ways.specs.Cuts.{are_pieces_cut, character_lost, cut_if, cuts_of, cuts_of_items, cuts_of_kind, cuts_of_marked, cuts_of_node, cuts_of_rows, is_cut, is_letter_cut, letter_lost};

use std::alloc::{AllocError, Global};
use tv_model::{Desc, Dialog, Id, Kind, MarkedText, Node, Sequence, Window, natural};
use tv_valid::Chars;

/// What of a text is never shown.
#[derive(Clone, Copy, Debug, PartialEq, Eq)]
pub enum Lost {
    /// A character other than a space.
    Character,
    /// The marked letter.
    Letter,
}

/// A text of which a part is never shown.
#[derive(Clone, Copy, Debug, PartialEq, Eq)]
pub struct Cut {
    /// The window, dialog or view that has the text.
    pub id: Id,
    /// Which of its texts this is, from 0.
    pub text: usize,
    pub lost: Lost,
}

// Whether a character other than a space stands behind so many columns.
fn is_cut(width: usize, text: &[char]) -> bool
    ensures { result ≡ is_cut width text.now }
{
    text.iter().skip(width).any(|ch| *ch != ' ')
}

// Whether the marked letter stands behind so many columns.
fn is_letter_cut(width: usize, mark: Option<usize>) -> bool
    ensures { result ≡ is_letter_cut width mark }
{
    match mark {
        Some(place) => width <= place,
        None => false,
    }
}

fn line_end(text: &[char]) -> Option<usize>
    ensures place { result ≡ position (λ ch. ch == 10) text.now }
    ensures within { IfSome result (λ end. end < length text.now) }
{
    text.iter().position(|ch| *ch == '\n')
}

// The first piece of a text, and the text behind its line end, if it has one.
fn split(text: &[char]) -> (&[char], Option<&[char]>)
    ensures { pieces_of text.now ≡ result.0.now ∷ pieces_left (option_copied result.1) }
{
    match line_end(text) {
        Some(end) => (&text[..end], Some(&text[end + 1..])),
        None => (text, None),
    }
}

// Whether a piece of the text is cut, of which the first rows show one each.
fn are_pieces_cut(width: usize, rows: usize, text: &[char]) -> bool
    ensures { result ≡ are_pieces_cut width rows (pieces_of text.now) }
{
    let mut rows_left = rows;
    let mut left = Some(text);
    while let Some(rest) = left {
        let (piece, after) = split(rest);
        let columns = if rows_left == 0 { 0 } else { width };
        if is_cut(columns, piece) {
            return true;
        }
        rows_left = rows_left.saturating_sub(1);
        left = after;
    }
    false
}

// What is found of a node, and the columns that it leaves to each of its texts.
#[derive(Clone, Copy)]
struct Room {
    id: Id,
    width: usize,
}

// Adds the cut, if there is one.
fn add_if(cuts: &mut Vec<Cut>, is_lost: bool, cut: Cut) -> Result<(), AllocError>
    ensures { OnOk result (cuts.new.items ≡ cuts.old.items ++ cut_if is_lost cut) }
{
    if is_lost {
        cuts.push(cut)?;
    }
    Ok(())
}

impl Room {
    // The room beside so many columns.
    fn without(self, taken: usize) -> Room
        ensures { result ≡ record self { width = self.width - taken } }
    {
        Room {
            id: self.id,
            width: self.width.saturating_sub(taken),
        }
    }

    fn add_text(self, cuts: &mut Vec<Cut>, at: usize, text: &[char]) -> Result<(), AllocError>
        ensures { OnOk result (cuts.new.items ≡ cuts.old.items ++ cut_if (is_cut self.width text.now) (character_lost self.id at)) }
    {
        let cut = Cut {
            id: self.id,
            text: at,
            lost: Lost::Character,
        };
        add_if(cuts, is_cut(self.width, text), cut)
    }

    fn add_marked(
        self,
        cuts: &mut Vec<Cut>,
        at: usize,
        marked: &MarkedText,
    ) -> Result<(), AllocError>
        ensures { OnOk result (cuts.new.items ≡ cuts.old.items ++ cuts_of_marked self.id self.width at marked.now) }
    {
        self.add_text(cuts, at, marked.text.as_slice())?;
        let cut = Cut {
            id: self.id,
            text: at,
            lost: Lost::Letter,
        };
        add_if(cuts, is_letter_cut(self.width, marked.mark), cut)
    }

    fn add_items(self, cuts: &mut Vec<Cut>, items: &[MarkedText]) -> Result<(), AllocError>
        ensures { OnOk result (cuts.new.items ≡ cuts.old.items ++ cuts_of_items self.id self.width 0 items.now) }
    {
        for (at, item) in items.iter().enumerate() {
            self.add_marked(cuts, at, item)?;
        }
        Ok(())
    }

    fn add_rows(self, cuts: &mut Vec<Cut>, rows: &[Chars]) -> Result<(), AllocError>
        ensures { OnOk result (cuts.new.items ≡ cuts.old.items ++ cuts_of_rows self.id self.width 0 rows.now) }
    {
        for (at, row) in rows.iter().enumerate() {
            self.add_text(cuts, at, row.as_slice())?;
        }
        Ok(())
    }
}

fn add_static(cuts: &mut Vec<Cut>, id: Id, is_lost: bool) -> Result<(), AllocError>
    ensures { OnOk result (cuts.new.items ≡ cuts.old.items ++ cut_if is_lost (character_lost id 0)) }
{
    let cut = Cut {
        id,
        text: 0,
        lost: Lost::Character,
    };
    add_if(cuts, is_lost, cut)
}

// Adds the cuts of a node of this width by its kind.
fn add_kind(cuts: &mut Vec<Cut>, id: Id, width: usize, kind: &Kind) -> Result<(), AllocError>
    ensures { OnOk result (cuts.new.items ≡ cuts.old.items ++ cuts_of_kind id width kind.now) }
{
    let room = Room { id, width };
    match kind {
        Kind::Window(head) => room.without(12).add_text(cuts, 0, head.title.as_slice()),
        Kind::Dialog(head) => room.without(12).add_text(cuts, 0, head.title.as_slice()),
        Kind::Text(shown) => {
            let rows = natural(&shown.h) as usize;
            add_static(cuts, id, are_pieces_cut(width, rows, shown.text.as_slice()))
        }
        Kind::Label(label) => room.add_marked(cuts, 0, &label.text),
        Kind::Button(button) => room.without(2).add_marked(cuts, 0, &button.text),
        Kind::CheckBoxes(boxes) => room.without(4).add_items(cuts, boxes.items.as_slice()),
        Kind::RadioButtons(radios) => room.without(4).add_items(cuts, radios.items.as_slice()),
        Kind::List(list) => room.add_rows(cuts, list.items.as_slice()),
        Kind::Input(_) | Kind::Pane(_) => Ok(()),
    }
}

fn add_node(cuts: &mut Vec<Cut>, node: &Node) -> Result<(), AllocError>
    ensures { OnOk result (cuts.new.items ≡ cuts.old.items ++ cuts_of_node node.now) }
{
    add_kind(cuts, node.id, natural(&node.w) as usize, &node.kind)
}

fn add_nodes(cuts: &mut Vec<Cut>, nodes: &[Node]) -> Result<(), AllocError>
    ensures { OnOk result (cuts.new.items ≡ cuts.old.items ++ flat_map cuts_of_node nodes.now) }
{
    for node in nodes {
        add_node(cuts, node)?;
    }
    Ok(())
}

fn add_windows(cuts: &mut Vec<Cut>, windows: &[Window]) -> Result<(), AllocError>
    ensures { OnOk result (cuts.new.items ≡ cuts.old.items ++ flat_map cuts_of_node (flat_map window_nodes windows.now)) }
{
    for window in windows {
        add_node(cuts, &window.node)?;
        add_nodes(cuts, window.views.as_slice())?;
    }
    Ok(())
}

fn add_dialogs(cuts: &mut Vec<Cut>, dialogs: &[Dialog]) -> Result<(), AllocError>
    ensures { OnOk result (cuts.new.items ≡ cuts.old.items ++ flat_map cuts_of_node (flat_map dialog_nodes dialogs.now)) }
{
    for dialog in dialogs {
        add_node(cuts, &dialog.node)?;
        add_nodes(cuts, dialog.views.as_slice())?;
    }
    Ok(())
}

/// Finds all texts of the description of which a part is never shown, in the order of the description: titles, items and
/// the texts of controls that are cut so that a character other than a space is lost, and marked letters that are cut
/// away. A list shows all of its rows in turn, and an input each part of its text.
pub fn cuts_of(alloc: Global, desc: &Desc) -> Result<Sequence<Cut>, AllocError>
    ensures { IfOk result (λ cuts. cuts ≡ cuts_of desc.now) }
{
    let mut cuts = Vec::new(alloc);
    add_windows(&mut cuts, desc.windows.as_slice())?;
    add_dialogs(&mut cuts, desc.dialogs.as_slice())?;
    Ok(Sequence::from_vec(cuts))
}
