//! The choices of radio buttons that a dialog comes to, and the check boxes that may be marked beside them.

use crate::outline::Outline;
use std::alloc::{AllocError, Global};
use std::collections::HashSet;
use tv_reach::Mask;

/// The most choices that are looked for.
const BOUND: usize = 4_096;

/// Rounds after which no rule can come to hold that didn't before.
const ROUNDS: usize = 65;

/// The most items of a cluster.
pub(crate) const ITEMS: u8 = 16;

/// An item that is chosen or marked.
#[derive(Clone, Copy)]
pub(crate) struct Move {
    /// The place of its cluster among the leaves.
    pub(crate) leaf: usize,
    /// The item, from 1.
    pub(crate) item: u8,
}

/// A choice of radio buttons.
#[derive(Clone, Copy)]
pub(crate) struct Choice {
    /// The rules of radio buttons that hold by it.
    pub(crate) mask: Mask,
    /// The place of the choice before it, and the move from there; none for the first.
    from: Option<(usize, Move)>,
}

/// Choices of radio buttons, each come to from one before it.
#[derive(Drop)]
pub(crate) struct Choices {
    pub(crate) found: Vec<Choice>,
    masks: HashSet<Mask>,
}

impl Choices {
    /// Finds all choices to which moves lead from this one, while these rules of check boxes hold. Returns `None` where
    /// there are too many.
    pub(crate) fn from(
        alloc: Global,
        outline: &Outline,
        first: Mask,
        marked: Mask,
    ) -> Result<Option<Choices>, AllocError> {
        let mut choices = Choices {
            found: Vec::new(alloc),
            masks: HashSet::new(alloc),
        };
        choices.add(first, None)?;
        for at in 0..BOUND {
            let Some(choice) = choices.found.get(at).copied() else {
                break;
            };
            choices.go_on(outline, at, choice.mask, marked)?;
            if choices.found.len() > BOUND {
                return Ok(None);
            }
        }
        Ok(Some(choices))
    }

    fn add(&mut self, mask: Mask, from: Option<(usize, Move)>) -> Result<(), AllocError> {
        if self.masks.insert(mask)? {
            self.found.push(Choice { mask, from })?;
        }
        Ok(())
    }

    // Adds the choices to which one move leads.
    fn go_on(
        &mut self,
        outline: &Outline,
        at: usize,
        chosen: Mask,
        marked: Mask,
    ) -> Result<(), AllocError> {
        for (place, leaf) in outline.leaves.iter().enumerate() {
            if !leaf.is_radio() || !chosen.union(marked).contains_all(leaf.shown_by) {
                continue;
            }
            for item in 1..=ITEMS {
                let asking = leaf.asking(item);
                if asking != Mask::NONE {
                    let way = Move { leaf: place, item };
                    let mask = chosen.without(leaf.own).union(asking);
                    self.add(mask, Some((at, way)))?;
                }
            }
        }
        Ok(())
    }

    /// Adds the moves that lead from the first choice to this one.
    pub(crate) fn add_way(
        &self,
        alloc: Global,
        moves: &mut Vec<Move>,
        place: usize,
    ) -> Result<(), AllocError> {
        let mut back = Vec::new(alloc);
        let mut at = place;
        for _ in 0..self.found.len() {
            match self.found.get(at) {
                Some(
                    Choice {
                        from: Some((before, way)),
                        ..
                    },
                ) => {
                    back.push(*way)?;
                    at = *before;
                }
                _ => break,
            }
        }
        back.reverse();
        moves.extend_from_slice(&back)
    }
}

// The rules of check boxes that may hold once all that these choices show are marked.
fn more_marked(outline: &Outline, choices: &Choices, marked: Mask) -> Mask {
    let mut more = marked;
    for leaf in &outline.leaves {
        let is_shown = |choice: &Choice| choice.mask.union(marked).contains_all(leaf.shown_by);
        if leaf.is_check() && choices.found.iter().any(is_shown) {
            more = more.union(leaf.own);
        }
    }
    more
}

/// Finds masks within one of which the rules lie that hold at any time: each choice of radio buttons together with all rules
/// of check boxes that are ever shown. Returns `None` where there are too many choices.
pub(crate) fn masks(alloc: Global, outline: &Outline) -> Result<Option<Vec<Mask>>, AllocError> {
    let mut marked = outline.marked;
    for _ in 0..ROUNDS {
        let Some(choices) = Choices::from(alloc, outline, outline.chosen, marked)? else {
            return Ok(None);
        };
        let more = more_marked(outline, &choices, marked);
        if more == marked {
            return Ok(Some(joined(alloc, &choices, marked)?));
        }
        marked = more;
    }
    Ok(None)
}

// The choices, each together with these rules.
fn joined(alloc: Global, choices: &Choices, marked: Mask) -> Result<Vec<Mask>, AllocError> {
    choices
        .found
        .iter()
        .map(|choice| choice.mask.union(marked))
        .collect(alloc)
}
