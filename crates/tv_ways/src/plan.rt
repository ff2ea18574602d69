//! Which items to choose and mark, so that given rules hold at the end and given leaves were shown on the way.

use crate::outline::Outline;
use crate::walk::{Choices, ITEMS, Move};
use std::alloc::{AllocError, Global};
use tv_reach::Mask;

/// Each round marks check boxes that weren't marked before, or shows a leaf that wasn't shown.
const ROUNDS: usize = 129;

/// What is wanted of the rules of a dialog.
#[derive(Clone, Copy)]
pub(crate) struct Wish<'a> {
    /// These hold at once at the end.
    pub(crate) rules: Mask,
    /// The leaves of these places are shown at some time.
    pub(crate) seen: &'a [usize],
}

/// A plan while it is made.
#[derive(Drop)]
struct Planning<'a> {
    outline: &'a Outline<'a>,
    moves: Vec<Move>,
    /// The rules of radio buttons and of check boxes that hold after the moves.
    chosen: Mask,
    marked: Mask,
    /// The leaves that weren't shown yet.
    unseen: Vec<usize>,
}

/// How a plan stands after a round.
enum Round {
    Done,
    GoesOn,
    Stuck,
}

impl<'a> Planning<'a> {
    fn new(
        alloc: Global,
        outline: &'a Outline<'a>,
        wish: Wish,
    ) -> Result<Planning<'a>, AllocError> {
        Ok(Planning {
            outline,
            moves: Vec::new(alloc),
            chosen: outline.chosen,
            marked: outline.marked,
            unseen: Vec::from_slice(alloc, wish.seen)?,
        })
    }

    // Notes which leaves are shown.
    fn look(&mut self) {
        let outline = self.outline;
        let holding = self.chosen.union(self.marked);
        self.unseen.retain(|leaf| !outline.is_shown(*leaf, holding));
    }

    // Whether all that is wished is so.
    fn is_done(&self, rules: Mask) -> bool {
        self.unseen.is_empty() && self.chosen.union(self.marked).contains_all(rules)
    }

    // Whether with this choice check boxes are shown that aren't all marked, or a leaf that wasn't shown yet.
    fn shows_more(&self, chosen: Mask) -> bool {
        let holding = chosen.union(self.marked);
        let outline = self.outline;
        outline.leaves.iter().any(|leaf| {
            leaf.is_check()
                && holding.contains_all(leaf.shown_by)
                && !self.marked.contains_all(leaf.own)
        }) || self
            .unseen
            .iter()
            .any(|leaf| outline.is_shown(*leaf, holding))
    }

    // Marks all items of the check boxes that are shown for which rules ask.
    fn mark_all(&mut self) -> Result<(), AllocError> {
        let holding = self.chosen.union(self.marked);
        let outline = self.outline;
        for (place, leaf) in outline.leaves.iter().enumerate() {
            if !leaf.is_check() || !holding.contains_all(leaf.shown_by) {
                continue;
            }
            for item in 1..=ITEMS {
                if !self.marked.contains_all(leaf.asking(item)) {
                    self.moves.push(Move { leaf: place, item })?;
                }
            }
            self.marked = self.marked.union(leaf.own);
        }
        Ok(())
    }

    // Chooses as this choice does.
    fn choose(&mut self, alloc: Global, choices: &Choices, at: usize) -> Result<(), AllocError> {
        choices.add_way(alloc, &mut self.moves, at)?;
        if let Some(choice) = choices.found.get(at) {
            self.chosen = choice.mask;
        }
        self.look();
        Ok(())
    }

    fn round(&mut self, alloc: Global, rules: Mask) -> Result<Round, AllocError> {
        let Some(choices) = Choices::from(alloc, self.outline, self.chosen, self.marked)? else {
            return Ok(Round::Stuck);
        };
        let marked = self.marked;
        if self.unseen.is_empty() {
            let wanted = choices
                .found
                .iter()
                .position(|choice| choice.mask.union(marked).contains_all(rules));
            if let Some(at) = wanted {
                self.choose(alloc, &choices, at)?;
                return Ok(Round::Done);
            }
        }
        let more = choices
            .found
            .iter()
            .position(|choice| self.shows_more(choice.mask));
        let Some(at) = more else {
            return Ok(Round::Stuck);
        };
        self.choose(alloc, &choices, at)?;
        self.mark_all()?;
        self.look();
        Ok(Round::GoesOn)
    }
}

/// Finds moves after which the rules hold and on the way of which the leaves are shown, none of them needless.
pub(crate) fn plan(
    alloc: Global,
    outline: &Outline,
    wish: Wish,
) -> Result<Option<Vec<Move>>, AllocError> {
    let mut planning = Planning::new(alloc, outline, wish)?;
    planning.look();
    if planning.is_done(wish.rules) {
        return Ok(Some(Vec::new(alloc)));
    }
    for _ in 0..ROUNDS {
        match planning.round(alloc, wish.rules)? {
            Round::Done => {
                let Planning { moves, .. } = planning;
                return Ok(Some(without_needless(alloc, outline, wish, moves)?));
            }
            Round::GoesOn => {}
            Round::Stuck => return Ok(None),
        }
    }
    Ok(None)
}

// Whether the moves but this one can be made, and do what is wished.
fn serves(
    alloc: Global,
    outline: &Outline,
    wish: Wish,
    moves: &[Move],
    without: usize,
) -> Result<bool, AllocError> {
    let mut holding = outline.chosen.union(outline.marked);
    let mut unseen = Vec::from_slice(alloc, wish.seen)?;
    unseen.retain(|leaf| !outline.is_shown(*leaf, holding));
    for (at, step) in moves.iter().enumerate() {
        let Some(leaf) = outline.leaves.get(step.leaf) else {
            return Ok(false);
        };
        if at == without {
            continue;
        }
        if !holding.contains_all(leaf.shown_by) {
            return Ok(false);
        }
        if leaf.is_radio() {
            holding = holding.without(leaf.own);
        }
        holding = holding.union(leaf.asking(step.item));
        unseen.retain(|leaf| !outline.is_shown(*leaf, holding));
    }
    Ok(unseen.is_empty() && holding.contains_all(wish.rules))
}

// Drops the moves that aren't needed, one by one from the last.
fn without_needless(
    alloc: Global,
    outline: &Outline,
    wish: Wish,
    moves: Vec<Move>,
) -> Result<Vec<Move>, AllocError> {
    let mut moves = moves;
    for at in (0..moves.len()).rev() {
        if at < moves.len() && serves(alloc, outline, wish, &moves, at)? {
            moves.remove(at);
        }
    }
    Ok(moves)
}
