//! The keys that do in an open dialog what was planned. What they make of its values and its focus is kept beside them.

use crate::member::member;
use crate::outline::{Leaf, Outline};
use crate::walk::Move;
use std::alloc::{AllocError, Global};
use tv_event::Key;
use tv_model::{Input, Kind};
use tv_reach::Mask;
use tv_valid::{Domain, DomainFault, Text};

/// More keys than it takes to come from a control to any other.
const KEYS: usize = 200;

/// What a leaf holds, as far as it matters to rules and ends.
#[derive(Drop)]
enum Held {
    Nothing,
    Text(Text),
    Boxes { marks: u16, selected: u8 },
    Radios(u8),
}

/// What is done last.
#[derive(Clone, Copy)]
pub(crate) enum Last {
    /// Nothing.
    Nothing,
    /// The leaf of the place gets the focus.
    Focus(usize),
    /// The button of the place is pressed.
    Press(usize),
    /// The key is pressed.
    Key(Key),
    /// Enter is pressed while the leaf of the place has the focus.
    Enter(usize),
}

/// An open dialog as it was left by the keys so far.
#[derive(Drop)]
pub(crate) struct Driver<'a> {
    outline: &'a Outline<'a>,
    keys: Vec<Key>,
    /// What each leaf holds.
    held: Vec<Held>,
    /// The rules that hold.
    holding: Mask,
    /// The leaf that has the focus.
    focus: usize,
}

// What a leaf holds as it is declared.
fn declared(leaf: &Leaf) -> Held {
    match &leaf.node.kind {
        Kind::Input(input) => match Text::from_chars(input.start.as_slice()) {
            Some(text) => Held::Text(text),
            None => Held::Nothing,
        },
        Kind::CheckBoxes(boxes) => {
            let mut marks = 0;
            for item in boxes.start.as_slice() {
                marks |= bit(u8::try_from(*item).unwrap_or(0));
            }
            Held::Boxes { marks, selected: 1 }
        }
        Kind::RadioButtons(radios) => Held::Radios(u8::try_from(radios.start).unwrap_or(1)),
        _ => Held::Nothing,
    }
}

// The mark of an item, which counts from 1.
fn bit(item: u8) -> u16 {
    match item.checked_sub(1) {
        Some(place) => 1u16.checked_shl(u32::from(place)).unwrap_or(0),
        None => 0,
    }
}

// The next place of so many, cyclically, or the one before.
fn neighbour(count: usize, at: usize, is_back: bool) -> usize {
    let next = if is_back {
        at.checked_sub(1)
    } else {
        at.checked_add(1).filter(|next| *next < count)
    };
    match next {
        Some(next) => next,
        None if is_back => count.saturating_sub(1),
        None => 0,
    }
}

// Whether the text lies outside the domain that the input asks for.
fn is_outside(alloc: Global, input: &Input, text: &Text) -> Result<bool, AllocError> {
    match Domain::new(alloc, &input.spec) {
        Ok(domain) => Ok(!domain.accepts(text)),
        Err(DomainFault::NoMemory) => Err(AllocError),
        Err(DomainFault::BadPicture(_) | DomainFault::Empty) => Ok(false),
    }
}

impl<'a> Driver<'a> {
    /// Begins with the dialog as it opens at first.
    pub(crate) fn new(alloc: Global, outline: &'a Outline<'a>) -> Result<Driver<'a>, AllocError> {
        let held = outline.leaves.iter().map(declared).collect(alloc)?;
        let mut driver = Driver {
            outline,
            keys: Vec::new(alloc),
            held,
            holding: outline.chosen.union(outline.marked),
            focus: 0,
        };
        if !driver.is_free(0) {
            driver.focus = driver.free_beside(0, false);
        }
        Ok(driver)
    }

    fn press(&mut self, key: Key) -> Result<(), AllocError> {
        self.keys.push(key)?;
        Ok(())
    }

    /// Returns the keys.
    pub(crate) fn into_keys(self) -> Vec<Key> {
        let Driver { keys, .. } = self;
        keys
    }

    // The next leaf that may have the focus, cyclically, or the one before.
    fn free_beside(&self, at: usize, is_back: bool) -> usize {
        let count = self.outline.leaves.len();
        let mut place = at;
        for _ in 0..count {
            place = neighbour(count, place, is_back);
            if self.is_free(place) {
                break;
            }
        }
        place
    }

    fn is_shown(&self, place: usize) -> bool {
        self.outline.is_shown(place, self.holding)
    }

    fn is_free(&self, place: usize) -> bool {
        match self.outline.leaves.get(place) {
            Some(leaf) => {
                leaf.node.kind.is_control() && self.holding.contains_all(leaf.freed_by())
            }
            None => false,
        }
    }

    /// Whether the leaf is an input whose text lies outside its domain.
    pub(crate) fn is_invalid(&self, alloc: Global, place: usize) -> Result<bool, AllocError> {
        match (self.outline.input(place), self.held.get(place)) {
            (Some(input), Some(Held::Text(text))) => is_outside(alloc, input, text),
            _ => Ok(false),
        }
    }

    // Types a text of the domain into the input that has the focus.
    fn fill(&mut self, alloc: Global, place: usize) -> Result<(), AllocError> {
        let Some(input) = self.outline.input(place) else {
            return Ok(());
        };
        let domain = match Domain::new(alloc, &input.spec) {
            Ok(domain) => domain,
            Err(DomainFault::NoMemory) => return Err(AllocError),
            Err(DomainFault::BadPicture(_) | DomainFault::Empty) => return Ok(()),
        };
        if let Some(Held::Text(text)) = self.held.get(place) {
            if !text.is_empty() {
                self.press(Key::Ctrl('Y'))?;
            }
        }
        let wanted = member(alloc, &input.spec)?;
        let mut text = Text::new();
        for _ in 0..Text::CAPACITY {
            let Some(ch) = wanted.get(text.len()).copied() else {
                break;
            };
            let Some(typed) = domain.typed(&text, text.len(), ch) else {
                break;
            };
            self.press(Key::Char(ch))?;
            text = typed;
        }
        if let Some(held) = self.held.get_mut(place) {
            *held = Held::Text(text);
        }
        Ok(())
    }

    // Gives the focused input a text with which the focus may leave it.
    fn may_leave(&mut self, alloc: Global) -> Result<(), AllocError> {
        let place = self.focus;
        let validates = self
            .outline
            .input(place)
            .is_some_and(|input| input.validates);
        if validates && self.is_invalid(alloc, place)? {
            self.fill(alloc, place)?;
        }
        Ok(())
    }

    // How often Tab, or Shift-Tab, is pressed to come from one leaf to another.
    fn tabs(&self, from: usize, to: usize, is_back: bool) -> usize {
        let count = self.outline.leaves.len();
        let mut tabs: usize = 0;
        let mut at = from;
        for _ in 0..count {
            if at == to {
                break;
            }
            at = neighbour(count, at, is_back);
            if at == to || self.is_free(at) {
                tabs = tabs.saturating_add(1);
            }
        }
        tabs
    }

    // The leaf on which the letter acts.
    fn marker(&self, letter: char) -> Option<usize> {
        let leaves = &self.outline.leaves;
        let marks = |leaf: &&Leaf| leaf.marks(letter);
        if leaves.iter().filter(marks).count() > 1 {
            leaves.iter().position(|leaf| leaf.marks(letter)
                && self.holding.contains_all(leaf.shown_by))
        } else {
            leaves.iter().position(|leaf| leaf.marks(letter))
        }
    }

    // The letter of a label that is shown and stands for the control.
    fn label_letter(&self, to: usize) -> Option<char> {
        let target = self.outline.leaves.get(to)?.node;
        for (place, leaf) in self.outline.leaves.iter().enumerate() {
            if let Kind::Label(label) = &leaf.node.kind {
                if let Some(letter) = label.text.letter() {
                    let is_marker = self.marker(letter) == Some(place) && self.is_shown(place);
                    if is_marker && self.outline.means(&label.link, target) {
                        return Some(letter);
                    }
                }
            }
        }
        None
    }

    // The key that brings the focus nearer to a leaf.
    fn key_to(&self, from: usize, to: usize) -> Key {
        let ahead = self.tabs(from, to, false);
        let back = self.tabs(from, to, true);
        if ahead.min(back) > 1 {
            if let Some(letter) = self.label_letter(to) {
                return Key::Alt(letter);
            }
        }
        if ahead <= back {
            Key::Tab
        } else {
            Key::ShiftTab
        }
    }

    /// Brings the focus to the leaf. Returns whether it is there.
    pub(crate) fn go_to(&mut self, alloc: Global, to: usize) -> Result<bool, AllocError> {
        for _ in 0..KEYS {
            if self.focus == to || !self.is_free(to) {
                break;
            }
            self.may_leave(alloc)?;
            let key = self.key_to(self.focus, to);
            self.press(key)?;
            self.focus = match key {
                Key::Tab => self.free_beside(self.focus, false),
                Key::ShiftTab => self.free_beside(self.focus, true),
                _ => to,
            };
        }
        Ok(self.focus == to)
    }

    // Whether the item is marked already.
    fn has(&self, step: Move) -> bool {
        match self.held.get(step.leaf) {
            Some(Held::Boxes { marks, .. }) => marks & bit(step.item) != 0,
            Some(Held::Radios(item)) => *item == step.item,
            _ => false,
        }
    }

    // The letter that acts on the item.
    fn letter_of(&self, step: Move) -> Option<char> {
        let place = usize::from(step.item).checked_sub(1)?;
        let items = self.outline.leaves.get(step.leaf)?.marked();
        let letter = items.get(place)?.letter()?;
        let is_first = items.iter().position(|item| item.marks(letter)) == Some(place);
        if is_first && self.marker(letter) == Some(step.leaf) {
            Some(letter)
        } else {
            None
        }
    }

    // Selects the item of the focused cluster by arrows, and marks it.
    fn select(&mut self, step: Move) -> Result<(), AllocError> {
        let (selected, is_boxes) = match self.held.get(step.leaf) {
            Some(Held::Boxes { selected, .. }) => (*selected, true),
            Some(Held::Radios(item)) => (*item, false),
            _ => return Ok(()),
        };
        let count = match self.outline.leaves.get(step.leaf) {
            Some(leaf) => leaf.marked().len(),
            None => return Ok(()),
        };
        let between = usize::from(selected.abs_diff(step.item));
        let around = count.saturating_sub(between);
        let is_down = (selected < step.item) == (between <= around);
        let key = if is_down { Key::Down } else { Key::Up };
        for _ in 0..between.min(around) {
            self.press(key)?;
        }
        if is_boxes {
            self.press(Key::Char(' '))?;
        }
        Ok(())
    }

    // Notes that the item was marked.
    fn note(&mut self, step: Move) {
        let outline = self.outline;
        let Some(leaf) = outline.leaves.get(step.leaf) else {
            return;
        };
        if let Some(held) = self.held.get_mut(step.leaf) {
            match held {
                Held::Boxes { marks, selected } => {
                    *marks |= bit(step.item);
                    *selected = step.item;
                }
                Held::Radios(item) => {
                    *item = step.item;
                    self.holding = self.holding.without(leaf.own);
                }
                Held::Nothing | Held::Text(_) => {}
            }
        }
        self.holding = self.holding.union(leaf.asking(step.item));
    }

    /// Marks the item, unless it is marked. Returns whether it could.
    pub(crate) fn mark(&mut self, alloc: Global, step: Move) -> Result<bool, AllocError> {
        if self.has(step) {
            return Ok(true);
        }
        match self.letter_of(step) {
            Some(letter) => {
                self.may_leave(alloc)?;
                self.press(Key::Alt(letter))?;
                self.focus = step.leaf;
            }
            None => {
                if !self.go_to(alloc, step.leaf)? {
                    return Ok(false);
                }
                self.select(step)?;
            }
        }
        self.note(step);
        Ok(true)
    }

    /// Fills in the inputs among the leaves that are shown and whose texts lie outside their domains.
    pub(crate) fn fill_shown(&mut self, alloc: Global) -> Result<(), AllocError> {
        for place in 0..self.outline.leaves.len() {
            if self.is_shown(place) && self.is_invalid(alloc, place)? {
                self.go_to(alloc, place)?;
                self.fill(alloc, place)?;
            }
        }
        Ok(())
    }

    /// Does what is done last.
    pub(crate) fn finish(&mut self, alloc: Global, last: Last) -> Result<(), AllocError> {
        match last {
            Last::Nothing => Ok(()),
            Last::Key(key) => self.press(key),
            Last::Focus(place) => {
                self.go_to(alloc, place)?;
                Ok(())
            }
            Last::Enter(place) => {
                self.go_to(alloc, place)?;
                self.press(Key::Enter)
            }
            Last::Press(place) => match self.button_letter(place) {
                Some(letter) => self.press(Key::Alt(letter)),
                None => {
                    self.go_to(alloc, place)?;
                    self.press(Key::Char(' '))
                }
            },
        }
    }

    // The letter that presses the button.
    fn button_letter(&self, place: usize) -> Option<char> {
        let letter = self.outline.leaves.get(place)?.marked().first()?.letter()?;
        if self.marker(letter) == Some(place) {
            Some(letter)
        } else {
            None
        }
    }
}
