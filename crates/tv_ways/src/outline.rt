//! A dialog by its leaves, and the rules that each has to do with.

ghost use Rattle.std.specs.Prelude.{◌≡◌, IfOk};

use std::alloc::{AllocError, Global};
use tv_event::Command;
use tv_model::{CommandSpec, Dialog, Effect, Id, Input, Kind, MarkedText, Node, Rule};
use tv_names::marked_of;
use tv_reach::Mask;
use tv_valid::Chars;

/// The most items of a cluster.
const ITEMS: usize = 16;

/// The most rules of a dialog.
const RULES: usize = 64;

/// A control, a label or a text, and the rules of its dialog that have to do with it.
#[derive(Clone, Copy)]
pub(crate) struct Leaf<'a> {
    pub(crate) node: &'a Node,
    /// Those that show it, or a pane around it.
    pub(crate) shown_by: Mask,
    /// Those that enable its command.
    pub(crate) enabled_by: Mask,
    /// Those that ask for a mark of it.
    pub(crate) own: Mask,
    /// The same, item by item.
    by_item: [Mask; ITEMS],
}

impl Leaf<'_> {
    /// Returns the rules that ask for the item, which counts from 1.
    pub(crate) fn asking(&self, item: u8) -> Mask {
        match usize::from(item).checked_sub(1) {
            Some(place) => self.by_item.get(place).copied().unwrap_or(Mask::NONE),
            None => Mask::NONE,
        }
    }

    pub(crate) fn is_radio(&self) -> bool {
        matches!(self.node.kind, Kind::RadioButtons(_))
    }

    pub(crate) fn is_check(&self) -> bool {
        matches!(self.node.kind, Kind::CheckBoxes(_))
    }

    /// Whether it is a button of the command.
    pub(crate) fn gives(&self, command: Command) -> bool {
        match &self.node.kind {
            Kind::Button(button) => is_command(button.command, command),
            _ => false,
        }
    }

    /// Whether it is declared to be the default button.
    pub(crate) fn is_default(&self) -> bool {
        match &self.node.kind {
            Kind::Button(button) => button.is_default,
            _ => false,
        }
    }

    /// Whether it marks the letter, which is given in upper case.
    pub(crate) fn marks(&self, letter: char) -> bool {
        self.marked().iter().any(|text| text.marks(letter))
    }

    /// Returns the texts in which it may mark a letter.
    pub(crate) fn marked(&self) -> &[MarkedText] {
        marked_of(&self.node.kind)
    }

    // The rules that ask for the item that radio buttons start with.
    fn chosen_at_first(&self) -> Mask {
        match &self.node.kind {
            Kind::RadioButtons(radios) => self.asking_number(radios.start),
            _ => Mask::NONE,
        }
    }

    // Those that ask for the items that are marked at first of check boxes.
    fn marked_at_first(&self) -> Mask {
        let mut mask = Mask::NONE;
        if let Kind::CheckBoxes(boxes) = &self.node.kind {
            for item in boxes.start.as_slice() {
                mask = mask.union(self.asking_number(*item));
            }
        }
        mask
    }

    fn asking_number(&self, item: i32) -> Mask {
        match u8::try_from(item) {
            Ok(item) => self.asking(item),
            Err(_) => Mask::NONE,
        }
    }

    /// Returns the rules that show and enable it.
    pub(crate) fn freed_by(&self) -> Mask {
        self.shown_by.union(self.enabled_by)
    }
}

/// A dialog by its leaves, in its order.
#[derive(Drop)]
pub(crate) struct Outline<'a> {
    pub(crate) dialog: &'a Dialog,
    pub(crate) leaves: Vec<Leaf<'a>>,
    /// The rules that ask for the items that radio buttons start with.
    pub(crate) chosen: Mask,
    /// Those that ask for the items that are marked at first of check boxes.
    pub(crate) marked: Mask,
}

impl<'a> Outline<'a> {
    pub(crate) fn new(alloc: Global, dialog: &'a Dialog) -> Result<Outline<'a>, AllocError>
        ensures { IfOk result (λ outline. outline.dialog.now ≡ dialog.now) }
    {
        let mut leaves = Vec::new(alloc);
        let mut panes: Vec<(u8, Mask)> = Vec::new(alloc);
        for node in dialog.views.as_slice() {
            leave_panes(&mut panes, node.depth);
            let around = panes.last().map_or(Mask::NONE, |pane| pane.1);
            let shown_by = around.union(showing(dialog, node));
            if node.kind.is_pane() {
                panes.push((node.depth, shown_by))?;
            } else {
                leaves.push(leaf_of(dialog, node, shown_by))?;
            }
        }
        let chosen = joined(&leaves, |leaf| leaf.chosen_at_first());
        let marked = joined(&leaves, |leaf| leaf.marked_at_first());
        Ok(Outline {
            dialog,
            leaves,
            chosen,
            marked,
        })
    }

    /// Returns the outline of the dialog without these rules.
    pub(crate) fn without(&self, alloc: Global, rules: Mask) -> Result<Outline<'a>, AllocError> {
        let mut leaves = Vec::from_slice(alloc, &self.leaves)?;
        for leaf in leaves.iter_mut() {
            leaf.shown_by = leaf.shown_by.without(rules);
            leaf.enabled_by = leaf.enabled_by.without(rules);
        }
        Ok(Outline {
            dialog: self.dialog,
            leaves,
            chosen: self.chosen,
            marked: self.marked,
        })
    }

    /// Whether the leaf at the place is shown where these rules hold.
    pub(crate) fn is_shown(&self, place: usize, holding: Mask) -> bool {
        match self.leaves.get(place) {
            Some(leaf) => holding.contains_all(leaf.shown_by),
            None => false,
        }
    }

    /// Returns the input at the place.
    pub(crate) fn input(&self, place: usize) -> Option<&'a Input> {
        match &self.leaves.get(place)?.node.kind {
            Kind::Input(input) => Some(input),
            _ => None,
        }
    }

    /// Whether the name means the view: it is the first that has the name.
    pub(crate) fn means(&self, name: &Chars, node: &Node) -> bool {
        means(self.dialog, name, node)
    }

    /// Finds the place of the leaf of the id.
    pub(crate) fn place_of(&self, id: Id) -> Option<usize> {
        self.leaves.iter().position(|leaf| leaf.node.id == id)
    }

    /// Finds the place of the control of the id.
    pub(crate) fn control_of(&self, id: Id) -> Option<usize> {
        self.leaves
            .iter()
            .position(|leaf| leaf.node.id == id && leaf.node.kind.is_control())
    }

    /// Returns the rules that show and enable the leaf at the place.
    pub(crate) fn freeing(&self, place: usize) -> Mask {
        match self.leaves.get(place) {
            Some(leaf) => leaf.freed_by(),
            None => Mask::NONE,
        }
    }

    /// Returns the rules that enable the command.
    pub(crate) fn enabling(&self, command: Command) -> Mask {
        enabling(self.dialog, |other| is_command(other, command))
    }
}

/// Whether the command that a description names is this one.
pub(crate) fn is_command(spec: CommandSpec, command: Command) -> bool {
    match spec {
        CommandSpec::Quit => command == Command::QUIT,
        CommandSpec::Menu => command == Command::MENU,
        CommandSpec::Close => command == Command::CLOSE,
        CommandSpec::Next => command == Command::NEXT,
        CommandSpec::Ok => command == Command::OK,
        CommandSpec::Cancel => command == Command::CANCEL,
        CommandSpec::Yes => command == Command::YES,
        CommandSpec::No => command == Command::NO,
        CommandSpec::Number(number) => i32::from(command.0) == number,
    }
}

// What the leaves have of something together.
fn joined<F: Fn(&Leaf) -> Mask>(leaves: &[Leaf], of: F) -> Mask
    requires { F.IsAlwaysCallable of }
{
    let mut mask = Mask::NONE;
    for leaf in leaves {
        mask = mask.union(of(leaf));
    }
    mask
}

// Forgets the panes that a view in so many panes doesn't stand in.
fn leave_panes(panes: &mut Vec<(u8, Mask)>, depth: u8) {
    panes.retain(|pane| pane.0 < depth);
}

// The rules that pass the test.
fn rules_where<F: Fn(&Rule) -> bool>(dialog: &Dialog, test: F) -> Mask
    requires { F.IsAlwaysCallable test }
{
    let rules = dialog.rules.as_slice();
    let mut mask = Mask::NONE;
    for place in 0..rules.len().min(RULES) {
        if test(&rules[place]) {
            mask = mask.union(Mask::only(place));
        }
    }
    mask
}

// Whether the name means this view: it is the first that has the name.
fn means(dialog: &Dialog, name: &Chars, node: &Node) -> bool {
    let meant = dialog
        .views
        .as_slice()
        .iter()
        .find(|view| view.gives_name(name));
    match meant {
        Some(view) => view.id == node.id,
        None => false,
    }
}

// The rules that show this view itself.
fn showing(dialog: &Dialog, node: &Node) -> Mask {
    rules_where(dialog, |rule| match &rule.effect {
        Effect::Show(name) => means(dialog, name, node),
        Effect::Enable(_) => false,
    })
}

// The rules that enable commands that pass the test.
fn enabling<F: Fn(CommandSpec) -> bool>(dialog: &Dialog, test: F) -> Mask
    requires { F.IsAlwaysCallable test }
{
    rules_where(dialog, |rule| match &rule.effect {
        Effect::Show(_) => false,
        Effect::Enable(command) => test(*command),
    })
}

// The rules that ask for the item of the view at a place, counted from 0.
fn asking(dialog: &Dialog, node: &Node, place: i32) -> Mask {
    rules_where(dialog, |rule| {
        rule.item.checked_sub(1) == Some(place) && means(dialog, &rule.cluster, node)
    })
}

fn leaf_of<'a>(dialog: &'a Dialog, node: &'a Node, shown_by: Mask) -> Leaf<'a> {
    let mut by_item = [Mask::NONE; ITEMS];
    let mut own = Mask::NONE;
    for place in 0..ITEMS {
        let asking = asking(dialog, node, place as i32);
        by_item[place] = asking;
        own = own.union(asking);
    }
    let enabled_by = match &node.kind {
        Kind::Button(button) => enabling(dialog, |command| command == button.command),
        _ => Mask::NONE,
    };
    Leaf {
        node,
        shown_by,
        enabled_by,
        own,
        by_item,
    }
}
