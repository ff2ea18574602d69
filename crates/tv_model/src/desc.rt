//! A description: its screen, menus, status items, windows and dialogs.

ghost use Rattle.std.specs.Prelude.{◌≡◌, IsTrue, option_copied};
ghost use Rattle.tv_model.specs.Description.Nodes.{is_window, is_dialog, node_of};

use crate::command::CommandSpec;
use crate::kind::{DialogHead, Kind, MarkedText, WindowHead};
use crate::node::{Id, Node};
use tv_event::Key;
use tv_valid::{Chars, Sequence};

/// A version of the language of descriptions.
#[derive(Clone, Copy, Debug, PartialEq, Eq)]
pub enum Version {
    One,
    Two,
}

/// What a description text says, whether it is sound or not. Each list is in the order of the text.
#[derive(Debug, Drop)]
pub struct Desc {
    pub version: Version,
    /// Columns of the screen.
    pub width: i32,
    /// Rows of the screen.
    pub height: i32,
    /// The name of the dialog that is open at the start.
    pub start: Option<Chars>,
    pub menus: Sequence<Menu>,
    pub status: Sequence<StatusItem>,
    pub windows: Sequence<Window>,
    pub dialogs: Sequence<Dialog>,
}

impl Desc {
    ghost use Rattle.tv_model.specs.Description.Heads.{all_nodes};

    /// Finds the node of the id: a window, a dialog or a view of one.
    pub fn node(&self, id: Id) -> Option<&Node>
        ensures { option_copied result ≡ node_of (all_nodes self.now) id }
    {
        for window in self.windows.as_slice() {
            if let Some(node) = window.node(id) {
                return Some(node);
            }
        }
        for dialog in self.dialogs.as_slice() {
            if let Some(node) = dialog.node(id) {
                return Some(node);
            }
        }
        None
    }
}

impl Window {
    ghost use Rattle.tv_model.specs.Description.Heads.{window_head, window_nodes};

    /// Returns what its own line declares: its name, its number and its title.
    pub fn head(&self) -> &WindowHead
        ensures { result.now ≡ window_head self.now }
    {
        match &self.node.kind {
            Kind::Window(head) => head,
            _ => unreachable!(),
        }
    }

    /// Finds the node of the id: the window itself or a text of it.
    pub fn node(&self, id: Id) -> Option<&Node>
        ensures { option_copied result ≡ node_of (window_nodes self.now) id }
    {
        if self.node.id == id {
            Some(&self.node)
        } else {
            node_of(self.views.as_slice(), id)
        }
    }
}

impl Dialog {
    ghost use Rattle.tv_model.specs.Description.Heads.{dialog_head, dialog_nodes};

    /// Returns what its own line declares: its name, its title, the command that opens it and its ends.
    pub fn head(&self) -> &DialogHead
        ensures { result.now ≡ dialog_head self.now }
    {
        match &self.node.kind {
            Kind::Dialog(head) => head,
            _ => unreachable!(),
        }
    }

    /// Finds the node of the id: the dialog itself or a view of it.
    pub fn node(&self, id: Id) -> Option<&Node>
        ensures { option_copied result ≡ node_of (dialog_nodes self.now) id }
    {
        if self.node.id == id {
            Some(&self.node)
        } else {
            node_of(self.views.as_slice(), id)
        }
    }
}

/// Returns the first of the nodes that has the id.
pub fn node_of(nodes: &[Node], id: Id) -> Option<&Node>
    ensures { option_copied result ≡ node_of nodes.now id }
{
    nodes.iter().find(|node| node.id == id)
}

/// A menu of the bar.
#[derive(Debug, Drop)]
pub struct Menu {
    pub id: Id,
    pub title: MarkedText,
    pub items: Sequence<MenuItem>,
}

/// An item of a menu.
#[derive(Debug, Drop)]
pub struct MenuItem {
    pub id: Id,
    pub text: MarkedText,
    pub command: CommandSpec,
}

/// An item of the status line: its key gives its command.
#[derive(Debug, Drop)]
pub struct StatusItem {
    pub id: Id,
    pub text: Chars,
    pub key: Key,
    pub command: CommandSpec,
}

/// A window with its static texts.
#[derive(Debug, Drop)]
pub struct Window {
    /// Its own node.
    pub node: Node,
    pub views: Sequence<Node>,
    ghost own_kind: { IsTrue (is_window node.kind) },
}

/// A dialog with its views and rules.
#[derive(Debug, Drop)]
pub struct Dialog {
    /// Its own node.
    pub node: Node,
    /// Its views, panes opened out: what stands in a pane comes after it.
    pub views: Sequence<Node>,
    pub rules: Sequence<Rule>,
    ghost own_kind: { IsTrue (is_dialog node.kind) },
}

/// What is shown or enabled only while an item of a cluster is marked.
#[derive(Debug, Drop)]
pub struct Rule {
    pub id: Id,
    pub effect: Effect,
    /// The name of the check boxes or radio buttons.
    pub cluster: Chars,
    /// The item, counted from 1.
    pub item: i32,
}

/// An item of radio buttons, by their name. While it is marked, a letter that several views share acts on one of them.
#[derive(Debug, Drop)]
pub struct When {
    /// The name of the radio buttons.
    pub radios: Chars,
    /// The item, counted from 1.
    pub item: i32,
}

/// What a rule does.
#[derive(Debug, Drop)]
pub enum Effect {
    /// The control or pane of this name is shown only where the rule holds.
    Show(Chars),
    /// The command is enabled only where the rule holds.
    Enable(CommandSpec),
}
