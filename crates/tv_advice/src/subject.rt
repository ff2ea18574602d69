//! What stands on a line of the canonical text.

use tv_model::{Menu, MenuItem, Node, Rule, StatusItem, Window};

/// The declaration on a line.
#[derive(Clone, Copy)]
pub enum Subject<'a> {
    Menu(&'a Menu),
    Item(&'a MenuItem),
    Status(&'a StatusItem),
    Window(&'a Window),
    Node(&'a Node),
    Rule(&'a Rule),
    /// The version, the screen or the start, an end, or nothing.
    Other,
}

impl<'a> Subject<'a> {
    /// Returns the window, the dialog or the view, if it is one.
    pub fn node(self) -> Option<&'a Node> {
        match self {
            Subject::Window(window) => Some(&window.node),
            Subject::Node(node) => Some(node),
            Subject::Menu(_)
            | Subject::Item(_)
            | Subject::Status(_)
            | Subject::Rule(_)
            | Subject::Other => None,
        }
    }
}

/// A declaration, and what it stands in.
#[derive(Clone, Copy)]
pub struct Declared<'a> {
    pub subject: Subject<'a>,
    /// The pane in which a view of a dialog stands, or the dialog.
    pub owner: Option<&'a Node>,
    /// The place of that dialog among the dialogs.
    pub dialog: Option<usize>,
}

impl<'a> Declared<'a> {
    /// Returns what stands in no dialog.
    pub fn alone(subject: Subject<'a>) -> Declared<'a> {
        Declared {
            subject,
            owner: None,
            dialog: None,
        }
    }
}
