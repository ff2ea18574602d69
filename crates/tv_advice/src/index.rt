//! The lines of a text and of the description that it spells, each found by its number.

use crate::kin::Kin;
use crate::letters::Letters;
use crate::spans::{line_in, lines_of};
use crate::subject::{Declared, Subject};
use crate::view_names::ViewNames;
use std::alloc::{AllocError, Global};
use std::collections::{HashMap, HashSet};
use tv_event::Key;
use tv_model::{Desc, Dialog, Menu, Node, Rule, StatusItem, Window};
use tv_overlaps::owners;

/// A text and the description that it spells, by their lines: each is gone through once, however many faults there are.
#[derive(Drop)]
pub struct Index<'a> {
    desc: &'a Desc,
    /// What can be read of each line of the text.
    lines: Vec<&'a str>,
    /// What stands on each line of the canonical text.
    declared: HashMap<u32, Declared<'a>>,
    /// The letters of each dialog.
    letters: Vec<Letters>,
    /// The names of each dialog.
    view_names: Vec<ViewNames<'a>>,
    /// The views of each dialog, by what they stand in.
    kin: Vec<Kin<'a>>,
    /// The letters that status items have with Alt.
    status: HashSet<char>,
}

impl<'a> Index<'a> {
    /// Goes through a text and the description that it spells.
    pub fn new(alloc: Global, text: &'a [u8], desc: &'a Desc) -> Result<Index<'a>, AllocError> {
        let mut index = Index {
            desc,
            lines: lines_of(alloc, text)?,
            declared: HashMap::new(alloc),
            letters: Vec::new(alloc),
            view_names: Vec::new(alloc),
            kin: Vec::new(alloc),
            status: HashSet::new(alloc),
        };
        index.add_menus(desc.menus.as_slice())?;
        index.add_status(desc.status.as_slice())?;
        index.add_windows(desc.windows.as_slice())?;
        index.add_dialogs(alloc, desc.dialogs.as_slice())?;
        Ok(index)
    }

    fn add(&mut self, line: u32, subject: Subject<'a>) -> Result<(), AllocError> {
        self.declared.insert(line, Declared::alone(subject))?;
        Ok(())
    }

    fn add_menus(&mut self, menus: &'a [Menu]) -> Result<(), AllocError> {
        for menu in menus {
            self.add(menu.id.0, Subject::Menu(menu))?;
            for item in menu.items.as_slice() {
                self.add(item.id.0, Subject::Item(item))?;
            }
        }
        Ok(())
    }

    fn add_status(&mut self, items: &'a [StatusItem]) -> Result<(), AllocError> {
        for item in items {
            self.add(item.id.0, Subject::Status(item))?;
            if let Key::Alt(letter) = item.key {
                self.status.insert(letter)?;
            }
        }
        Ok(())
    }

    fn add_windows(&mut self, windows: &'a [Window]) -> Result<(), AllocError> {
        for window in windows {
            self.add(window.node.id.0, Subject::Window(window))?;
            for view in window.views.as_slice() {
                self.add(view.id.0, Subject::Node(view))?;
            }
        }
        Ok(())
    }

    fn add_dialogs(&mut self, alloc: Global, dialogs: &'a [Dialog]) -> Result<(), AllocError> {
        for (place, dialog) in dialogs.iter().enumerate() {
            self.add(dialog.node.id.0, Subject::Node(&dialog.node))?;
            self.add_views(alloc, place, dialog)?;
            self.add_rules(place, dialog.rules.as_slice())?;
            self.letters
                .push(Letters::new(alloc, self.desc.version, dialog)?)?;
            self.view_names.push(ViewNames::new(alloc, place, dialog)?)?;
        }
        Ok(())
    }

    // Adds the views of the dialog at this place, each with what it stands in.
    fn add_views(
        &mut self,
        alloc: Global,
        place: usize,
        dialog: &'a Dialog,
    ) -> Result<(), AllocError> {
        let views = dialog.views.as_slice();
        let owners = owners(alloc, views)?;
        let mut kin = Kin::new(alloc, place, views.len());
        for (view, owner) in views.iter().zip(owners.iter()) {
            let pane = match owner {
                Some(at) => views.get(*at),
                None => None,
            };
            let owner = pane.unwrap_or(&dialog.node);
            kin.add(owner, view)?;
            let declared = Declared {
                subject: Subject::Node(view),
                owner: Some(owner),
                dialog: Some(place),
            };
            self.declared.insert(view.id.0, declared)?;
        }
        self.kin.push(kin)?;
        Ok(())
    }

    // Adds the rules of the dialog at this place.
    fn add_rules(&mut self, place: usize, rules: &'a [Rule]) -> Result<(), AllocError> {
        for rule in rules {
            let declared = Declared {
                dialog: Some(place),
                ..Declared::alone(Subject::Rule(rule))
            };
            self.declared.insert(rule.id.0, declared)?;
        }
        Ok(())
    }

    /// Returns the description.
    pub fn desc(&self) -> &'a Desc {
        self.desc
    }

    /// Returns what can be read of the line of the text of this number, counted from 1, or an empty one where there is none.
    pub fn line(&self, number: usize) -> &'a str {
        line_in(&self.lines, number)
    }

    /// Finds what stands on the line of the canonical text.
    pub fn declared(&self, line: u32) -> Declared<'a> {
        match self.declared.get(&line) {
            Some(declared) => *declared,
            None => Declared::alone(Subject::Other),
        }
    }

    /// Finds the window, the dialog or the view on the line of the canonical text.
    pub fn node(&self, line: u32) -> Option<&'a Node> {
        self.declared(line).subject.node()
    }

    /// Finds the letters of the dialog that it stands in.
    pub fn letters(&self, declared: Declared) -> Option<&Letters> {
        self.letters.get(declared.dialog?)
    }

    /// Finds the names of the dialog that it stands in.
    pub fn view_names(&self, declared: Declared) -> Option<&ViewNames<'a>> {
        self.view_names.get(declared.dialog?)
    }

    /// Finds the views of the dialog that it stands in.
    pub fn kin(&self, declared: Declared) -> Option<&Kin<'a>> {
        self.kin.get(declared.dialog?)
    }

    /// Returns the letters that status items have with Alt.
    pub fn status(&self) -> &HashSet<char> {
        &self.status
    }
}
