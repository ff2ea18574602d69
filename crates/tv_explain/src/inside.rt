//! What stands in a window or dialog, gone through once.

ghost use Rattle.std.specs.Prelude.{◌≡◌, ℕ, IfOk, IsTrue, nat_eq, option_copied};
ghost use Rattle.std.specs.HashSet as set;
ghost use Rattle.std.specs.List.Sorted.{IsNonDecreasingBy};
ghost use Rattle.tv_explain.specs.Inside.{in_frame, ruled};
ghost use Rattle.tv_model.specs.Description.Sharing.{is_shared_by};

use crate::lines::{Listed, are_in_order};
use std::alloc::{AllocError, Global};
use std::collections::HashSet;
use std::marker::Model;
use tv_faults::{Line, sharing_rules};
use tv_model::{Dialog, Node, Rule, Version, Window};
use tv_names::{Names, shared_letters};

/// The views of a window or dialog, which are found by their lines and names, and the letters that they share. Contracts see
/// them, their frame, and the rules by which letters may be shared, if any.
#[derive(Drop)]
pub struct Body<'a> {
    frame: &'a Node,
    sharing: Option<&'a [Rule]>,
    names: Names<'a>,
    shared: HashSet<char>,
    are_in_order: bool,
}

impl<'a> Model for Body<'a> {
    ghost use Rattle.std.specs.Prelude.{◌≡◌, ℕ, IsTrue, nat_eq, option_copied};
    ghost use Rattle.std.specs.HashSet as set;
    ghost use Rattle.std.specs.List.Sorted.{IsNonDecreasingBy};
    ghost use Rattle.tv_explain.specs.Inside.{Framed};
    ghost use Rattle.tv_model.specs.Description.Sharing.{is_shared_by};

    ghost Value = { Framed };

    ghost view = { λ body. record { frame = body.frame.now; sharing = option_copied body.sharing; views = body.names } };

    ghost invariant = { λ body.
        (IsTrue body.are_in_order → IsNonDecreasingBy (λ node. node.id.0) body.names)
        × ((letter : ℕ) → set.contains nat_eq body.shared letter ≡ is_shared_by (option_copied body.sharing) body.names letter) };
}

impl<'a> Line for Body<'a> {
    ghost number = { λ body. body.frame.id.0 };

    fn number(&self) -> u32 {
        self.frame.id.0
    }
}

impl<'a> Body<'a> {
    fn new(
        alloc: Global,
        frame: &'a Node,
        sharing: Option<&'a [Rule]>,
        views: &'a [Node],
    ) -> Result<Body<'a>, AllocError>
        ensures { IfOk result (λ body. body ≡ record { frame = frame.now; sharing = option_copied sharing.entry; views = views.now }) }
    {
        let names = Names::new(alloc, views)?;
        let shared = shared_letters(alloc, views, sharing)?;
        let are_in_order = are_in_order(views);
        Ok(Body {
            frame,
            sharing,
            names,
            shared,
            are_in_order,
        })
    }

    /// Goes through a window.
    pub fn of_window(alloc: Global, window: &'a Window) -> Result<Body<'a>, AllocError>
        ensures { IfOk result (λ body. body ≡ in_frame window.now) }
    {
        Body::new(alloc, &window.node, None, window.views.as_slice())
    }

    /// Returns the window's or dialog's own declaration.
    pub fn frame(&self) -> &'a Node
        ensures { result.now ≡ self.now.frame }
    {
        self.frame
    }

    /// Returns the views, found by their names.
    pub fn names(&self) -> &Names<'a>
        ensures { result.now ≡ self.now.views }
    {
        &self.names
    }

    /// Returns the views, found by their lines.
    pub fn views(&self) -> Listed<'a, Node>
        ensures { result ≡ self.now.views }
    {
        Listed::new(self.names.views(), self.are_in_order)
    }

    /// Returns the letters that the views share lawfully.
    pub fn shared(&self) -> &HashSet<char>
        ensures { (letter : ℕ) → set.contains nat_eq result.now letter ≡ is_shared_by self.now.sharing self.now.views letter }
    {
        &self.shared
    }
}

/// What stands in a dialog: its views and its rules.
#[derive(Drop)]
pub struct InDialog<'a> {
    body: Body<'a>,
    rules: &'a [Rule],
    are_in_order: bool,
}

impl<'a> Model for InDialog<'a> {
    ghost use Rattle.std.specs.Prelude.{IsTrue};
    ghost use Rattle.std.specs.List.Sorted.{IsNonDecreasingBy};
    ghost use Rattle.tv_explain.specs.Inside.{Ruled};

    ghost Value = { Ruled };

    ghost view = { λ own. record { inside = own.body; rules = own.rules.now } };

    ghost invariant = { λ own. IsTrue own.are_in_order → IsNonDecreasingBy (λ rule. rule.id.0) own.rules.now };
}

impl<'a> Line for InDialog<'a> {
    ghost number = { λ own. own.inside.frame.id.0 };

    fn number(&self) -> u32 {
        self.body.number()
    }
}

impl<'a> InDialog<'a> {
    /// Goes through a dialog.
    pub fn new(
        alloc: Global,
        version: Version,
        dialog: &'a Dialog,
    ) -> Result<InDialog<'a>, AllocError>
        ensures { IfOk result (λ own. own ≡ ruled version dialog.now) }
    {
        let sharing = sharing_rules(version, dialog);
        let body = Body::new(alloc, &dialog.node, sharing, dialog.views.as_slice())?;
        let rules = dialog.rules.as_slice();
        let are_in_order = are_in_order(rules);
        Ok(InDialog {
            body,
            rules,
            are_in_order,
        })
    }

    /// Returns its views.
    pub fn body(&self) -> &Body<'a>
        ensures { result.now ≡ self.now.inside }
    {
        &self.body
    }

    /// Returns its rules.
    pub fn rules(&self) -> Listed<'a, Rule>
        ensures { result ≡ self.now.rules }
    {
        Listed::new(self.rules, self.are_in_order)
    }
}
