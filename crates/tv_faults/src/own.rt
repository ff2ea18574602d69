//! Faults that show on a line by itself, or by how many lines stand before it: one judge for each list.

ghost use Rattle.std.specs.Prelude.{◌≡◌, false, option_copied};
ghost use Rattle.tv_model.specs.Faults.{dialog_has, item_has, menu_has, rule_has, status_has, view_has, window_has};
ghost use Rattle.tv_faults.specs.Compared.{compares_dialogs, compares_items, compares_menus, compares_rules, compares_status_items, compares_views, compares_windows, is_judged_before};

use crate::ends::{lacks_cancel, lacks_end};
use crate::judge::Judge;
use crate::limits::{
    dialog_outside_limits, item_outside_limits, menu_outside_limits, rule_outside_limits,
    status_outside_limits, view_outside_limits, window_outside_limits,
};
use crate::wide::{has_wide, is_wide_text};
use std::alloc::{AllocError, Global};
use tv_model::{Desc, Dialog, Ends, FaultKind, Menu, MenuItem, Node, Rule, StatusItem, Window};
use tv_names::{has_nothing_to_focus, rules_cancel};
use tv_overlaps::is_off_desktop;

/// Judges menus.
#[derive(Drop)]
pub struct OfMenus {
    pub kind: FaultKind,
    ghost own: { compares_menus kind ≡ false },
}

/// Judges the items of a menu.
#[derive(Drop)]
pub struct OfItems {
    pub kind: FaultKind,
    ghost own: { compares_items kind ≡ false },
}

/// Judges the status items of the description.
#[derive(Drop)]
pub struct OfStatusItems<'a> {
    pub kind: FaultKind,
    pub desc: &'a Desc,
    ghost own: { compares_status_items kind ≡ false },
}

/// Judges windows.
#[derive(Drop)]
pub struct OfWindows {
    pub kind: FaultKind,
    ghost own: { compares_windows kind ≡ false },
}

/// Judges the dialogs of the description.
#[derive(Drop)]
pub struct OfDialogs<'a> {
    pub kind: FaultKind,
    pub desc: &'a Desc,
    ghost own: { compares_dialogs kind ≡ false },
}

/// Judges the views of a window or dialog, its frame, with these ends and with the rules by which letters may be shared,
/// if any.
#[derive(Drop)]
pub struct OfViews<'a> {
    pub kind: FaultKind,
    pub frame: &'a Node,
    pub ends: Ends,
    pub sharing: Option<&'a [Rule]>,
    pub views: &'a [Node],
    ghost own: { compares_views kind ≡ false },
    ghost unjudged: { is_judged_before kind ≡ false },
}

/// Judges the rules of the dialog.
#[derive(Drop)]
pub struct OfRules<'a> {
    pub kind: FaultKind,
    pub dialog: &'a Dialog,
    ghost own: { compares_rules kind ≡ false },
}

impl Judge for OfMenus {
    type Line = Menu;

    ghost judges = { λ judge. menu_has judge.kind };

    fn judge(&self, _alloc: Global, before: &[Menu], menu: &Menu) -> Result<bool, AllocError> {
        Ok(match self.kind {
            FaultKind::WideCharacter => is_wide_text(menu.title.text.as_slice()),
            FaultKind::OutsideLimits => menu_outside_limits(before, menu),
            FaultKind::NameTwice
            | FaultKind::OutsideOwner
            | FaultKind::Overlap
            | FaultKind::LetterTwice
            | FaultKind::StatusKey
            | FaultKind::LabelLink
            | FaultKind::UnknownInRule
            | FaultKind::ShowsItself
            | FaultKind::NothingToFocus
            | FaultKind::MissingEnd
            | FaultKind::SecondDefault
            | FaultKind::EmptyDomain
            | FaultKind::BadStart
            | FaultKind::BadOpening
            | FaultKind::MenuLetter => false,
        })
    }
}

impl Judge for OfItems {
    type Line = MenuItem;

    ghost judges = { λ judge. item_has judge.kind };

    fn judge(
        &self,
        _alloc: Global,
        before: &[MenuItem],
        item: &MenuItem,
    ) -> Result<bool, AllocError> {
        Ok(match self.kind {
            FaultKind::WideCharacter => is_wide_text(item.text.text.as_slice()),
            FaultKind::OutsideLimits => item_outside_limits(before, item),
            FaultKind::NameTwice
            | FaultKind::OutsideOwner
            | FaultKind::Overlap
            | FaultKind::LetterTwice
            | FaultKind::StatusKey
            | FaultKind::LabelLink
            | FaultKind::UnknownInRule
            | FaultKind::ShowsItself
            | FaultKind::NothingToFocus
            | FaultKind::MissingEnd
            | FaultKind::SecondDefault
            | FaultKind::EmptyDomain
            | FaultKind::BadStart
            | FaultKind::BadOpening
            | FaultKind::MenuLetter => false,
        })
    }
}

impl<'a> Judge for OfStatusItems<'a> {
    type Line = StatusItem;

    ghost judges = { λ judge. status_has judge.kind judge.desc.now };

    fn judge(
        &self,
        _alloc: Global,
        before: &[StatusItem],
        item: &StatusItem,
    ) -> Result<bool, AllocError> {
        Ok(match self.kind {
            FaultKind::WideCharacter => is_wide_text(item.text.as_slice()),
            FaultKind::OutsideLimits => status_outside_limits(before, item),
            FaultKind::NameTwice
            | FaultKind::OutsideOwner
            | FaultKind::Overlap
            | FaultKind::LetterTwice
            | FaultKind::StatusKey
            | FaultKind::LabelLink
            | FaultKind::UnknownInRule
            | FaultKind::ShowsItself
            | FaultKind::NothingToFocus
            | FaultKind::MissingEnd
            | FaultKind::SecondDefault
            | FaultKind::EmptyDomain
            | FaultKind::BadStart
            | FaultKind::BadOpening
            | FaultKind::MenuLetter => false,
        })
    }
}

impl Judge for OfWindows {
    type Line = Window;

    ghost judges = { λ judge. window_has judge.kind };

    fn judge(
        &self,
        _alloc: Global,
        before: &[Window],
        window: &Window,
    ) -> Result<bool, AllocError> {
        Ok(match self.kind {
            FaultKind::WideCharacter => has_wide(&window.node),
            FaultKind::OutsideLimits => window_outside_limits(before, window),
            FaultKind::NameTwice
            | FaultKind::OutsideOwner
            | FaultKind::Overlap
            | FaultKind::LetterTwice
            | FaultKind::StatusKey
            | FaultKind::LabelLink
            | FaultKind::UnknownInRule
            | FaultKind::ShowsItself
            | FaultKind::NothingToFocus
            | FaultKind::MissingEnd
            | FaultKind::SecondDefault
            | FaultKind::EmptyDomain
            | FaultKind::BadStart
            | FaultKind::BadOpening
            | FaultKind::MenuLetter => false,
        })
    }
}

impl<'a> Judge for OfDialogs<'a> {
    type Line = Dialog;

    ghost judges = { λ judge. dialog_has judge.kind judge.desc.now };

    fn judge(&self, alloc: Global, before: &[Dialog], dialog: &Dialog) -> Result<bool, AllocError> {
        Ok(match self.kind {
            FaultKind::OutsideOwner => is_off_desktop(self.desc, dialog),
            FaultKind::NothingToFocus => has_nothing_to_focus(alloc, dialog)?,
            FaultKind::MissingEnd => lacks_cancel(dialog),
            FaultKind::WideCharacter => has_wide(&dialog.node),
            FaultKind::OutsideLimits => dialog_outside_limits(before, dialog),
            FaultKind::NameTwice
            | FaultKind::Overlap
            | FaultKind::LetterTwice
            | FaultKind::StatusKey
            | FaultKind::LabelLink
            | FaultKind::UnknownInRule
            | FaultKind::ShowsItself
            | FaultKind::SecondDefault
            | FaultKind::EmptyDomain
            | FaultKind::BadStart
            | FaultKind::BadOpening
            | FaultKind::MenuLetter => false,
        })
    }
}

impl<'a> Judge for OfViews<'a> {
    type Line = Node;

    ghost judges = { λ judge. view_has judge.kind judge.frame.now judge.ends (option_copied judge.sharing) judge.views.now };

    fn judge(&self, _alloc: Global, before: &[Node], node: &Node) -> Result<bool, AllocError> {
        Ok(match self.kind {
            FaultKind::MissingEnd => lacks_end(self.ends, node),
            FaultKind::WideCharacter => has_wide(node),
            FaultKind::OutsideLimits => view_outside_limits(before, node),
            FaultKind::NameTwice
            | FaultKind::OutsideOwner
            | FaultKind::Overlap
            | FaultKind::LetterTwice
            | FaultKind::StatusKey
            | FaultKind::LabelLink
            | FaultKind::UnknownInRule
            | FaultKind::ShowsItself
            | FaultKind::NothingToFocus
            | FaultKind::SecondDefault
            | FaultKind::EmptyDomain
            | FaultKind::BadStart
            | FaultKind::BadOpening
            | FaultKind::MenuLetter => false,
        })
    }
}

impl<'a> Judge for OfRules<'a> {
    type Line = Rule;

    ghost judges = { λ judge. rule_has judge.kind judge.dialog.now.views };

    fn judge(&self, _alloc: Global, before: &[Rule], rule: &Rule) -> Result<bool, AllocError> {
        Ok(match self.kind {
            FaultKind::OutsideLimits => rule_outside_limits(before, rule),
            FaultKind::MenuLetter => rules_cancel(rule),
            FaultKind::NameTwice
            | FaultKind::OutsideOwner
            | FaultKind::Overlap
            | FaultKind::LetterTwice
            | FaultKind::StatusKey
            | FaultKind::LabelLink
            | FaultKind::UnknownInRule
            | FaultKind::ShowsItself
            | FaultKind::NothingToFocus
            | FaultKind::MissingEnd
            | FaultKind::SecondDefault
            | FaultKind::EmptyDomain
            | FaultKind::BadStart
            | FaultKind::WideCharacter
            | FaultKind::BadOpening => false,
        })
    }
}
