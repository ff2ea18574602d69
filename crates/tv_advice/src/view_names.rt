//! The names that the views of a dialog give, of which one that isn't there may be a misspelling.

use crate::few::are_few;
use crate::naming::text_of;
use crate::nearest::{Nearest, Unknown};
use std::alloc::{AllocError, Global};
use tv_model::{Dialog, Kind};

/// What a name has to be the name of.
#[derive(Clone, Copy, Debug, PartialEq, Eq)]
pub enum Bearer {
    Control,
    ControlOrPane,
    Cluster,
}

impl Bearer {
    // Whether such a view may have the name.
    fn allows(self, kind: &Kind) -> bool {
        match self {
            Bearer::Control => kind.is_control(),
            Bearer::ControlOrPane => kind.is_control() || kind.is_pane(),
            Bearer::Cluster => matches!(kind, Kind::CheckBoxes(_) | Kind::RadioButtons(_)),
        }
    }
}

/// A name, and what has it.
#[derive(Drop)]
struct Named<'a> {
    name: String,
    kind: &'a Kind,
}

/// The names of a dialog.
#[derive(Drop)]
pub struct ViewNames<'a> {
    names: Vec<Named<'a>>,
}

impl<'a> ViewNames<'a> {
    /// Collects the names of the dialog at this place among the dialogs. Of what is beyond the limits there are none: so
    /// few names are compared, however long the text is.
    pub fn new(
        alloc: Global,
        place: usize,
        dialog: &'a Dialog,
    ) -> Result<ViewNames<'a>, AllocError> {
        let mut names = Vec::new(alloc);
        let views = dialog.views.as_slice();
        if !are_few(place, views.len()) || !are_few(place, dialog.rules.as_slice().len()) {
            return Ok(ViewNames { names });
        }
        for view in views {
            if let Some(name) = view.kind.name() {
                let name = text_of(alloc, name.as_slice())?;
                names.push(Named {
                    name,
                    kind: &view.kind,
                })?;
            }
        }
        Ok(ViewNames { names })
    }

    fn name_at(&self, place: Option<usize>) -> Option<&str> {
        let named = self.names.get(place?)?;
        Some(named.name.as_str())
    }

    /// Finds the name of such a view that is nearest to this one, if one is near.
    pub fn nearest(
        &self,
        alloc: Global,
        name: &str,
        bearer: Bearer,
    ) -> Result<Option<&str>, AllocError> {
        let unknown = Unknown::new(alloc, name)?;
        let mut nearest = Nearest::none();
        for (place, named) in self.names.iter().enumerate() {
            if bearer.allows(named.kind) {
                nearest = unknown.compare(alloc, nearest, place, &named.name)?;
            }
        }
        Ok(self.name_at(nearest.place))
    }
}
