//! What the menu bar and the status line keep.

ghost use Rattle.tv_menu.specs.Lawful.{AreLawfulMenus, AreLawfulStatusItems, IsLawfulScreen};

use crate::effect::Place;
use tv_model::{Menu, Sequence, StatusItem};

/// The first row of the screen: the titles of menus, one of which may be open.
#[derive(Debug, Drop)]
pub struct MenuBar {
    pub(crate) width: i32,
    pub(crate) height: i32,
    pub(crate) menus: Sequence<Menu>,
    pub(crate) open: Option<Place>,
    ghost screen: { IsLawfulScreen width height },
    ghost lawful: { AreLawfulMenus menus },
}

/// The last row of the screen: items, each of which gives its command by its key or a mouse down, while it is enabled.
#[derive(Debug, Drop)]
pub struct StatusLine {
    pub(crate) width: i32,
    pub(crate) height: i32,
    pub(crate) items: Sequence<StatusItem>,
    ghost screen: { IsLawfulScreen width height },
    ghost lawful: { AreLawfulStatusItems items },
}
