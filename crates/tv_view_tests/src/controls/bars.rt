//! Bars, made of descriptions.

use super::limits::{are_lawful_menus, are_lawful_status_items, is_lawful_screen};
use std::alloc::Global;
use std::test::Fail;
use tv_event::{CommandSet, Event};
use tv_lang::parse;
use tv_menu::{MenuBar, Offered, StatusLine};
use tv_model::Desc;

/// Two menus and a status item: examples/menus.tvd.
pub const MENUS: &str = r#"tvd 1
screen 30 12
menu "~F~ile"
item "~N~ew" 101
item "~Q~uit" quit
end
menu "~E~dit"
item "~C~ut" 102
end
status "F10 Menu" F10 menu
"#;

/// No menu, and a status item.
pub const NO_MENUS: &str = r#"tvd 1
screen 30 12
status "F10 Menu" F10 menu
"#;

/// What stands above and below the desktop.
#[derive(Drop)]
pub struct Bars {
    pub bar: MenuBar,
    pub line: StatusLine,
}

impl Bars {
    /// The bars of the description that a text spells.
    pub fn new(alloc: Global, text: &str) -> Result<Bars, Fail> {
        let desc = parse(alloc, text.as_bytes())?;
        Bars::of(alloc, &desc)
    }

    fn of(alloc: Global, desc: &Desc) -> Result<Bars, Fail> {
        let menus = desc.menus.as_slice();
        let items = desc.status.as_slice();
        if !is_lawful_screen(&desc.width, &desc.height) {
            return Err("no lawful screen".into());
        }
        if !are_lawful_menus(menus) || !are_lawful_status_items(items) {
            return Err("outside the limits".into());
        }
        Ok(Bars {
            bar: MenuBar::new(alloc, desc)?,
            line: StatusLine::new(alloc, desc)?,
        })
    }

    /// Offers an event to the bar while a menu is open, else to the status line and then to the bar, which is offered the
    /// command that the line makes of it.
    pub fn offer(&mut self, event: &Event, enabled: &CommandSet) -> Offered {
        if self.bar.is_open() {
            return self.bar.offer(event, enabled);
        }
        match self.line.offer(event, enabled) {
            Offered::Taken => Offered::Taken,
            Offered::Left => self.bar.offer(event, enabled),
            Offered::Turned(command) => match self.bar.offer(&Event::Command(command), enabled) {
                Offered::Left => Offered::Turned(command),
                taken => taken,
            },
        }
    }
}
