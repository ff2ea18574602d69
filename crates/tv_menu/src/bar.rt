//! The menu bar: which menu is open, and what events make of it.

ghost use Rattle.std.specs.Prelude.{◌≡◌, ◌==◌, IfOk, None, is_some};
ghost use Rattle.tv_machine.specs.State.{State};
ghost use Rattle.tv_machine.specs.Session.Commands.{open_first};
ghost use Rattle.tv_model.specs.declared.desc.Desc.{Desc as Declared};
ghost use Rattle.tv_menu.specs.Bar.{IsBarOf, bar_offer, command_offered, made, open_of, outcome};
ghost use Rattle.tv_menu.specs.Lawful.{AreLawfulMenus, IsLawfulScreen};
ghost use Rattle.tv_menu.specs.declared.offered.Offered.TheVariants as offers;

use crate::bars::MenuBar;
use crate::effect::{Effect, Place};
use crate::menus::copy_menu;
use crate::offered::Offered;
use std::alloc::{AllocError, Global};
use tv_event::{Command, CommandSet, Event};
use tv_model::Desc;

fn is_menu(command: Command) -> bool
    ensures { result ≡ (command.0 == 3) }
{
    command.0 == Command::MENU.0
}

impl MenuBar {
    /// Makes the bar of a description whose numbers, counts and texts lie within the limits, with no menu open.
    ///
    /// # Errors
    ///
    /// `AllocError` where there is no memory for its texts.
    pub fn new(alloc: Global, desc: &Desc) -> Result<MenuBar, AllocError>
        requires screen { IsLawfulScreen desc.now.width desc.now.height }
        requires menus { AreLawfulMenus desc.now.menus }
        ensures is { IfOk result (λ bar. IsBarOf desc.now bar) }
        ensures closed { IfOk result (λ bar. open_of bar ≡ None) }
    {
        Ok(MenuBar {
            width: desc.width,
            height: desc.height,
            menus: desc.menus.copy_by(alloc, copy_menu)?,
            open: None,
        })
    }

    /// Offers the bar an event. While a menu is open the bar takes keys and mouse downs; otherwise it takes what opens
    /// a menu, and leaves all else. The items of menus are always enabled, whatever commands are.
    pub fn offer(&mut self, event: &Event, _enabled: &CommandSet) -> Offered
        ensures answer { (d : Declared) (s : State) → IsBarOf d self.old → s.menu ≡ open_of self.old
            → outcome d result (open_of self.new) s ≡ bar_offer d event.now s }
        ensures left { result ≡ offers.Left → self.new ≡ self.old }
        ensures closed { (command : Command) → result ≡ offers.Turned command → open_of self.new ≡ None }
        ensures stays { (d : Declared) → IsBarOf d self.old → IsBarOf d self.new }
    {
        match self.effect(event) {
            Effect::Leaves => Offered::Left,
            Effect::Stays => Offered::Taken,
            Effect::Shows(place) => {
                self.open = Some(place);
                Offered::Taken
            }
            Effect::Closes => {
                self.open = None;
                Offered::Taken
            }
            Effect::Chooses(command) => {
                self.open = None;
                Offered::Turned(command)
            }
        }
    }

    /// Opens the first menu with its first item, if there is a menu.
    pub fn open_first(&mut self)
        ensures opened { (d : Declared) (s : State) → IsBarOf d self.old → s.menu ≡ open_of self.old
            → (open_first d.menus s).menu ≡ open_of self.new }
        ensures stays { (d : Declared) → IsBarOf d self.old → IsBarOf d self.new }
    {
        if !self.menus.as_slice().is_empty() {
            self.open = Some(Place { menu: 0, item: 0 });
        }
    }

    /// Closes the open menu, if there is one.
    pub fn close(&mut self)
        ensures shut { open_of self.new ≡ None }
        ensures stays { (d : Declared) → IsBarOf d self.old → IsBarOf d self.new }
    {
        self.open = None;
    }

    /// Whether the bar takes the event, where it is offered.
    pub fn takes(&self, event: &Event) -> bool
        ensures { (d : Declared) (s : State) → IsBarOf d self.now → s.menu ≡ open_of self.now → result ≡ is_some (bar_offer d event.now s) }
    {
        !matches!(self.effect(event), Effect::Leaves)
    }

    fn effect(&self, event: &Event) -> Effect
        ensures { (d : Declared) (s : State) → IsBarOf d self.now → s.menu ≡ open_of self.now → made d result s ≡ bar_offer d event.now s }
    {
        match event {
            Event::Key(key) => self.key_effect(*key),
            Event::Down(point) => self.down_effect(*point),
            Event::Command(command) => self.command_effect(*command),
            _ => Effect::Leaves,
        }
    }

    // What a command does: `menu` opens the first menu, if there is one.
    fn command_effect(&self, command: Command) -> Effect
        ensures { (d : Declared) (s : State) → IsBarOf d self.now → made d result s ≡ command_offered d command s }
    {
        if is_menu(command) && !self.menus.as_slice().is_empty() {
            Effect::Shows(Place { menu: 0, item: 0 })
        } else {
            Effect::Leaves
        }
    }
}
