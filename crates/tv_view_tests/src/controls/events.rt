//! What bars make of events.

use super::bars::{Bars, MENUS, NO_MENUS};
use std::alloc::Global;
use std::test::Fail;
use tv_cells::Point;
use tv_event::{Command, CommandSet, Event, Key};
use tv_menu::Offered;

const F10: Event = Event::Key(Key::Function(10));

// What is offered an event: both bars, the menu bar, or the status line.
#[derive(Clone, Copy)]
enum Asked {
    Both,
    Bar,
    Line,
}

// An event, what it becomes, and whether a menu is open then.
struct Offer {
    asked: Asked,
    event: Event,
    offered: Offered,
    is_open: bool,
}

// Events that the bars of a description are offered one after the other, perhaps with a disabled command.
struct Offers {
    description: &'static str,
    disabled: Option<Command>,
    offers: &'static [Offer],
}

// The key of the status line, and keys through the menus.
const THROUGH_MENUS: Offers = Offers {
    description: MENUS,
    disabled: None,
    offers: &[
        Offer {
            asked: Asked::Line,
            event: F10,
            offered: Offered::Turned(Command(3)),
            is_open: false,
        },
        Offer {
            asked: Asked::Both,
            event: F10,
            offered: Offered::Taken,
            is_open: true,
        },
        Offer {
            asked: Asked::Both,
            event: Event::Key(Key::Right),
            offered: Offered::Taken,
            is_open: true,
        },
        Offer {
            asked: Asked::Both,
            event: Event::Key(Key::Enter),
            offered: Offered::Turned(Command(102)),
            is_open: false,
        },
        Offer {
            asked: Asked::Both,
            event: Event::Key(Key::Alt('F')),
            offered: Offered::Taken,
            is_open: true,
        },
        Offer {
            asked: Asked::Both,
            event: Event::Key(Key::Up),
            offered: Offered::Taken,
            is_open: true,
        },
        Offer {
            asked: Asked::Both,
            event: Event::Key(Key::Enter),
            offered: Offered::Turned(Command(1)),
            is_open: false,
        },
        Offer {
            asked: Asked::Both,
            event: F10,
            offered: Offered::Taken,
            is_open: true,
        },
    ],
};

const NO_MENU_OPENS: Offers = Offers {
    description: NO_MENUS,
    disabled: None,
    offers: &[
        Offer {
            asked: Asked::Bar,
            event: Event::Command(Command::MENU),
            offered: Offered::Left,
            is_open: false,
        },
        Offer {
            asked: Asked::Both,
            event: F10,
            offered: Offered::Turned(Command(3)),
            is_open: false,
        },
    ],
};

const DISABLED_ITEM_STAYS: Offers = Offers {
    description: MENUS,
    disabled: Some(Command::MENU),
    offers: &[
        Offer {
            asked: Asked::Line,
            event: F10,
            offered: Offered::Left,
            is_open: false,
        },
        Offer {
            asked: Asked::Line,
            event: Event::Down(Point { x: 3, y: 11 }),
            offered: Offered::Taken,
            is_open: false,
        },
    ],
};

fn expect_offer(bars: &mut Bars, offer: &Offer, enabled: &CommandSet) -> Result<(), Fail> {
    let found = match offer.asked {
        Asked::Both => bars.offer(&offer.event, enabled),
        Asked::Bar => bars.bar.offer(&offer.event, enabled),
        Asked::Line => bars.line.offer(&offer.event, enabled),
    };
    if found != offer.offered {
        return Err(Fail::new(format_args!("{found:?} for {:?}", offer.event)));
    }
    if bars.bar.is_open() != offer.is_open || bars.bar.box_bounds().is_some() != offer.is_open {
        return Err(Fail::new(format_args!("otherwise open after {:?}", offer.event)));
    }
    Ok(())
}

fn expect_offers(alloc: Global, offers: &Offers) -> Result<(), Fail> {
    let mut enabled = CommandSet::all();
    if let Some(command) = offers.disabled {
        enabled.disable(command);
    }
    let mut bars = Bars::new(alloc, offers.description)?;
    for offer in offers.offers {
        expect_offer(&mut bars, offer, &enabled)?;
    }
    Ok(())
}

#[test]
fn bars_take_events(rt: HostRuntime) -> Result<(), Fail> {
    expect_offers(rt.alloc(), &THROUGH_MENUS)?;
    expect_offers(rt.alloc(), &NO_MENU_OPENS)?;
    expect_offers(rt.alloc(), &DISABLED_ITEM_STAYS)
}
