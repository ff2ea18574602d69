//! Screens, queues of events, pictures and domains.

use super::ending::{Ending, expect, expect_whole};
use std::alloc::Global;
use std::test::Fail;
use tv_cells::{Screen, ScreenFault};
use tv_event::{Command, Event, Pending};
use tv_picture::{Picture, PictureFault};
use tv_valid::{Chars, Domain, DomainFault, DomainSpec, InputSpec};

fn made_screen(alloc: Global) -> Result<(), Ending> {
    match Screen::new(alloc, 132, 60) {
        Ok(screen) => expect(screen.width() == 132, "another screen"),
        Err(ScreenFault::NoMemory) => Err(Ending::NoMemory),
        Err(ScreenFault::BadSize) => Err(Ending::Other("the size is refused")),
    }
}

#[test]
fn screen(rt: HostRuntime) -> Result<(), Fail> {
    expect_whole(made_screen(rt.alloc()))
}

// A queue that was made has room for four events.
fn made_queue(alloc: Global) -> Result<(), Ending> {
    let mut pending = Pending::new(alloc)?;
    let events = [
        Event::Command(Command::OK),
        Event::Command(Command::CANCEL),
        Event::Command(Command::YES),
        Event::Command(Command::NO),
    ];
    pending.post(events[0]);
    pending.post(events[1]);
    pending.post(events[2]);
    pending.post(events[3]);
    for event in events {
        expect(pending.next() == Some(event), "another event")?;
    }
    Ok(())
}

#[test]
fn queue(rt: HostRuntime) -> Result<(), Fail> {
    expect_whole(made_queue(rt.alloc()))
}

fn read_picture(alloc: Global) -> Result<(), Ending> {
    match Picture::parse(alloc, "*3#[-*2&]") {
        Ok(picture) => expect(picture.shortest() == 3, "another picture"),
        Err(PictureFault::NoMemory) => Err(Ending::NoMemory),
        Err(PictureFault::Syntax(_)) => Err(Ending::Other("the picture is refused")),
    }
}

#[test]
fn picture(rt: HostRuntime) -> Result<(), Fail> {
    expect_whole(read_picture(rt.alloc()))
}

fn refused_picture(alloc: Global) -> Result<(), Ending> {
    match Picture::parse(alloc, "[a").err() {
        Some(PictureFault::NoMemory) => Err(Ending::NoMemory),
        fault => expect(fault == Some(PictureFault::Syntax(2)), "another fault"),
    }
}

#[test]
fn faulty_picture(rt: HostRuntime) -> Result<(), Fail> {
    expect_whole(refused_picture(rt.alloc()))
}

// The fault of a domain of texts of at most four characters.
fn fault_of(alloc: Global, domain: DomainSpec) -> Result<Option<DomainFault>, Ending> {
    let spec = InputSpec {
        max: 4,
        domain,
        optional: false,
        fill: false,
    };
    match Domain::new(alloc, &spec).err() {
        Some(DomainFault::NoMemory) => Err(Ending::NoMemory),
        fault => Ok(fault),
    }
}

fn expect_domain(alloc: Global, domain: DomainSpec) -> Result<(), Ending> {
    let fault = fault_of(alloc, domain)?;
    expect(fault.is_none(), "the domain is refused")
}

fn made_domains(alloc: Global) -> Result<(), Ending> {
    let range = DomainSpec::Range {
        least: -5,
        greatest: 5,
    };
    expect_domain(alloc, range)?;
    let picture = Chars::from_slice(alloc, &['#', '#'])?;
    expect_domain(alloc, DomainSpec::Picture(picture))?;
    let filter = Chars::from_slice(alloc, &['0', '1'])?;
    expect_domain(alloc, DomainSpec::Filter(filter))
}

#[test]
fn domains(rt: HostRuntime) -> Result<(), Fail> {
    expect_whole(made_domains(rt.alloc()))
}
