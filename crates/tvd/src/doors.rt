//! A description at work behind a handle: a room of the caller's, in which it lies between calls.

ghost use Rattle.std.specs.Ptr.{room_at};
ghost use Rattle.tv_held.specs.Holding.{Begins, Holding, IsHeld};
ghost use Rattle.tv_held.specs.contracts.held.Held.{the_row};
ghost use Rattle.tvd.specs.Doors.{Does, HeldAfter, HeldAt, IsToldBy, OpenedAt};
ghost use types.Logic.{sem};

use std::alloc::Global;
use tv_held::{Answer, Asked, Held, Told};

/// The bytes of a handle's room.
const SIZE: usize = size_of::<Held>();

/// Returns how many bytes a handle's room has.
#[unsafe(no_mangle)]
pub extern "C" fn tvd_size() -> usize {
    SIZE
}

/// Begins a run of the description that the text spells in the room. Where it spells no sound one, each call that asks for
/// something answers so. Either way the handle is to be closed.
#[unsafe(no_mangle)]
pub unsafe extern "C" fn tvd_open(at: *mut u8, alloc: Global, text: &[u8])
    requires* { sem 𝓛 (room_at the_row at) }
    ensures* { sem 𝓛 (OpenedAt at text.now) }
{
    std::ptr::write(at.cast::<Held>(), begun(alloc, text));
}

fn begun(alloc: Global, text: &[u8]) -> Held
    ensures { (h : Holding) × IsHeld result h × Begins text.now h }
{
    Held::new(alloc, text)
}

/// Does what the number asks for with the input. A text goes to the room, and `used` says how many bytes it has, or how many of the
/// input's were taken.
#[unsafe(no_mangle)]
pub unsafe extern "C" fn tvd_do(
    at: *mut u8,
    alloc: Global,
    asked: u32,
    input: &[u8],
    room: &mut [u8],
    used: &mut usize,
) -> u8
    ghost held: { Holding }
    requires* { sem 𝓛 (HeldAt at held) }
    ensures* { sem 𝓛 (HeldAfter at held asked input.now room.old room.new used.new result) }
{
    act(&mut *at.cast::<Held>(), alloc, asked, input, room, used)
}

fn act(
    held: &mut Held,
    alloc: Global,
    asked: u32,
    input: &[u8],
    room: &mut [u8],
    used: &mut usize,
) -> u8
    requires { (h : Holding) × IsHeld held.old h }
    ensures { (h : Holding) → IsHeld held.old h
        → (later : Holding) × IsHeld held.new later × Does asked input.now h later room.old room.new used.new result }
{
    let told = told_by(held, alloc, Asked::of(asked), input, room);
    *used = told.used;
    told.answer.number()
}

fn told_by(
    held: &mut Held,
    alloc: Global,
    asked: Option<Asked>,
    input: &[u8],
    room: &mut [u8],
) -> Told
    requires { (h : Holding) × IsHeld held.old h }
    ensures { (h : Holding) → IsHeld held.old h
        → (later : Holding) × IsHeld held.new later × IsToldBy asked input.now h later room.old room.new result }
{
    match asked {
        Some(asked) => held.ask(alloc, asked, input, room),
        None => Told::bare(Answer::Refused),
    }
}

/// Ends what stands at the handle. The room is the caller's again.
#[unsafe(no_mangle)]
pub unsafe extern "C" fn tvd_close(at: *mut u8)
    ghost held: { Holding }
    requires* { sem 𝓛 (HeldAt at held) }
    ensures* { sem 𝓛 (room_at the_row at) }
{
    ended(std::ptr::read(at.cast::<Held>()));
}

fn ended(held: Held) {
    drop(held);
}
