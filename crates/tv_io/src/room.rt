//! A text shown in a room.

ghost use Rattle.tv_io.specs.Rooms.{Shows};

/// Copies the text to the front of the room, where it fits; else the room stays as it was. Returns how many bytes the text has.
pub fn show(text: &[u8], room: &mut [u8]) -> usize
    ensures { Shows room.old room.new result text.now }
{
    let count = text.len();
    if count <= room.len() {
        room[..count].copy_from_slice(text);
    }
    count
}
