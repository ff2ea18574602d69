//! Pictures in files of the system.

ghost use Rattle.std.specs.Io.KnownBytes.{Appends};
ghost use Rattle.std.specs.IoError.{error_kind};
ghost use Rattle.std.specs.Prelude.{◌≡◌, [], IfOk, None};
ghost use Rattle.tv_files.specs.Unmade.{unmade_for};
ghost use Rattle.tv_io.specs.Device.{device_seen};
ghost use Rattle.tv_terminal.specs.Svg.{svg_of};

use std::alloc::Global;
use std::fs::create;
use std::io;
use std::io::{ErrorKind, Write};
use std::rt::Files;
use tv_cells::Screen;
use tv_io::Device;
use tv_program::{Album, AlbumFault};
use tv_terminal::write_svg;

/// Puts each picture into the file of a runtime whose path is its name, in place of what that held. Nothing is known of what the
/// files hold then.
///
/// A picture that fails may leave a part of itself in its file.
#[derive(Drop)]
pub struct RuntimeAlbum<'a, R: Files> {
    rt: &'a R,
    alloc: Global,
}

impl<'a, R: Files> RuntimeAlbum<'a, R> {
    /// Pictures in the files of the runtime.
    pub fn new(rt: &'a R, alloc: Global) -> RuntimeAlbum<'a, R> {
        RuntimeAlbum { rt, alloc }
    }
}

impl<R: Files> Album for RuntimeAlbum<'_, R> {
    ghost hung = { λ _. None };

    fn add(&mut self, name: &str, screen: &Screen) -> Result<(), AlbumFault> {
        match create(self.rt, name) {
            Ok(file) => draw_into(self.alloc, file, screen)?,
            Err(error) => return Err(fault_of(&error)),
        };
        Ok(())
    }
}

// Draws the screen into the writer, which has taken all of the picture then.
fn draw_into<W: Write + Drop>(
    alloc: Global,
    writer: W,
    screen: &Screen,
) -> Result<Device<W>, AlbumFault>
    ensures drawn { IfOk result (λ device. Appends (W.contents writer) (device_seen W.contents device).taken (svg_of screen.now)) }
    ensures written { IfOk result (λ device. (device_seen W.contents device).kept ≡ []) }
{
    let Ok(mut device) = Device::new(alloc, writer) else {
        return Err(AlbumFault::NoMemory);
    };
    if write_svg(screen, &mut device).is_err() || device.flush().is_err() {
        return Err(AlbumFault::Write);
    }
    Ok(device)
}

/// Why no file was made.
pub(crate) fn fault_of(error: &io::Error) -> AlbumFault
    ensures { result ≡ unmade_for (error_kind error.now) }
{
    match error.kind() {
        ErrorKind::OutOfMemory => AlbumFault::NoMemory,
        _ => AlbumFault::Write,
    }
}
