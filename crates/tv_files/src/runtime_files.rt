//! The files of the system.

ghost use Rattle.std.specs.Prelude.{None, false};

use crate::file_store::FileStore;
use crate::runtime_album::fault_of;
use std::alloc::Global;
use std::fs::{File, create};
use std::rt::Files;
use tv_io::{Device, FileReader, ReadFault};
use tv_program::AlbumFault;

/// The files of a runtime. Nothing is known of what they hold.
#[derive(Drop)]
pub struct RuntimeFiles<'a, R: Files> {
    rt: &'a R,
}

impl<'a, R: Files> RuntimeFiles<'a, R> {
    /// Makes a store of the files of the runtime.
    pub fn new(rt: &'a R) -> RuntimeFiles<'a, R> {
        RuntimeFiles { rt }
    }
}

impl<R: Files> FileStore for RuntimeFiles<'_, R> {
    type File = FileReader<R::File>;

    type Made = Device<R::File>;

    ghost known = { λ _. record { contents = λ _. None; absent = λ _. false; opened = None; made = None; failures = None } };

    ghost made_at = { λ _ _. Unit {0} };

    fn open(&mut self, path: &str) -> Result<FileReader<R::File>, ReadFault> {
        let file = File::open(self.rt, path)?;
        Ok(FileReader::new(file))
    }

    fn make(&mut self, alloc: Global, path: &str) -> Result<Device<R::File>, AlbumFault> {
        let file = match create(self.rt, path) {
            Ok(file) => file,
            Err(error) => return Err(fault_of(&error)),
        };
        match Device::new(alloc, file) {
            Ok(device) => Ok(device),
            Err(_) => Err(AlbumFault::NoMemory),
        }
    }
}
