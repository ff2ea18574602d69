//! Where files come from.

ghost use Rattle.std.specs.Prelude.{List, ℕ};
ghost use Rattle.tv_files.specs.Files.{Known, MakesAs, OpensAs};

use std::alloc::Global;
use tv_io::{ReadFault, Reader, Writer};
use tv_program::AlbumFault;

/// Where files come from. Contracts see what the file of each path holds, at which paths there is none, which paths were
/// opened and which were made, in order, and how many could not be, where these are known.
pub trait FileStore {
    /// A file that was opened, and is read from its first byte on.
    type File: Reader + Drop;

    /// A file that was made, and is written.
    type Made: Writer + Drop;

    ghost known: { Self → Known };

    /// What makes one the file of a path, when it was just made.
    ghost made_at: { Self.Made → List ℕ → Type 0 };

    /// Opens the file of a path. Reads nothing of it.
    fn open(&mut self, path: &str) -> Result<Self::File, ReadFault>
        ensures { OpensAs Self.File.seen (known self.old) (known self.new) path.now result };

    /// Makes the file of a path, in place of what it held. A path counts as made also where its file can't be.
    fn make(&mut self, alloc: Global, path: &str) -> Result<Self::Made, AlbumFault>
        ensures { MakesAs made_at (known self.old) (known self.new) path.now result };
}
