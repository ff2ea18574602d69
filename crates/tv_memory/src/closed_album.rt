//! An album that takes no picture.

ghost use Rattle.std.specs.Prelude.{◌≡◌};
ghost use Rattle.tv_memory.specs.Closed.{album_of};

use tv_cells::Screen;
use tv_program::{Album, AlbumFault};

/// Takes no picture: none can be written. It counts those that it was given.
#[derive(Drop)]
pub struct ClosedAlbum {
    failures: u64,
}

impl ClosedAlbum {
    /// One that was given none.
    pub fn new() -> ClosedAlbum
        ensures { result.failures ≡ 0 }
    {
        ClosedAlbum { failures: 0 }
    }
}

impl Album for ClosedAlbum {
    ghost use Rattle.std.specs.Prelude.{[], ◌∷◌, Err, MatchResult};
    ghost use Rattle.tv_program.specs.Albums.{FailsFor, Gains, drawn_as};
    ghost use Rattle.tv_program.specs.declared.album.AlbumFault.TheVariants.{Write};
    ghost use Rattle.tv_terminal.specs.Svg.{svg_of};

    ghost hung = { λ album. album_of album.failures };

    // The first clause is that of the trait, which doesn't stand beside one of its own.
    fn add(&mut self, _name: &str, _screen: &Screen) -> Result<(), AlbumFault>
        ensures hung { MatchResult result
            (λ _. Gains (album_of self.old.failures) (album_of self.new.failures) (drawn_as _name.now (svg_of _screen.now) ∷ []))
            (λ fault. FailsFor (album_of self.old.failures) (album_of self.new.failures) fault) }
        ensures closed { result ≡ Err Write }
    {
        self.failures = self.failures.saturating_add(1);
        Err(AlbumFault::Write)
    }
}
