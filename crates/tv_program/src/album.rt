//! Where pictures are put, one after the other.

ghost use Rattle.std.specs.Prelude.{◌∷◌, [], MatchResult, Option};
ghost use Rattle.tv_program.specs.Albums.{FailsFor, Gains, Hung, drawn_as};
ghost use Rattle.tv_terminal.specs.Svg.{svg_of};

use tv_cells::Screen;

/// Why a picture was not put into an album.
#[derive(Clone, Copy, Debug, Drop, PartialEq, Eq)]
pub enum AlbumFault {
    NoMemory,
    /// There is no place for it, or it couldn't be written.
    Write,
}

/// Where pictures are put, each under a name. Contracts see the names and texts of those that it has, in order,
/// and how many it could not write, where that is known.
pub trait Album {
    ghost hung: { Self → Option Hung };

    /// Draws a screen and puts it under a name. A picture that fails isn't counted.
    fn add(&mut self, name: &str, screen: &Screen) -> Result<(), AlbumFault>
        ensures { MatchResult result
            (λ _. Gains (hung self.old) (hung self.new) (drawn_as name.now (svg_of screen.now) ∷ []))
            (λ fault. FailsFor (hung self.old) (hung self.new) fault) };
}
