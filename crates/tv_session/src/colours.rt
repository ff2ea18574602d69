//! The colours of windows.

ghost use Rattle.std.specs.Prelude.{◌≡◌, ◌∷◌, []};
ghost use Rattle.tv_palette.specs.Palettes.{application, window};

use tv_palette::Chain;

/// The palettes of what a window owns, which all windows of a run share.
#[derive(Drop)]
pub(crate) struct Colours {
    chain: Chain,
    ghost of_window: { chain ≡ window ∷ application ∷ [] },
}

impl Colours {
    /// Makes the colours, once for a run.
    pub(crate) fn new() -> Colours {
        Colours {
            chain: Chain::of_window(),
        }
    }

    /// Returns the chain of palettes.
    pub(crate) fn chain(&self) -> &Chain
        ensures { result.now ≡ window ∷ application ∷ [] }
    {
        &self.chain
    }
}
