//! The colours of dialogs.

ghost use Rattle.std.specs.Prelude.{◌≡◌, ◌∷◌, []};
ghost use Rattle.tv_palette.specs.Palettes.{application, dialog};

use tv_palette::Chain;

/// The palettes of what a dialog owns, which all dialogs of a run share.
#[derive(Drop)]
pub(crate) struct Colours {
    chain: Chain,
    ghost of_dialog: { chain ≡ dialog ∷ application ∷ [] },
}

impl Colours {
    /// Makes the colours, once for a run.
    pub(crate) fn new() -> Colours {
        Colours {
            chain: Chain::of_dialog(),
        }
    }

    /// Returns the chain of palettes.
    pub(crate) fn chain(&self) -> &Chain
        ensures { result.now ≡ dialog ∷ application ∷ [] }
    {
        &self.chain
    }
}
