//! Why a picture is refused.

ghost use Rattle.std.specs.Prelude.{◌≡◌};

use std::alloc::AllocError;
use thiserror::Error;

/// Why a text is no picture.
#[derive(Clone, Copy, Debug, PartialEq, Eq, Error)]
pub enum PictureFault {
    #[error("out of memory")]
    NoMemory,
    /// A picture begins with so many characters of the text, and none with one more.
    #[error("not a picture after {0} characters")]
    Syntax(usize),
}

impl From<AllocError> for PictureFault {
    ghost use Rattle.std.specs.Prelude.{◌≡◌};
    ghost use Rattle.tv_picture.specs.declared.fault.PictureFault.TheVariants.{NoMemory};

    ghost from_gives = { λ _ e. e ≡ NoMemory };

    fn from(_error: AllocError) -> PictureFault {
        PictureFault::NoMemory
    }
}
