//! How a call ends whose memory may be refused.

use std::alloc::AllocError;
use std::test::Fail;

/// Why a call didn't come to what it should.
#[derive(Clone, Copy, Debug, PartialEq, Eq)]
pub enum Ending {
    /// An allocation was refused, and the call said so.
    NoMemory,
    /// It came to something else.
    Other(&'static str),
}

impl From<AllocError> for Ending {
    ghost use Rattle.std.specs.Prelude.{◌≡◌};
    ghost use Rattle.tv_program_tests.specs.declared.refusals.ending.Ending.TheVariants.{NoMemory};

    ghost from_gives = { λ _ ending. ending ≡ NoMemory };

    fn from(_error: AllocError) -> Ending {
        Ending::NoMemory
    }
}

/// Ends otherwise unless this holds.
pub fn expect(holds: bool, otherwise: &'static str) -> Result<(), Ending> {
    if holds {
        Ok(())
    } else {
        Err(Ending::Other(otherwise))
    }
}

/// Ends as a call whose memory was refused, if what came back of it served a second call.
pub fn refused(again: bool) -> Result<(), Ending> {
    expect(again, "what came back doesn't serve")?;
    Err(Ending::NoMemory)
}

/// Passes where the call came to what it should. `tools/refusals` knows by `no memory` that a call named its refusal.
pub fn expect_whole(ending: Result<(), Ending>) -> Result<(), Fail> {
    match ending {
        Ok(()) => Ok(()),
        Err(Ending::NoMemory) => Err(Fail::new("no memory")),
        Err(Ending::Other(what)) => Err(Fail::new(what)),
    }
}
