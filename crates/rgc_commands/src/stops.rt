//! Why a command has no answer.

use rg_words::Refusal;
use std::alloc::AllocError;

/// Why a command has no answer.
#[derive(Drop)]
pub enum Stop {
    /// A file can't be read; the line that says so.
    Device(&'static str),
    Refused(Refusal),
    /// Some conditions of an outline have no proof; what is printed of that.
    Unverified(Vec<u8>),
    /// An outline is refused, words can't be erased, or no C does a step at once; the lines that say why.
    Fault(Vec<u8>),
    /// What the words say doesn't fit; the line that says so.
    Usage(&'static str),
}

impl From<Refusal> for Stop {
    ghost use Rattle.std.specs.Prelude.{◌≡◌};
    ghost use Rattle.rgc_commands.specs.declared.stops.Stop.TheVariants.{Refused};

    ghost from_gives = { λ refusal stop. stop ≡ Refused refusal };

    fn from(refusal: Refusal) -> Stop {
        Stop::Refused(refusal)
    }
}

impl From<AllocError> for Stop {
    ghost use Rattle.std.specs.Prelude.{◌≡◌};
    ghost use Rattle.rg_words.specs.Refusals.{no_memory};
    ghost use Rattle.rgc_commands.specs.declared.stops.Stop.TheVariants.{Refused};

    ghost from_gives = { λ _ stop. stop ≡ Refused no_memory };

    fn from(error: AllocError) -> Stop {
        Stop::Refused(Refusal::from(error))
    }
}
