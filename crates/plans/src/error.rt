ghost use Rattle.std.specs.Prelude.{◌≡◌};
ghost use Rattle.plans.specs.declared.error.ReadError.TheVariants.{Refused, Memory};

use model::Refusal;
use std::alloc;

// Why a text was not read.
#[derive(Clone, Copy)]
pub enum ReadError {
    // it is no text of a plan
    Refused(Refusal),
    // there was no memory for its plan
    Memory,
}

impl From<Refusal> for ReadError {
    ghost from_gives = { λ f r. r ≡ Refused f };

    fn from(refusal: Refusal) -> ReadError {
        ReadError::Refused(refusal)
    }
}

impl<T: Drop> From<alloc::AllocFailed<T>> for ReadError {
    ghost from_gives = { λ _ r. r ≡ Memory };

    fn from(_refused: alloc::AllocFailed<T>) -> ReadError {
        ReadError::Memory
    }
}
