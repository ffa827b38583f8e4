//! Why a relation is not generated.

use std::alloc::AllocError;
use thiserror::Error;
use vx_catalog_bytes::Broken;

/// Why the text of a relation was not written. It has no code of its own: the program prints one.
#[derive(Clone, Copy, Debug, PartialEq, Eq, Error)]
pub enum GenerateFault {
    /// Over 10,000,000 rows.
    #[error("TooLarge")]
    TooLarge,
    /// The writer failed. It may have got some of the text.
    #[error("WriteFailed")]
    WriteFailed,
    /// A growth was refused, before the writer got anything.
    #[error("NoMemory")]
    NoMemory,
}

impl From<AllocError> for GenerateFault {
    ghost use Rattle.std.specs.Prelude.{◌≡◌};
    ghost use Rattle.vx_wisconsin.specs.declared.fault.GenerateFault.TheVariants.{NoMemory};

    ghost from_gives = { λ _ e. e ≡ NoMemory };

    fn from(_e: AllocError) -> GenerateFault {
        GenerateFault::NoMemory
    }
}

impl From<Broken> for GenerateFault {
    ghost use Rattle.std.specs.Prelude.{◌≡◌};
    ghost use Rattle.vx_wisconsin.specs.declared.fault.GenerateFault.TheVariants.{WriteFailed};

    ghost from_gives = { λ _ e. e ≡ WriteFailed };

    fn from(_e: Broken) -> GenerateFault {
        GenerateFault::WriteFailed
    }
}
