//! Why a JSON value is not read.

use std::alloc::{AllocError, AllocFailed};

/// Why a JSON value is not read.
#[derive(Clone, Copy, PartialEq, Eq)]
pub enum Misread {
    /// The value does not have the form that is asked for.
    NotOfForm,
    /// Memory ran out.
    NoMemory,
}

impl From<AllocError> for Misread {
    ghost use Rattle.std.specs.Prelude.{◌≡◌};
    ghost use Rattle.vx_catalog_json.specs.declared.misread.Misread.TheVariants.{NoMemory};

    ghost from_gives = { λ _ e. e ≡ NoMemory };

    fn from(_e: AllocError) -> Misread {
        Misread::NoMemory
    }
}

impl<T: Drop> From<AllocFailed<T>> for Misread {
    ghost use Rattle.std.specs.Prelude.{◌≡◌};
    ghost use Rattle.vx_catalog_json.specs.declared.misread.Misread.TheVariants.{NoMemory};

    ghost from_gives = { λ _ e. e ≡ NoMemory };

    fn from(_e: AllocFailed<T>) -> Misread {
        Misread::NoMemory
    }
}
