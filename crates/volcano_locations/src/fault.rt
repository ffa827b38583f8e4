//! Why a place is not found again. A place is a line and its columns in the text of a table, or a path of members in the
//! document of a plan.

use std::alloc::{AllocError, AllocFailed};
use thiserror::Error;
use vx_catalog_bytes::Broken;

/// Why a place is not found again.
#[derive(Clone, Copy, Debug, Drop, PartialEq, Eq, Error)]
pub enum PlaceFault {
    /// Out of memory.
    #[error("no memory")]
    NoMemory,
    /// The text fails, or has more lines than can be counted.
    #[error("unreadable")]
    Unreadable,
}

impl From<AllocError> for PlaceFault {
    ghost use Rattle.std.specs.Prelude.{◌≡◌};
    ghost use Rattle.volcano_locations.specs.declared.fault.PlaceFault.TheVariants.{NoMemory};

    ghost from_gives = { λ _ e. e ≡ NoMemory };

    fn from(_e: AllocError) -> PlaceFault {
        PlaceFault::NoMemory
    }
}

impl<T: Drop> From<AllocFailed<T>> for PlaceFault {
    ghost use Rattle.std.specs.Prelude.{◌≡◌};
    ghost use Rattle.volcano_locations.specs.declared.fault.PlaceFault.TheVariants.{NoMemory};

    ghost from_gives = { λ _ e. e ≡ NoMemory };

    fn from(_e: AllocFailed<T>) -> PlaceFault {
        PlaceFault::NoMemory
    }
}

impl From<Broken> for PlaceFault {
    ghost use Rattle.std.specs.Prelude.{◌≡◌};
    ghost use Rattle.volcano_locations.specs.declared.fault.PlaceFault.TheVariants.{Unreadable};

    ghost from_gives = { λ _ e. e ≡ Unreadable };

    fn from(_e: Broken) -> PlaceFault {
        PlaceFault::Unreadable
    }
}
