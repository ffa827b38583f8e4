//! Why no catalog is found.

use std::alloc::{AllocError, AllocFailed};
use thiserror::Error;
use vx_catalog::LoadFault;
use vx_catalog_relations::CatalogFault;

/// The first reason why no catalog is found in texts.
#[derive(Debug, Drop, Error)]
pub enum FindFault {
    /// The text with this number, counted from 0, is not one of a relation.
    #[error("{fault}")]
    Load { text: usize, fault: LoadFault },
    /// The relations are no catalog: two have one name, or a name is used twice for columns, is empty, or there are too many.
    #[error(transparent)]
    Catalog(CatalogFault),
    /// Out of memory.
    #[error("no memory")]
    NoMemory,
}

impl From<AllocError> for FindFault {
    ghost use Rattle.std.specs.Prelude.{◌≡◌};
    ghost use Rattle.vx_catalog_finding.specs.declared.fault.FindFault.TheVariants.{NoMemory};

    ghost from_gives = { λ _ e. e ≡ NoMemory };

    fn from(_e: AllocError) -> FindFault {
        FindFault::NoMemory
    }
}

impl<T: Drop> From<AllocFailed<T>> for FindFault {
    ghost use Rattle.std.specs.Prelude.{◌≡◌};
    ghost use Rattle.vx_catalog_finding.specs.declared.fault.FindFault.TheVariants.{NoMemory};

    ghost from_gives = { λ _ e. e ≡ NoMemory };

    fn from(_e: AllocFailed<T>) -> FindFault {
        FindFault::NoMemory
    }
}

impl From<CatalogFault> for FindFault {
    ghost use Rattle.std.specs.Prelude.{◌≡◌};
    ghost use Rattle.vx_catalog_finding.specs.declared.fault.FindFault.TheVariants as fault;

    ghost from_gives = { λ f e. e ≡ fault.Catalog f };

    fn from(fault: CatalogFault) -> FindFault {
        FindFault::Catalog(fault)
    }
}
