//! Why a catalog is refused.

use std::alloc::{AllocError, AllocFailed};
use thiserror::Error;
use vx_catalog_json::Misread;

/// The first reason why a value is no catalog.
#[derive(Debug, Drop, Error)]
pub enum CatalogFault {
    /// Not JSON, or not of a catalog's form.
    #[error("C1 BadCatalog")]
    BadCatalog,
    /// A relation twice, or a column twice in a relation, in a key or in an order.
    #[error("C2 DuplicateName name={name}")]
    DuplicateName { name: String },
    /// A key or an order names no column.
    #[error("C3 UnknownColumn name={name}")]
    UnknownColumn { name: String },
    /// Out of memory.
    #[error("C11 NoMemory")]
    NoMemory,
    /// Over 256 relations, or a relation with over 64 columns or 16 keys.
    #[error("C12 TooLarge")]
    TooLarge,
}

impl From<AllocError> for CatalogFault {
    ghost use Rattle.std.specs.Prelude.{◌≡◌};
    ghost use Rattle.vx_catalog_relations.specs.declared.fault.CatalogFault.TheVariants.{NoMemory};

    ghost from_gives = { λ _ e. e ≡ NoMemory };

    fn from(_e: AllocError) -> CatalogFault {
        CatalogFault::NoMemory
    }
}

impl<T: Drop> From<AllocFailed<T>> for CatalogFault {
    ghost use Rattle.std.specs.Prelude.{◌≡◌};
    ghost use Rattle.vx_catalog_relations.specs.declared.fault.CatalogFault.TheVariants.{NoMemory};

    ghost from_gives = { λ _ e. e ≡ NoMemory };

    fn from(_e: AllocFailed<T>) -> CatalogFault {
        CatalogFault::NoMemory
    }
}

impl From<Misread> for CatalogFault {
    ghost use Rattle.std.specs.Prelude.{◌≡◌};
    ghost use Rattle.vx_catalog_relations.specs.Naming.{fault_of};

    ghost from_gives = { λ m e. e ≡ fault_of m };

    fn from(error: Misread) -> CatalogFault {
        match error {
            Misread::NotOfForm => CatalogFault::BadCatalog,
            Misread::NoMemory => CatalogFault::NoMemory,
        }
    }
}
