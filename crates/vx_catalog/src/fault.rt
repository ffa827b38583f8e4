//! Why a relation's text or a write is refused.

use std::alloc::{AllocError, AllocFailed};
use thiserror::Error;

/// The first reason why a text does not hold rows of a relation.
///
/// Rows are counted from 0 without the header, columns and keys from 0.
#[derive(Clone, Copy, Debug, PartialEq, Eq, Error)]
pub enum LoadFault {
    /// No first record, or its fields are not the names of the columns in order.
    #[error("C4 HeaderMismatch")]
    HeaderMismatch,
    /// The row has another number of fields.
    #[error("C5 BadWidth row={row}")]
    BadWidth {
        row: usize,
    },
    /// A field of a column of numbers is no number of 64 signed bits.
    #[error("C6 BadInt row={row} col={col}")]
    BadInt {
        row: usize,
        col: usize,
    },
    /// A field of a column of texts is not UTF-8.
    #[error("C7 NotUtf8 row={row}")]
    NotUtf8 {
        row: usize,
    },
    /// Two rows agree on the key with this number.
    #[error("C8 KeyBroken key={key} first={first} second={second}")]
    KeyBroken {
        key: usize,
        first: usize,
        second: usize,
    },
    /// The row is smaller than the one before it.
    #[error("C9 OrderBroken row={row}")]
    OrderBroken {
        row: usize,
    },
    /// The reader failed.
    #[error("C10 ReadFailed")]
    ReadFailed,
    /// A growth was refused.
    #[error("C11 NoMemory")]
    NoMemory,
    /// Over 2^40 bytes, or over 100,000,000 rows.
    #[error("C12 TooLarge")]
    TooLarge,
}

impl From<AllocError> for LoadFault {
    ghost use Rattle.std.specs.Prelude.{◌≡◌};
    ghost use Rattle.vx_catalog.specs.declared.fault.LoadFault.TheVariants.{NoMemory};

    ghost from_gives = { λ _ e. e ≡ NoMemory };

    fn from(_e: AllocError) -> LoadFault {
        LoadFault::NoMemory
    }
}

impl<T: Drop> From<AllocFailed<T>> for LoadFault {
    ghost use Rattle.std.specs.Prelude.{◌≡◌};
    ghost use Rattle.vx_catalog.specs.declared.fault.LoadFault.TheVariants.{NoMemory};

    ghost from_gives = { λ _ e. e ≡ NoMemory };

    fn from(_e: AllocFailed<T>) -> LoadFault {
        LoadFault::NoMemory
    }
}

/// Why rows were not written. It has no code of its own: the program prints one.
#[derive(Clone, Copy, Debug, PartialEq, Eq, Error)]
pub enum WriteFault {
    /// The writer failed. It may have got some of the text.
    #[error("WriteFailed")]
    WriteFailed,
    /// A growth was refused, before the writer got anything.
    #[error("NoMemory")]
    NoMemory,
}

impl From<AllocError> for WriteFault {
    ghost use Rattle.std.specs.Prelude.{◌≡◌};
    ghost use Rattle.vx_catalog.specs.declared.fault.WriteFault.TheVariants.{NoMemory};

    ghost from_gives = { λ _ e. e ≡ NoMemory };

    fn from(_e: AllocError) -> WriteFault {
        WriteFault::NoMemory
    }
}
