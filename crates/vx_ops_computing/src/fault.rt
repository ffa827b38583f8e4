//! Why columns are not computed.

use std::alloc::{AllocError, AllocFailed};

/// Why columns are not computed.
#[derive(Clone, Copy, Debug, PartialEq, Eq)]
pub enum ComputeFault {
    /// A function overflows for some row.
    Overflow,
    /// Out of memory.
    NoMemory,
}

impl From<AllocError> for ComputeFault {
    ghost use Rattle.std.specs.Prelude.{◌≡◌};
    ghost use Rattle.vx_ops_computing.specs.declared.fault.ComputeFault.TheVariants.{NoMemory};

    ghost from_gives = { λ _ e. e ≡ NoMemory };

    fn from(_e: AllocError) -> ComputeFault {
        ComputeFault::NoMemory
    }
}

impl<T: Drop> From<AllocFailed<T>> for ComputeFault {
    ghost use Rattle.std.specs.Prelude.{◌≡◌};
    ghost use Rattle.vx_ops_computing.specs.declared.fault.ComputeFault.TheVariants.{NoMemory};

    ghost from_gives = { λ _ e. e ≡ NoMemory };

    fn from(_e: AllocFailed<T>) -> ComputeFault {
        ComputeFault::NoMemory
    }
}
