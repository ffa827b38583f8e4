//! Why a plan has no serial rows.

use std::alloc::{AllocError, AllocFailed};
use thiserror::Error;

/// Why a plan is not evaluated over a database, or why it has no rows there. Nodes are numbered as the plan that is
/// evaluated numbers them, in preorder from 0.
#[derive(Debug, Drop, Error)]
pub enum EvalFault {
    /// The database is not one of the plan's catalog.
    #[error("X6 OtherCatalog")]
    OtherCatalog,
    /// The plan has an exchange: the first in preorder.
    #[error("X13 HasExchange node={node}")]
    HasExchange { node: u32 },
    /// A sum or a count of a group is no number of 64 bits, a grouping has over 2^62 rows, or a function of a select or a project
    /// overflows: the first such node, each behind its inputs.
    #[error("X7 Overflow node={node}")]
    Overflow { node: u32 },
    /// A growth was refused.
    #[error("X8 NoMemory")]
    NoMemory,
    /// A function that the plan names is none of the program's for the types of its operands, or answers another type than the
    /// plan says: the first such node, each behind its inputs.
    #[error("X15 BadFunction node={node}")]
    BadFunction { node: u32 },
}

impl From<AllocError> for EvalFault {
    ghost use Rattle.std.specs.Prelude.{◌≡◌};
    ghost use Rattle.vx_exec_setup.specs.declared.eval_fault.EvalFault.TheVariants.{NoMemory};

    ghost from_gives = { λ _ e. e ≡ NoMemory };

    fn from(_e: AllocError) -> EvalFault {
        EvalFault::NoMemory
    }
}

impl<T: Drop> From<AllocFailed<T>> for EvalFault {
    ghost use Rattle.std.specs.Prelude.{◌≡◌};
    ghost use Rattle.vx_exec_setup.specs.declared.eval_fault.EvalFault.TheVariants.{NoMemory};

    ghost from_gives = { λ _ e. e ≡ NoMemory };

    fn from(_e: AllocFailed<T>) -> EvalFault {
        EvalFault::NoMemory
    }
}
