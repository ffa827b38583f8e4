//! Why a run gives no rows.

use std::alloc::{AllocError, AllocFailed};
use thiserror::Error;

/// Why a plan is not run over a database, or why its run gives no rows. Nodes are numbered as the plan that runs numbers
/// them, in preorder from 0.
#[derive(Debug, Drop, Error)]
pub enum RunFault {
    /// The setup has no number of workers for a size name that the plan declares: the first such name.
    #[error("X1 SizeMissing name={name}")]
    SizeMissing { name: String },
    /// The number of workers for a declared size name is not 1 to 64: the first such name. Every declared name has a number.
    #[error("X2 SizeOutOfRange name={name}")]
    SizeOutOfRange { name: String },
    /// A packet is to have no row, or over 4,096 rows.
    #[error("X3 BadPacket")]
    BadPacket,
    /// A morsel is to have no row, or over 1,000,000 rows.
    #[error("X4 BadMorsel")]
    BadMorsel,
    /// The entry with this index, in a schedule of the workers that make a step each, is no number of a worker.
    #[error("X5 BadStep index={index}")]
    BadStep { index: usize },
    /// The database is not one of the plan's catalog.
    #[error("X6 OtherCatalog")]
    OtherCatalog,
    /// A sum or a count of a group is no number of 64 bits, or a function of a select or a project overflows.
    #[error("X7 Overflow node={node}")]
    Overflow { node: u32 },
    /// A growth was refused.
    #[error("X8 NoMemory")]
    NoMemory,
    /// The machine refused to start a thread.
    #[error("X9 NoThread")]
    NoThread,
    /// Rows that came to a node fall where it needs them to rise. Never in a run of an accepted plan.
    #[error("X10 Unsorted node={node}")]
    Unsorted { node: u32 },
    /// A packet of another exchange, producer, consumer or types came to an exchange. Never in a run of an accepted plan.
    #[error("X11 Stranger exchange={exchange}")]
    Stranger { exchange: u32 },
    /// The plan has `number` workers, which is over 256.
    #[error("X12 TooManyWorkers number={number}")]
    TooManyWorkers { number: u32 },
    /// A producer is to run ahead by no packet, or by over 1,024 packets.
    #[error("X14 BadSlack")]
    BadSlack,
    /// A function that the plan names is none of the program's for the types of its operands, or answers another type than the
    /// plan says: the first such node, each behind its inputs.
    #[error("X15 BadFunction node={node}")]
    BadFunction { node: u32 },
}

impl From<AllocError> for RunFault {
    ghost use Rattle.std.specs.Prelude.{◌≡◌};
    ghost use Rattle.vx_exec_setup.specs.declared.fault.RunFault.TheVariants.{NoMemory};

    ghost from_gives = { λ _ e. e ≡ NoMemory };

    fn from(_e: AllocError) -> RunFault {
        RunFault::NoMemory
    }
}

impl<T: Drop> From<AllocFailed<T>> for RunFault {
    ghost use Rattle.std.specs.Prelude.{◌≡◌};
    ghost use Rattle.vx_exec_setup.specs.declared.fault.RunFault.TheVariants.{NoMemory};

    ghost from_gives = { λ _ e. e ≡ NoMemory };

    fn from(_e: AllocFailed<T>) -> RunFault {
        RunFault::NoMemory
    }
}
