//! Why a plan was not accepted.

use crate::refused::Refused;
use std::alloc::AllocError;
use thiserror::Error;

/// Why a plan was not accepted.
#[derive(Debug, Drop, Error)]
pub enum CheckFault {
    /// A node does not show its note.
    #[error(transparent)]
    Refused(Refused),
    /// A growth was refused. Only a plan that asks for what is known of columns needs memory.
    #[error(transparent)]
    NoMemory(AllocError),
}

impl From<AllocError> for CheckFault {
    ghost use Rattle.std.specs.Prelude.{◌≡◌};
    ghost use Rattle.vx_check_rules.specs.declared.fault.CheckFault.TheVariants as fault;

    ghost from_gives = { λ a e. e ≡ fault.NoMemory a };

    fn from(e: AllocError) -> CheckFault {
        CheckFault::NoMemory(e)
    }
}
