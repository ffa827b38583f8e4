//! Why a plan gets no claims.

use std::alloc::{AllocError, AllocFailed};
use thiserror::Error;
use vx_check_rules::Rule;
use vx_plan_json::PlanFault;

/// Why a plan gets no claims with which the checker accepts it.
#[derive(Debug, Drop, Error)]
pub enum AnnotateFault {
    /// The plan does not fit the catalog, whatever it claims; or out of memory.
    #[error(transparent)]
    Plan(PlanFault),
    /// An operator does not fit: the first node that the rule table refuses, and what is not shown there.
    #[error("{rule} node={node}")]
    Rule { node: u32, rule: Rule },
}

impl From<PlanFault> for AnnotateFault {
    ghost use Rattle.std.specs.Prelude.{◌≡◌};
    ghost use Rattle.vx_check_annotate.specs.declared.fault.AnnotateFault.TheVariants as fault;

    ghost from_gives = { λ f e. e ≡ fault.Plan f };

    fn from(fault: PlanFault) -> AnnotateFault {
        AnnotateFault::Plan(fault)
    }
}

impl From<AllocError> for AnnotateFault {
    ghost use Rattle.std.specs.Prelude.{◌≡◌};
    ghost use Rattle.vx_plan_json.specs.declared.fault.PlanFault.TheVariants.{NoMemory};
    ghost use Rattle.vx_check_annotate.specs.declared.fault.AnnotateFault.TheVariants as fault;

    ghost from_gives = { λ _ e. e ≡ fault.Plan NoMemory };

    fn from(_e: AllocError) -> AnnotateFault {
        AnnotateFault::Plan(PlanFault::NoMemory)
    }
}

impl<T: Drop> From<AllocFailed<T>> for AnnotateFault {
    ghost use Rattle.std.specs.Prelude.{◌≡◌};
    ghost use Rattle.vx_plan_json.specs.declared.fault.PlanFault.TheVariants.{NoMemory};
    ghost use Rattle.vx_check_annotate.specs.declared.fault.AnnotateFault.TheVariants as fault;

    ghost from_gives = { λ _ e. e ≡ fault.Plan NoMemory };

    fn from(_e: AllocFailed<T>) -> AnnotateFault {
        AnnotateFault::Plan(PlanFault::NoMemory)
    }
}
