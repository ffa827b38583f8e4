//! Why a plan is refused.

ghost use Rattle.std.specs.Prelude.{◌≡◌};
ghost use Rattle.vx_plan_json.specs.Fault.{node_of};

use std::alloc::{AllocError, AllocFailed};
use thiserror::Error;

/// Why a text is no plan, or a plan does not fit a catalog. Nodes are numbered in preorder, the root is 0 and the left
/// input comes before the right one.
#[derive(Debug, Drop, Error)]
pub enum PlanFault {
    /// The bytes are no JSON text, or nest deeper than 127.
    #[error("P1 NotJson")]
    NotJson,
    /// A member is missing, unknown or of the wrong kind, or a list is empty that needs an entry. The path is `document`,
    /// or leads from `root` to the node by `.input`, `.left` and `.right`.
    #[error("P2 BadNode path={path}")]
    BadNode { path: String },
    /// Over 64 nodes deep, or over 1,000 nodes.
    #[error("P3 TooDeep")]
    TooDeep,
    /// A scan of a relation that the catalog does not have.
    #[error("P4 UnknownRelation node={node} name={name}")]
    UnknownRelation { node: u32, name: String },
    /// A column that an input, or the output for a claim, does not have.
    #[error("P5 UnknownColumn node={node} name={name}")]
    UnknownColumn { node: u32, name: String },
    /// An output name twice, a column twice in one list, or a pair of a join twice, by its left column.
    #[error("P6 DuplicateColumn node={node} name={name}")]
    DuplicateColumn { node: u32, name: String },
    /// A condition, pair, union, sum or range of unequal types.
    #[error("P7 TypeMismatch node={node}")]
    TypeMismatch { node: u32 },
    /// A route by a range that the plan does not declare.
    #[error("P8 UnknownRange node={node} name={name}")]
    UnknownRange { node: u32, name: String },
    /// A range without bounds, with over 63, with bounds of two types or not strictly rising, or declared twice.
    #[error("P9 BadRange name={name}")]
    BadRange { name: String },
    /// A size name that is declared twice, declared as `one`, the 17th, or used and not declared.
    #[error("P10 BadSize name={name}")]
    BadSize { name: String },
    /// A growth was refused.
    #[error("P11 NoMemory")]
    NoMemory,
    /// Over 64 output columns.
    #[error("P12 TooWide node={node}")]
    TooWide { node: u32 },
    /// A final group whose first node below it that is neither an exchange nor a partial sort is no partial group, or that has such a
    /// sort below it on a column that the partial group is not by; a partial group that no final group takes up through exchanges
    /// and partial sorts alone; or a partial sort that is not between the two.
    #[error("P13 PhaseMismatch node={node}")]
    PhaseMismatch { node: u32 },
}

impl PlanFault {
    /// The number of the node that it names, if it names one.
    pub fn node(&self) -> Option<u32>
        ensures { result ≡ node_of self.now }
    {
        match self {
            PlanFault::UnknownRelation { node, .. }
            | PlanFault::UnknownColumn { node, .. }
            | PlanFault::DuplicateColumn { node, .. }
            | PlanFault::TypeMismatch { node }
            | PlanFault::UnknownRange { node, .. }
            | PlanFault::TooWide { node }
            | PlanFault::PhaseMismatch { node } => Some(*node),
            PlanFault::NotJson
            | PlanFault::BadNode { .. }
            | PlanFault::TooDeep
            | PlanFault::BadRange { .. }
            | PlanFault::BadSize { .. }
            | PlanFault::NoMemory => None,
        }
    }
}

impl From<AllocError> for PlanFault {
    ghost use Rattle.std.specs.Prelude.{◌≡◌};
    ghost use Rattle.vx_plan_json.specs.declared.fault.PlanFault.TheVariants.{NoMemory};

    ghost from_gives = { λ _ e. e ≡ NoMemory };

    fn from(_e: AllocError) -> PlanFault {
        PlanFault::NoMemory
    }
}

impl<T: Drop> From<AllocFailed<T>> for PlanFault {
    ghost use Rattle.std.specs.Prelude.{◌≡◌};
    ghost use Rattle.vx_plan_json.specs.declared.fault.PlanFault.TheVariants.{NoMemory};

    ghost from_gives = { λ _ e. e ≡ NoMemory };

    fn from(_e: AllocFailed<T>) -> PlanFault {
        PlanFault::NoMemory
    }
}
