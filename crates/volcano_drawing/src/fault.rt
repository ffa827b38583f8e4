//! Why statistics are not drawn.

use std::alloc::AllocError;
use vx_catalog_json::Misread;

/// Where statistics differ from a plan.
#[derive(Drop)]
pub struct Difference {
    /// The number of the node.
    pub node: u64,
    /// The operator that the statistics have there, in a word; `None` where they have no such node.
    pub there: Option<String>,
}

/// Why statistics are not drawn.
#[derive(Drop)]
pub enum DrawFault {
    /// An allocation failed.
    NoMemory,
    /// The text is not what a run writes with `--stats=json`.
    NotStatistics,
    /// The text is of another plan.
    OtherPlan(Difference),
}

impl From<AllocError> for DrawFault {
    ghost use Rattle.std.specs.Prelude.{◌≡◌};
    ghost use Rattle.volcano_drawing.specs.declared.fault.DrawFault.TheVariants as fault;

    ghost from_gives = { λ _ e. e ≡ fault.NoMemory };

    fn from(_e: AllocError) -> DrawFault {
        DrawFault::NoMemory
    }
}

impl From<Misread> for DrawFault {
    ghost use Rattle.std.specs.Prelude.{◌≡◌};
    ghost use Rattle.volcano_drawing.specs.Fault.{fault_of};

    ghost from_gives = { λ m e. e ≡ fault_of m };

    fn from(misread: Misread) -> DrawFault {
        match misread {
            Misread::NotOfForm => DrawFault::NotStatistics,
            Misread::NoMemory => DrawFault::NoMemory,
        }
    }
}
