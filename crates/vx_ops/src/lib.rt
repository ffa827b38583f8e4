//! Operators that return rows turn by turn, as sources that do not hold their inputs.
#![tactic(auto)]

mod collecting;
mod collecting_kernel;
pub mod fault;
pub mod laws;
mod limit;
mod probe_kernel;
mod probing;
mod project;
mod scan;
mod select;
mod sort;
mod source;
mod step_kernel;
mod stepping;
mod turn;
mod union;

pub use collecting::Collecting;
pub use collecting_kernel::{CollectingKernel, FinishFault};
pub use fault::{Code, Fault, StreamState};
pub use limit::{Limit, Limiting};
pub use probe_kernel::ProbeKernel;
pub use probing::Probing;
pub use project::{Project, Projection};
pub use scan::Scan;
pub use select::{Select, Selection};
pub use sort::{Sort, Sorting};
pub use source::Source;
pub use step_kernel::{StepFault, StepKernel};
pub use stepping::Stepping;
pub use turn::{Got, Polled, Want};
pub use union::Union;
