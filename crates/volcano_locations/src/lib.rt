//! Where what was refused is: in which file, and where in it, in the words that a person looks for it by; and what was expected there.
#![tactic(auto)]

mod again;
mod bundles;
mod catalogs;
mod checks;
mod diagnosis;
mod expected;
mod fault;
mod files;
mod inputs;
mod meant;
mod paths;
mod plans;
mod quotes;
mod reasons;
mod record;
mod recorded;
mod remarks;
mod source;
mod source_text;
mod spots;
mod stage;
mod tables;
mod unloaded;
mod with_input;

pub use diagnosis::{Origin, diagnose};
pub use fault::PlaceFault;
pub use inputs::Inputs;
pub use reasons::{Reason, Reasons, SystemFiles, system_reason};
pub use recorded::{Recorded, Replay};
pub use remarks::dropped_total;
pub use with_input::{FileOrText, WithInput};
