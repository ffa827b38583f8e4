//! What a run did and how long it took, as a table for people and as JSON for tools.
#![tactic(auto)]

mod closing;
mod columns;
mod json;
mod lines;
mod loads;
mod phases;
mod table;
mod text;
mod words;

pub use closing::write_end;
pub use lines::{Line, lines_of};
pub use loads::{LoadTime, LoadTimer};
pub use phases::{NoClock, PhaseTime, Stopwatch, Timer, WorkPhase};
pub use text::{StatsForm, push_lone_plan, push_plan, push_shared};
pub use words::operator_words;
