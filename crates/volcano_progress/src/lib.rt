//! Lines on a terminal that say how much of a relation's text has been read, and how far a run has come.
#![tactic(auto)]

mod due;
mod name;
mod progress;
mod run_progress;
mod screen;
mod text;
mod watched;
mod watched_runs;
mod words;

pub use name::{relation_at, shown_name};
pub use screen::{Screen, Terminal};
pub use text::{shown_run_text, shown_text};
pub use watched::{Watched, WatchedFile};
pub use watched_runs::WatchedRuns;
pub use words::is_quiet;
