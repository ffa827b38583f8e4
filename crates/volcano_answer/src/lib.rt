//! The program as a library: from arguments, files and standard input to all output.
#![tactic(auto)]

mod annotating;
mod arguments;
mod asked;
mod bundle;
mod command;
mod command_line;
mod drawing_faults;
mod failing;
mod files;
mod finding;
mod forms;
mod laws;
mod layouts;
mod loading;
mod output_file;
mod pipe;
mod places;
mod plans;
mod printing;
mod program;
mod relation;
mod remarks;
mod replacing;
mod run;
mod runs;
mod serial;
mod services;
mod statement;
mod stats;
mod usage;

pub use laws::case_is_refused_by_setup;
pub use output_file::output_path;
pub use pipe::Pipe;
pub use program::answer;
pub use replacing::{Replacing, answer_into};
pub use services::Services;
