//! What is said of a refusal below its line: where it was found, what was expected there, and what would help; as lines for people,
//! or as JSON.
#![tactic(auto)]

mod diagnostic;
mod json;
mod shown;
mod text;

pub use diagnostic::{Cell, Diagnostic, Label, Note};
pub use json::json_line;
pub use shown::{push_quoted, push_shown};
pub use text::text_lines;
