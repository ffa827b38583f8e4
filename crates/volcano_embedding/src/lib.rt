//! The checker and the serial evaluation for a program that keeps a catalog and asks about many plans.
#![tactic(auto)]

mod annotating;
mod asked;
mod box_parts;
mod files;
mod forms;
mod handle;
mod held;
mod lines;
mod more;
mod replies;
mod session;
mod shared;
mod spans;
mod tables;

pub use annotating::Annotated;
pub use asked::reply_over;
pub use files::CallTexts;
pub use forms::ExplainForm;
pub use handle::CatalogHandle;
pub use lines::{Words, line_of, node_of, words_in};
pub use more::ErrorForm;
pub use replies::{Question, Reply, refusal_reply, reply_to, why_reply};
pub use session::{Findings, Session};
pub use spans::{SpanFault, TableSpan, tables_in};
pub use tables::TableText;
