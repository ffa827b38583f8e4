//! A catalog found in the texts of its relations: the types of their columns, and the keys and orders that their rows have.
#![tactic(auto)]

mod catalog;
mod fault;
mod keys;
mod layout;
mod order;
mod relation;
mod text;
mod types;

pub use catalog::{NamedText, find_catalog, header_catalog};
pub use fault::FindFault;
pub use relation::{FoundRelation, find_relation};
