//! What no clause says of the relations for measuring: their texts are those of their formulas, the catalog and the plans are
//! accepted, and each plan has its rows by the serial evaluation.
//!
//! The cases are lines of one text, which a small interpreter reads: a further case is no further function to prove. The tests stand in
//! a crate of their own, since a crate with tests is proved twice.
#![tactic(auto)]

#[cfg(test)]
mod answers;
#[cfg(test)]
mod cases;
#[cfg(test)]
mod refused_memory;
