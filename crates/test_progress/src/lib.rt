//! What no clause says of the lines that say how much of a table has been read and how far a run has come: their texts worked by hand,
//! and when they are written, by a clock that the tests set.
//!
//! The tests stand in a crate of their own, since a crate with tests is proved twice.
#![tactic(auto)]

#[cfg(test)]
mod lines;
#[cfg(test)]
mod reads;
#[cfg(test)]
mod runs;
#[cfg(test)]
mod script;
