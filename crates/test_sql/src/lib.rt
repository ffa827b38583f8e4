//! What no clause says of statements: SQLite reads them, and over the same tables they give the rows of the serial
//! evaluation, in the same order where the plan has one for all rows.
//!
//! The tests stand in a crate of their own, since a crate with tests is proved twice.
#![tactic(auto)]

#[cfg(test)]
mod blocks;
#[cfg(test)]
mod cases;
#[cfg(test)]
mod engine;
#[cfg(test)]
mod examples;
#[cfg(test)]
mod falling;
#[cfg(test)]
mod functions;
#[cfg(test)]
mod matches;
#[cfg(test)]
mod names;
#[cfg(test)]
mod odd;
#[cfg(test)]
mod wisconsin;
