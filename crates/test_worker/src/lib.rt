//! What no clause says of exchanges, of sorts and of workers: that small ones come to their ends.
//!
//! The cases are lines of one text, which a small interpreter reads: a further case is no further function to prove. The test stands in
//! a crate of its own, since a crate with tests is proved twice.
#![tactic(auto)]

#[cfg(test)]
mod cases;
#[cfg(test)]
mod rows;
#[cfg(test)]
mod senders;
#[cfg(test)]
mod sources;
#[cfg(test)]
mod workers;
