//! What no clause says of runs: that they end with the rows of the plan, serially, by rounds, by schedules and by threads, with each operator
//! and each exchange; that threads are at work at the same time, share what they scan, and wait for none that failed; and that
//! setups are refused with their lines.
//!
//! Cases are lines of texts, so that a further one is nothing to prove: plans over rows, most of them in `test_runs`, and ways to run them, beside the
//! tests. `cases.rt` and `ways.rt` have how such lines are read.
//!
//! The tests stand in a crate of their own, since a crate with tests is proved twice.
#![tactic(auto)]

#[cfg(test)]
mod cases;
#[cfg(test)]
mod counts;
#[cfg(test)]
mod draws;
#[cfg(test)]
mod exchanges;
#[cfg(test)]
mod gates;
#[cfg(test)]
mod lines;
#[cfg(test)]
mod meetings;
#[cfg(test)]
mod own;
#[cfg(test)]
mod queries;
#[cfg(test)]
mod rows;
#[cfg(test)]
mod runs;
#[cfg(test)]
mod schedules;
#[cfg(test)]
mod told;
#[cfg(test)]
mod ways;
#[cfg(test)]
mod worked;
