//! What a thread is given, and what it gives back.

use vx_exec_threads::Ends;
use vx_worker::Worker;

/// A worker, its place in the plan, and what its thread holds of what the run shares.
#[derive(Drop)]
pub struct CrewMember<O, S> {
    /// Its number among all workers of the run.
    pub number: usize,
    /// The number of its fragment.
    pub fragment: u32,
    /// Its place among the workers of the fragment.
    pub place: u32,
    /// The worker.
    pub worker: Worker<O, S>,
    /// The ends of its rings, and what gives it morsels.
    pub ends: Ends,
}

/// A worker that has ended, and what its thread held.
#[derive(Drop)]
pub struct Joined<O, S> {
    /// The worker.
    pub worker: Worker<O, S>,
    /// The ends of its rings, and what gave it morsels.
    pub ends: Ends,
}
