//! What a run counts of itself, as plain numbers. A count that reaches the largest `u64` stays there.

ghost use Rattle.std.specs.Prelude.{◌≡◌, [], true, false};

use std::alloc::Global;

/// What a worker counted of its own steps.
#[derive(Clone, Copy, PartialEq, Eq)]
pub struct StepCounts {
    /// The packets that it put, those that close its ports too.
    pub puts: u64,
    /// The steps that only waited: no packet had come, or a port was full.
    pub waits: u64,
}

impl StepCounts {
    ghost use Rattle.vx_exec_setup.specs.Counts.{no_steps, with_put, with_wait};

    /// Of a worker that made no step.
    pub fn new() -> StepCounts
        ensures { result ≡ no_steps }
    {
        StepCounts { puts: 0, waits: 0 }
    }

    /// Counts a packet that was put.
    pub fn add_put(&mut self)
        ensures { self.new ≡ with_put self.old }
    {
        self.puts = self.puts.saturating_add(1);
    }

    /// Counts a step that only waited.
    pub fn add_wait(&mut self)
        ensures { self.new ≡ with_wait self.old }
    {
        self.waits = self.waits.saturating_add(1);
    }
}

/// What an operator counted of its own turns.
#[derive(Clone, Copy, PartialEq, Eq)]
pub struct OperatorCounts {
    /// The rows that its left, or only, input gave it; at a scan those of its morsels.
    pub left: u64,
    /// The rows that its right input gave it.
    pub right: u64,
    /// The rows that it gave.
    pub gave: u64,
    /// The morsels with rows that it got, at a scan.
    pub morsels: u64,
    /// The packets that it got, at the consumer end of an exchange.
    pub packets: u64,
    /// The turns for which it wanted a packet and none had come.
    pub waits: u64,
}

impl OperatorCounts {
    ghost use Rattle.vx_exec_setup.specs.Counts.{no_turns};

    /// Of an operator that took no turn.
    pub fn new() -> OperatorCounts
        ensures { result ≡ no_turns }
    {
        OperatorCounts {
            left: 0,
            right: 0,
            gave: 0,
            morsels: 0,
            packets: 0,
            waits: 0,
        }
    }
}

/// What one node of a plan counted in one worker.
#[derive(Clone, Copy, PartialEq, Eq)]
pub struct NodeCounts {
    /// The number of the node.
    pub node: u32,
    /// What its operator counted.
    pub counts: OperatorCounts,
}

/// What one worker of a run counted.
pub struct WorkerCounts {
    /// What it counted of its steps.
    pub steps: StepCounts,
    /// The nodes of its fragment in preorder, the top one first.
    pub nodes: Vec<NodeCounts>,
}

impl Drop for WorkerCounts {
    fn drop(self) {
        let WorkerCounts { steps: _, nodes: _ } = self;
    }
}

/// Calls: `new | unread`, then a run, which asks `is_wanted` and calls `keep`, then `workers`.
///
/// What a run counted, if anybody asks.
pub struct RunCounts {
    is_wanted: bool,
    workers: Vec<WorkerCounts>,
}

impl Drop for RunCounts {
    fn drop(self) {
        let RunCounts {
            is_wanted: _,
            workers: _,
        } = self;
    }
}

impl RunCounts {
    ghost use Rattle.vx_exec_setup.specs.Counts.{is_wanted, counts_in};

    /// Of a run whose counts will be read.
    pub fn new(alloc: Global) -> RunCounts
        ensures wanted { is_wanted result ≡ true }
        ensures none { counts_in result ≡ [] }
    {
        RunCounts {
            is_wanted: true,
            workers: Vec::new(alloc),
        }
    }

    /// Of a run whose counts nobody reads: none are kept.
    pub fn unread(alloc: Global) -> RunCounts
        ensures { is_wanted result ≡ false }
    {
        RunCounts {
            is_wanted: false,
            workers: Vec::new(alloc),
        }
    }

    /// Whether anybody asks.
    pub fn is_wanted(&self) -> bool
        ensures { result ≡ is_wanted self.now }
    {
        self.is_wanted
    }

    /// Keeps what each worker counted, in the order of their numbers.
    pub fn keep(&mut self, workers: Vec<WorkerCounts>)
        ensures wanted { is_wanted self.new ≡ is_wanted self.old }
        ensures kept { counts_in self.new ≡ workers.items }
    {
        self.workers = workers;
    }

    /// What each worker counted, in the order of their numbers; nothing before the run has ended.
    pub fn workers(&self) -> &[WorkerCounts]
        ensures { result.now ≡ counts_in self.now }
    {
        self.workers.as_slice()
    }
}
