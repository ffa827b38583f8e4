//! Schedules: with steps of workers that are drawn at random, or of one worker after the other.

ghost use Rattle.std.specs.Prelude.{◌<◌};

use crate::lines::first_word;
use std::alloc::{AllocError, Global};
use std::test::Fail;

// How many steps of a schedule are drawn.
const DRAWN: u32 = 500;

/// The numbers of a linear congruential generator.
#[derive(Drop)]
pub struct Draws {
    state: u64,
}

impl Draws {
    /// From a number on.
    pub fn from_number(state: u64) -> Draws {
        Draws { state }
    }

    // The next number below this one.
    fn below(&mut self, bound: u32) -> u32
        requires { 0 < bound }
        ensures { result < bound }
    {
        let next = self.state.wrapping_mul(1_103_515_245).wrapping_add(12_345) % 2_147_483_648;
        self.state = next;
        (next / 65_536) as u32 % bound
    }

    /// 500 steps of these workers that are drawn, and then a step of each of them in turn, this many times.
    pub fn schedule(
        &mut self,
        alloc: Global,
        workers: u32,
        turns: u32,
    ) -> Result<Vec<u32>, AllocError>
        requires { 0 < workers }
    {
        let mut steps = Vec::new(alloc);
        for step in 0..workers.saturating_mul(turns).saturating_add(DRAWN) {
            let worker = if step < DRAWN {
                self.below(workers)
            } else {
                (step - DRAWN) % workers
            };
            steps.push(worker)?;
        }
        Ok(steps)
    }
}

// Adds this many steps of a worker.
fn push_steps(steps: &mut Vec<u32>, worker: u32, many: u32) -> Result<(), AllocError> {
    for _ in 0..many {
        steps.push(worker)?;
    }
    Ok(())
}

/// A schedule from a text that has a number, and workers, as `40 3 2 1 0`: so many steps of each of these, one worker after the other.
pub fn in_turn(alloc: Global, text: &str) -> Result<Vec<u32>, Fail> {
    let (many, workers) = first_word(text);
    let many = many.parse::<u32>()?;
    let mut steps = Vec::new(alloc);
    for worker in workers.split_whitespace() {
        push_steps(&mut steps, worker.parse::<u32>()?, many)?;
    }
    Ok(steps)
}
