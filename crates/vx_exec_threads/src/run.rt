//! The loop of a worker in a thread of its own.

ghost use Rattle.std.specs.Prelude.{◌≡◌, ◌⊎◌, ◌<◌, ◌+◌, true, false, IsSome};
ghost use Rattle.std.specs.List.{All};
ghost use Rattle.vx_worker.specs.Worker.{IsReady, outcome_of};
ghost use Rattle.vx_worker.specs.declared.worker.StepOutcome.TheVariants as StepOutcome;
ghost use Rattle.vx_exec_threads.specs.Carrying.{hold_of};
ghost use Rattle.vx_exec_threads.specs.Inlets.{IsGathered};
ghost use Rattle.vx_exec_threads.specs.Waking.{NoneNoted};
ghost use Rattle.vx_exec_threads.specs.Ran.{Ran, HasStepped};
ghost use Rattle.vx_exec_threads.specs.declared.wires.Room.TheVariants as Room;

use crate::ends::Ends;
use crate::wires::ThreadWires;
use std::sync::Wait;
use std::thread;
use std::thread::Parker;
use vx_exchange_ends::Sends;
use vx_exec_steps::post_rows;
use vx_exec_watch::{Board, CountsRows};
use vx_ops::Source;
use vx_plan_nodes::Router;
use vx_worker::{Morsels, StepOutcome, Worker};

/// What may hold up a worker's thread after each draw of a shared scan, as tests do to choose who draws next.
pub trait Gate {
    /// The worker at a place of a fragment drew this, a number or none at the end.
    fn after_draw(&self, fragment: u32, place: u32, drawn: Option<u64>);
}

/// Which worker a thread runs.
#[derive(Clone, Copy, PartialEq, Eq)]
pub struct WorkerPlace {
    /// Its number among all workers of the run.
    pub number: usize,
    /// The number of its fragment.
    pub fragment: u32,
    /// Its place among the workers of the fragment.
    pub place: u32,
}

// How many steps more a worker that cannot move takes before it sleeps. It yields between none of them: where all processors are busy with
// other work, each yield would cost a slice of their time.
const LOOKS: usize = 16;

/// Holds up no one.
#[derive(Clone, Copy)]
pub struct Free;

impl Gate for Free {
    fn after_draw(&self, _fragment: u32, _place: u32, _drawn: Option<u64>) {}
}

// What a step comes to that moved nothing itself.
fn moved_or_waiting(moved: bool) -> StepOutcome
    ensures moved { moved ≡ true → result ≡ StepOutcome.Moved }
    ensures waiting { moved ≡ false → result ≡ StepOutcome.Waiting }
{
    if moved {
        return StepOutcome::Moved;
    }
    StepOutcome::Waiting
}

// Rests a worker after a step that did not move, as `waited` steps in a row before it did not, and returns how many these
// are from now on. It takes some steps more at first. Then it takes one more for each producer,
// since a step may look at one of them only. If none of these moved, the worker can go on only after a partner has put a
// packet or made room, and sleeps until then: a partner that did so since the first of these steps has left a token, with
// which the worker does not sleep, or will wake it after some more packets, at the latest before it waits or ends.
fn rest<T: Wait>(
    rt: &T,
    stepped: StepOutcome,
    parker: Option<&Parker>,
    inlets: usize,
    waited: usize,
) -> usize
    ensures moved { stepped ≡ StepOutcome.Moved → result ≡ 0 }
    ensures again { result ≡ 0 → (stepped ≡ StepOutcome.Moved) ⊎ (LOOKS + inlets < waited) }
{
    if matches!(stepped, StepOutcome::Moved) {
        return 0;
    }
    if waited.saturating_sub(LOOKS) <= inlets {
        return waited.saturating_add(1);
    }
    match parker {
        Some(parker) => parker.park(rt),
        None => thread::yield_now(),
    }
    0
}

// One step of a worker. Then comes the gate, where a shared scan was drawn from; and where the step moved nothing, what
// waits in the rings is taken early. Waiting comes where that moved nothing either.
fn step_in_thread<O: Source, S: Sends, G: Morsels, R: Router, H: Gate>(
    morsels: &G,
    router: &R,
    gate: &H,
    at: WorkerPlace,
    worker: &mut Worker<O, S>,
    wires: &mut ThreadWires<'_>,
) -> StepOutcome
    requires ready { IsReady O.types S.post S.is_open S.has_closed (G.types_of morsels.now) worker.old }
    ensures ready { IsReady O.types S.post S.is_open S.has_closed (G.types_of morsels.now) worker.new }
    ensures ended { result ≡ StepOutcome.Ended → IsSome (outcome_of worker.new) }
    ensures gathered { result ≡ StepOutcome.Waiting → wires.new.room ≡ Room.There → All IsGathered wires.new.ends.ins.items }
    ensures woken { result ≡ StepOutcome.Waiting → NoneNoted wires.new.ends.unwoken }
    ensures stepped { HasStepped O.Stands O.op O.most O.idle S.Stands S.task S.post S.held S.unclosed (G.morsel_of morsels.now) worker.old worker.new }
    ensures ran { Ran O.Stands O.op S.Stands S.task S.post S.bounds (R.route_of router.now) (G.morsel_of morsels.now)
        worker.old (hold_of wires.old.ends) worker.new (hold_of wires.new.ends) }
{
    let stepped = worker.step(morsels, router, wires);
    if let Some(drawn) = wires.noted() {
        gate.after_draw(at.fragment, at.place, drawn);
    }
    if matches!(stepped, StepOutcome::Waiting) {
        return moved_or_waiting(wires.gather());
    }
    stepped
}

/// Steps a worker until it has ended, and returns it with what its thread held. While it cannot move, it sleeps, and its
/// partners wake it. That it ends is not promised. The root's worker posts on the board how many rows it has given.
pub fn run_to_end<O: Source + CountsRows, S: Sends, G: Morsels, R: Router, H: Gate, T: Wait>(
    rt: &T,
    morsels: &G,
    router: &R,
    gate: &H,
    board: &Board,
    at: WorkerPlace,
    mut worker: Worker<O, S>,
    mut wires: ThreadWires<'_>,
) -> (Worker<O, S>, Ends)
    requires ready { IsReady O.types S.post S.is_open S.has_closed (G.types_of morsels.now) worker }
    ensures ended { IsSome (outcome_of result.0) }
    ensures ran { Ran O.Stands O.op S.Stands S.task S.post S.bounds (R.route_of router.now) (G.morsel_of morsels.now)
        worker (hold_of wires.entry.ends) result.0 (hold_of result.1) }
{
    let mut waited = 0;
    let mut made = 0u64;
    'steps: for _ in rt.forever() {
        made = made.wrapping_add(1);
        post_rows(board, at.number, &worker, made);
        match step_in_thread(morsels, router, gate, at, &mut worker, &mut wires) {
            StepOutcome::Ended => return (worker, wires.into_ends()),
            stepped => {
                let parker = wires.parker(at.number);
                waited = rest(rt, stepped, parker, wires.inlets(), waited);
            }
        }
    }
    unreachable!()
}
