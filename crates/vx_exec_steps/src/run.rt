//! Runs in one thread: the workers of a plan, step by step.

ghost use Rattle.std.specs.Prelude.{◌≡◌, ◌<◌, ◌↔◌, true, vec_len, IfSome, IfNone};
ghost use Rattle.std.specs.List.{All};
ghost use Rattle.vx_worker.specs.Worker.{IsReady};
ghost use Rattle.vx_exec_steps.specs.Following.{round, Follows, FollowsRounds, Steps};
ghost use Rattle.vx_exec_steps.specs.Runs.{Advances};
ghost use Rattle.vx_exec_steps.specs.Schedules.{IsBadStep};
ghost use Rattle.vx_exec_steps.specs.Verdicts.{EndsAt, HasEnded, SameBut};
ghost use Rattle.vx_worker.specs.declared.worker.StepOutcome.TheVariants as StepOutcome;

use crate::links::Links;
use crate::watching::tell_rows;
use vx_exchange_ends::Sends;
use vx_exec_watch::{CountsRows, Watch};
use vx_ops::Source;
use vx_plan_nodes::Router;
use vx_worker::{Morsels, StepOutcome, Worker};

/// One step of one worker, with the wires that are its own.
pub fn step_one<O: Source, S: Sends, G: Morsels, R: Router>(
    workers: &mut Vec<Worker<O, S>>,
    number: usize,
    morsels: &G,
    router: &R,
    links: &mut Links,
) -> StepOutcome
    requires there { number < vec_len workers.old }
    requires ready { All (IsReady O.types S.post S.is_open S.has_closed (G.types_of morsels.now)) workers.old.items }
    ensures ready { All (IsReady O.types S.post S.is_open S.has_closed (G.types_of morsels.now)) workers.new.items }
    ensures follows { (step : Steps O.Stands O.want O.op O.most O.idle S.Stands S.task S.post S.bounds S.held S.unclosed (R.route_of router.now) (G.morsel_of morsels.now) number workers.old.items links.old workers.new.items links.new)
        × (step.answer ≡ result) }
    ensures advances { Advances O.Stands O.op S.Stands S.task S.post S.bounds (R.route_of router.now) (G.morsel_of morsels.now) workers.old.items links.old workers.new.items links.new }
    ensures len { vec_len workers.new ≡ vec_len workers.old }
    ensures others { SameBut number workers.old.items workers.new.items }
    ensures ended { (result ≡ StepOutcome.Ended) ↔ EndsAt workers.new.items number }
{
    links.serve(number);
    workers[number].step(morsels, router, links)
}

// Whether this is what an ended worker answers.
fn is_end(stepped: StepOutcome) -> bool
    ensures { (result ≡ true) ↔ (stepped ≡ StepOutcome.Ended) }
{
    match stepped {
        StepOutcome::Ended => true,
        StepOutcome::Moved | StepOutcome::Waiting => false,
    }
}

/// One step of each worker, in number order. Whether all have ended.
pub fn step_round<O: Source, S: Sends, G: Morsels, R: Router>(
    workers: &mut Vec<Worker<O, S>>,
    morsels: &G,
    router: &R,
    links: &mut Links,
) -> bool
    requires ready { All (IsReady O.types S.post S.is_open S.has_closed (G.types_of morsels.now)) workers.old.items }
    ensures ready { All (IsReady O.types S.post S.is_open S.has_closed (G.types_of morsels.now)) workers.new.items }
    ensures follows { Follows O.Stands O.want O.op O.most O.idle S.Stands S.task S.post S.bounds S.held S.unclosed (R.route_of router.now) (G.morsel_of morsels.now) (round (vec_len workers.old)) workers.old.items links.old workers.new.items links.new }
    ensures advances { Advances O.Stands O.op S.Stands S.task S.post S.bounds (R.route_of router.now) (G.morsel_of morsels.now) workers.old.items links.old workers.new.items links.new }
    ensures len { vec_len workers.new ≡ vec_len workers.old }
    ensures ended { (result ≡ true) ↔ All HasEnded workers.new.items }
{
    let mut all_ended = true;
    for number in 0..workers.len() {
        let stepped = step_one(workers, number, morsels, router, links);
        all_ended &= is_end(stepped);
    }
    all_ended
}

/// At most `limit` rounds, until all workers have ended. A round over workers that have nothing to do allocates nothing. `watch` is told
/// how far the run has come, and changes nothing of it.
pub fn step_rounds<O: Source + CountsRows, S: Sends, G: Morsels, R: Router, V: Watch>(
    workers: &mut Vec<Worker<O, S>>,
    morsels: &G,
    router: &R,
    links: &mut Links,
    limit: u64,
    watch: &V,
)
    requires ready { All (IsReady O.types S.post S.is_open S.has_closed (G.types_of morsels.now)) workers.old.items }
    ensures follows { FollowsRounds O.Stands O.want O.op O.most O.idle S.Stands S.task S.post S.bounds S.held S.unclosed (R.route_of router.now) (G.morsel_of morsels.now) limit workers.old.items links.old workers.new.items links.new }
    ensures advances { Advances O.Stands O.op S.Stands S.task S.post S.bounds (R.route_of router.now) (G.morsel_of morsels.now) workers.old.items links.old workers.new.items links.new }
{
    for done in 0..limit {
        tell_rows(watch, workers.as_slice(), done);
        if step_round(workers, morsels, router, links) {
            return;
        }
    }
}

/// The least index of a step that names none of the `workers` workers, whose numbers begin at 0.
pub fn bad_step(steps: &[u32], workers: usize) -> Option<usize>
    ensures some { IfSome result (IsBadStep steps.now workers) }
    ensures none { IfNone result (All (λ s. s < workers) steps.now) }
{
    for (index, step) in steps.iter().enumerate() {
        if *step as usize >= workers {
            return Some(index);
        }
    }
    None
}

/// One step for each of these numbers of workers, in this order.
pub fn step_schedule<O: Source, S: Sends, G: Morsels, R: Router>(
    workers: &mut Vec<Worker<O, S>>,
    morsels: &G,
    router: &R,
    links: &mut Links,
    steps: &[u32],
)
    requires there { All (λ s. s < vec_len workers.old) steps.now }
    requires ready { All (IsReady O.types S.post S.is_open S.has_closed (G.types_of morsels.now)) workers.old.items }
    ensures follows { Follows O.Stands O.want O.op O.most O.idle S.Stands S.task S.post S.bounds S.held S.unclosed (R.route_of router.now) (G.morsel_of morsels.now) steps.now workers.old.items links.old workers.new.items links.new }
    ensures advances { Advances O.Stands O.op S.Stands S.task S.post S.bounds (R.route_of router.now) (G.morsel_of morsels.now) workers.old.items links.old workers.new.items links.new }
{
    for step in steps {
        step_one(workers, *step as usize, morsels, router, links);
    }
}
