//! Whole runs in one thread: steps, and what they come to.

ghost use Rattle.std.specs.Prelude.{◌≡◌, ◌≤◌, ◌<◌, Bool, map, vec_len};
ghost use Rattle.std.specs.List.{All};
ghost use Rattle.vx_exec_layout.specs.Needed.{rounds_needed};
ghost use Rattle.vx_plan_nodes.specs.Plan.{Plan};
ghost use Rattle.vx_worker.specs.Fragment.{RunModel};
ghost use Rattle.vx_worker.specs.Worker.{IsReady, role_of};
ghost use Rattle.vx_exec_steps.specs.Endings.{ReportsFirst};
ghost use Rattle.vx_exec_steps.specs.Following.{Follows, FollowsRounds};
ghost use Rattle.vx_exec_steps.specs.Headline.{Answers, IsAccepted};
ghost use Rattle.vx_exec_steps.specs.Ready.{IsRested, Ready, Settled};
ghost use Rattle.vx_exec_steps.specs.Schedules.{HoldsRounds};
ghost use Rattle.vx_exec_steps.specs.Verdicts.{Judged};

use crate::links::Links;
use crate::run::{step_rounds, step_schedule};
use crate::verdict::{RunState, judge};
use vx_exchange_ends::Sends;
use vx_exec_watch::{CountsRows, Watch};
use vx_ops::Source;
use vx_plan_nodes::Router;
use vx_worker::{Morsels, Worker};

/// At most `limit` rounds of all workers in number order, and what they come to. Where `limit` is as many rounds as the plan needs at
/// most, all workers end. `watch` is told how far the run has come.
pub fn judge_rounds<O: Source + CountsRows, S: Sends, G: Morsels, R: Router, V: Watch>(
    workers: &mut Vec<Worker<O, S>>,
    morsels: &G,
    router: &R,
    links: &mut Links,
    limit: u64,
    watch: &V,
) -> RunState
    requires { All (IsReady O.types S.post S.is_open S.has_closed (G.types_of morsels.now)) workers.old.items }
    ensures follows { FollowsRounds O.Stands O.want O.op O.most O.idle S.Stands S.task S.post S.bounds S.held S.unclosed (R.route_of router.now) (G.morsel_of morsels.now) limit workers.old.items links.old workers.new.items links.new }
    ensures roles { map (role_of O.op S.post S.bounds) workers.new.items ≡ map (role_of O.op S.post S.bounds) workers.old.items }
    ensures judged { Judged workers.new.items result }
    ensures settled { (W : RunModel) (p : Plan)
        → Ready O.Stands O.op S.Stands S.task S.post S.bounds (R.route_of router.now) (G.morsel_of morsels.now) W p workers.old.items links.old
        → Settled S.task W p workers.new.items result }
    ensures answers { (W : RunModel) (is_total : Bool) (p : Plan) → IsAccepted W is_total p
        → Ready O.Stands O.op S.Stands S.task S.post S.bounds (R.route_of router.now) (G.morsel_of morsels.now) W p workers.old.items links.old
        → Answers S.task W is_total p workers.new.items result }
    ensures first { (W : RunModel) (is_total : Bool) (p : Plan) → IsAccepted W is_total p
        → Ready O.Stands O.op S.Stands S.task S.post S.bounds (R.route_of router.now) (G.morsel_of morsels.now) W p workers.old.items links.old
        → ReportsFirst W p result }
    ensures ends { (W : RunModel) (is_total : Bool) (p : Plan) → IsAccepted W is_total p
        → Ready O.Stands O.op S.Stands S.task S.post S.bounds (R.route_of router.now) (G.morsel_of morsels.now) W p workers.old.items links.old
        → All (IsRested O.op O.most O.idle S.post S.held S.unclosed) workers.old.items
        → rounds_needed W.db W.sizes p ≤ limit → result ≡ RunState.Unfinished → ⊥ }
{
    watch.begin();
    step_rounds(workers, morsels, router, links, limit, watch);
    watch.end();
    judge(workers.as_slice())
}

/// One step for each of these numbers of workers, and what they come to.
pub fn judge_schedule<O: Source, S: Sends, G: Morsels, R: Router>(
    workers: &mut Vec<Worker<O, S>>,
    morsels: &G,
    router: &R,
    links: &mut Links,
    steps: &[u32],
) -> RunState
    requires named { All (λ s. s < vec_len workers.old) steps.now }
    requires ready { All (IsReady O.types S.post S.is_open S.has_closed (G.types_of morsels.now)) workers.old.items }
    ensures follows { Follows O.Stands O.want O.op O.most O.idle S.Stands S.task S.post S.bounds S.held S.unclosed (R.route_of router.now) (G.morsel_of morsels.now) steps.now workers.old.items links.old workers.new.items links.new }
    ensures roles { map (role_of O.op S.post S.bounds) workers.new.items ≡ map (role_of O.op S.post S.bounds) workers.old.items }
    ensures judged { Judged workers.new.items result }
    ensures settled { (W : RunModel) (p : Plan)
        → Ready O.Stands O.op S.Stands S.task S.post S.bounds (R.route_of router.now) (G.morsel_of morsels.now) W p workers.old.items links.old
        → Settled S.task W p workers.new.items result }
    ensures answers { (W : RunModel) (is_total : Bool) (p : Plan) → IsAccepted W is_total p
        → Ready O.Stands O.op S.Stands S.task S.post S.bounds (R.route_of router.now) (G.morsel_of morsels.now) W p workers.old.items links.old
        → Answers S.task W is_total p workers.new.items result }
    ensures first { (W : RunModel) (is_total : Bool) (p : Plan) → IsAccepted W is_total p
        → Ready O.Stands O.op S.Stands S.task S.post S.bounds (R.route_of router.now) (G.morsel_of morsels.now) W p workers.old.items links.old
        → ReportsFirst W p result }
    ensures ends { (W : RunModel) (is_total : Bool) (p : Plan) → IsAccepted W is_total p
        → Ready O.Stands O.op S.Stands S.task S.post S.bounds (R.route_of router.now) (G.morsel_of morsels.now) W p workers.old.items links.old
        → All (IsRested O.op O.most O.idle S.post S.held S.unclosed) workers.old.items
        → HoldsRounds (rounds_needed W.db W.sizes p) (vec_len workers.old) steps.now → result ≡ RunState.Unfinished → ⊥ }
{
    step_schedule(workers, morsels, router, links, steps);
    judge(workers.as_slice())
}
