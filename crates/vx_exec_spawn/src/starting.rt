//! One worker in a thread of its own.

ghost use Rattle.std.specs.Prelude.{◌≡◌, IfSome};
ghost use Rattle.std.specs.List.{All};
ghost use Rattle.vx_worker.specs.Worker.{IsReady};
ghost use Rattle.vx_exec_threads.specs.Drawers.{Sits};
ghost use Rattle.vx_exec_spawn.specs.Honest.{IsHonest};

use crate::member::{CrewMember, Joined};
use crate::promise::JoinPromise;
use crate::shared::Shared;
use crate::start::Start;
use std::snapshot::Snapshot;
use std::sync::Wait;
use std::thread::{PromisedHandle, Scope, Threads};
use vx_exchange_ends::Sends;
use vx_exec_threads::{Gate, ThreadWires, WorkerPlace, run_to_end};
use vx_exec_watch::CountsRows;
use vx_ops::Source;
use vx_plan_nodes::Router;
use vx_worker::Morsels;

// Waits for the start, and returns whether the run was started. A worker that has no morsels to draw waits for its first packet, too.
fn may_begin<O, S, T: Wait>(rt: &T, start: &Start, member: &CrewMember<O, S>) -> bool {
    if member.ends.scans() == 0 && member.ends.inlets() > 0 {
        return start.wait_for_partner(rt, member.number);
    }
    start.wait(rt)
}

/// What a worker's thread does: it waits for the start, and steps its worker to its end. None if the run was cancelled.
pub fn work<
    O: Source + CountsRows + Drop,
    S: Sends + Drop,
    G: Morsels,
    R: Router,
    H: Gate,
    T: Wait,
>(rt: &T, shared: Shared<'_, G, R, H>, member: CrewMember<O, S>) -> Option<Joined<O, S>>
    requires ready { IsReady O.types S.post S.is_open S.has_closed (G.types_of shared.morsels.now) member.worker }
    requires sits { All (Sits shared.decks.now.items) member.ends.draws.items }
    ensures { IfSome result (λ j. IsHonest O.Stands O.op S.Stands S.task S.post S.bounds (R.route_of shared.entry.router.now) (G.morsel_of shared.entry.morsels.now) member j) }
{
    if !may_begin(rt, shared.start, &member) {
        return None;
    }
    let CrewMember {
        number,
        fragment,
        place,
        worker,
        ends,
    } = member;
    let wires = ThreadWires::new(ends, shared.decks, shared.start.parkers());
    let at = WorkerPlace {
        number,
        fragment,
        place,
    };
    let (worker, ends) = run_to_end(
        rt,
        shared.morsels,
        shared.router,
        shared.gate,
        shared.board,
        at,
        worker,
        wires,
    );
    shared.board.leave();
    Some(Joined { worker, ends })
}

/// Starts the thread of one worker, in a scope. None where the system refused it: the worker is dropped then.
pub fn begin<
    's,
    E: 's,
    O: Source + CountsRows + Send + Drop + 's,
    S: Sends + Send + Drop + 's,
    G: Morsels + Sync + 's,
    R: Router + Sync + 's,
    H: Gate + Sync + 's,
    T: Threads + Wait + Sync + 's,
>(
    scope: &'s Scope<'s, E>,
    rt: &'s T,
    shared: Shared<'s, G, R, H>,
    member: CrewMember<O, S>,
) -> Option<PromisedHandle<Option<Joined<O, S>>, JoinPromise<'s, O, S, G, R>>>
    requires ready { IsReady O.types S.post S.is_open S.has_closed (G.types_of shared.morsels.now) member.worker }
    requires sits { All (Sits shared.decks.now.items) member.ends.draws.items }
    ensures { IfSome result (λ h. (h.promise.member.value ≡ member) × (h.promise.router.now ≡ shared.entry.router.now) × (h.promise.morsels.now ≡ shared.entry.morsels.now)) }
{
    let promise = JoinPromise {
        morsels: shared.morsels,
        router: shared.router,
        member: Snapshot::of(&member),
    };
    match scope.spawn_with(promise, move || work(rt, shared, member)) {
        Ok(child) => Some(child),
        Err(_) => None,
    }
}
