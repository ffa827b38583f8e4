//! What a thread promises of what it gives back.

use crate::member::{CrewMember, Joined};
use std::snapshot::Snapshot;
use std::thread::Promise;
use vx_exchange_ends::Sends;
use vx_ops::Source;
use vx_plan_nodes::Router;
use vx_worker::Morsels;

/// What a thread was lent, and the worker that it was given: the promise is that the worker took its steps to its end.
#[derive(Drop)]
pub struct JoinPromise<'g, O, S, G, R> {
    /// The morsels of all scans.
    pub morsels: &'g G,
    /// Where rows go.
    pub router: &'g R,
    /// The worker and its ends, as they were before the first step. It takes no memory.
    pub member: Snapshot<CrewMember<O, S>>,
}

impl<'g, O: Source, S: Sends, G: Morsels, R: Router> Promise<Option<Joined<O, S>>>
    for JoinPromise<'g, O, S, G, R> {
    ghost use Rattle.std.specs.Prelude.{IfSome};
    ghost use Rattle.vx_exec_spawn.specs.Honest.{IsHonest};

    ghost kept_by = { λ p r. IfSome r (λ j. IsHonest O.Stands O.op S.Stands S.task S.post S.bounds (R.route_of p.router.now) (G.morsel_of p.morsels.now) p.member.value j) };
}
