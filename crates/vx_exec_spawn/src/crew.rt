//! All workers of a run, each in a thread of its own.

ghost use Rattle.std.specs.Prelude.{◌≡◌, ◌⊎◌, IfErr, IfOk};
ghost use Rattle.vx_exec_setup.specs.declared.fault.RunFault.TheVariants.{NoMemory, NoThread};
ghost use Rattle.vx_exec_spawn.specs.Each.{AllReady, EachHonest, members_of, AllLent};

use crate::member::{CrewMember, Joined};
use crate::promise::JoinPromise;
use crate::shared::Shared;
use crate::start::Start;
use crate::starting::begin;
use std::alloc::Global;
use std::sync::Wait;
use std::thread;
use std::thread::{PromisedHandle, Scope, Threads};
use std::time::Duration;
use vx_exchange_ends::Sends;
use vx_exec_setup::RunFault;
use vx_exec_threads::Gate;
use vx_exec_watch::{Board, CountsRows, Watch};
use vx_morsel_decks::SharedDeck;
use vx_ops::Source;
use vx_plan_nodes::Router;
use vx_worker::Morsels;

// How long nothing is told of a run that goes on, in milliseconds.
const BETWEEN: u64 = 100;

/// Starts a thread for each worker. None of them takes a step before `start` says so; where a thread is refused, those
/// that were started wait for it to be cancelled.
pub fn begin_all<
    's,
    E: 's,
    O: Source + CountsRows + Send + Drop + 's,
    S: Sends + Send + Drop + 's,
    G: Morsels + Sync + 's,
    R: Router + Sync + 's,
    H: Gate + Sync + 's,
    T: Threads + Wait + Sync + 's,
>(
    scope: &'s Scope<'s, E>,
    rt: &'s T,
    alloc: Global,
    shared: Shared<'s, G, R, H>,
    members: Vec<CrewMember<O, S>>,
) -> Result<Vec<PromisedHandle<Option<Joined<O, S>>, JoinPromise<'s, O, S, G, R>>>, RunFault>
    requires { AllReady O.types S.post S.is_open S.has_closed (G.types_of shared.morsels.now) shared.decks.now.items members.items }
    ensures members { IfOk result (λ hs. members_of hs.items ≡ members.items) }
    ensures lent { IfOk result (λ hs. AllLent R.route_of G.morsel_of (R.route_of shared.entry.router.now) (G.morsel_of shared.entry.morsels.now) hs.items) }
    ensures fault { IfErr result (λ e. (e ≡ NoMemory) ⊎ (e ≡ NoThread)) }
{
    let mut handles = Vec::with_capacity(alloc, members.len())?;
    for member in members {
        let Some(handle) = begin(scope, rt, shared, member) else {
            return Err(RunFault::NoThread);
        };
        handles.push(handle)?;
    }
    Ok(handles)
}

/// Joins all threads, in order. A thread that gives nothing back counts as one that was refused.
pub fn join_all<'s, O: Source + Drop, S: Sends + Drop, G: Morsels, R: Router, T: Threads>(
    rt: &T,
    alloc: Global,
    morsels: &'s G,
    router: &'s R,
    handles: Vec<PromisedHandle<Option<Joined<O, S>>, JoinPromise<'s, O, S, G, R>>>,
) -> Result<Vec<Joined<O, S>>, RunFault>
    requires { AllLent R.route_of G.morsel_of (R.route_of router.now) (G.morsel_of morsels.now) handles.items }
    ensures honest { IfOk result (λ js. EachHonest O.Stands O.op S.Stands S.task S.post S.bounds (R.route_of router.now) (G.morsel_of morsels.now) (members_of handles.entry.items) js.items) }
    ensures fault { IfErr result (λ e. (e ≡ NoMemory) ⊎ (e ≡ NoThread)) }
{
    let mut all = Vec::with_capacity(alloc, handles.len())?;
    for handle in handles {
        let Some(joined) = handle.join(rt) else {
            return Err(RunFault::NoThread);
        };
        all.push(joined)?;
    }
    Ok(all)
}

// Tells `watch` how far a run has come, until all its workers have ended, if anybody looks.
fn tell_until_end<V: Watch, T: Wait>(rt: &T, watch: &V, board: &Board) {
    if !watch.is_looking() {
        return;
    }
    'waits: for _ in rt.forever() {
        let have_ended = board.wait(rt, Duration::from_millis(BETWEEN));
        watch.note(board.rows());
        if have_ended {
            return;
        }
    }
}

// Starts all threads, lets them go, and joins them. Where one is refused, those that were started are cancelled, and
// the scope waits for them.
fn run_in_scope<
    's,
    E: 's,
    O: Source + CountsRows + Send + Drop + 's,
    S: Sends + Send + Drop + 's,
    G: Morsels + Sync + 's,
    R: Router + Sync + 's,
    H: Gate + Sync + 's,
    V: Watch,
    T: Threads + Wait + Sync + 's,
>(
    scope: &'s Scope<'s, E>,
    rt: &'s T,
    alloc: Global,
    shared: Shared<'s, G, R, H>,
    watch: &V,
    members: Vec<CrewMember<O, S>>,
) -> Result<Vec<Joined<O, S>>, RunFault>
    requires { AllReady O.types S.post S.is_open S.has_closed (G.types_of shared.morsels.now) shared.decks.now.items members.items }
    ensures honest { IfOk result (λ js. EachHonest O.Stands O.op S.Stands S.task S.post S.bounds (R.route_of shared.entry.router.now) (G.morsel_of shared.entry.morsels.now) members.items js.items) }
    ensures fault { IfErr result (λ e. (e ≡ NoMemory) ⊎ (e ≡ NoThread)) }
{
    match begin_all(scope, rt, alloc, shared, members) {
        Ok(handles) => {
            shared.start.go();
            tell_until_end(rt, watch, shared.board);
            join_all(rt, alloc, shared.morsels, shared.router, handles)
        }
        Err(why) => {
            shared.start.cancel();
            Err(why)
        }
    }
}

// The scope of all threads of a run.
fn run_from<
    O: Source + CountsRows + Send + Drop,
    S: Sends + Send + Drop,
    G: Morsels + Sync,
    R: Router + Sync,
    H: Gate + Sync,
    V: Watch,
    T: Threads + Wait + Sync,
>(
    rt: &T,
    alloc: Global,
    shared: Shared<'_, G, R, H>,
    watch: &V,
    members: Vec<CrewMember<O, S>>,
) -> Result<Vec<Joined<O, S>>, RunFault>
    requires { AllReady O.types S.post S.is_open S.has_closed (G.types_of shared.morsels.now) shared.decks.now.items members.items }
    ensures honest { IfOk result (λ js. EachHonest O.Stands O.op S.Stands S.task S.post S.bounds (R.route_of shared.entry.router.now) (G.morsel_of shared.entry.morsels.now) members.items js.items) }
    ensures fault { IfErr result (λ e. (e ≡ NoMemory) ⊎ (e ≡ NoThread)) }
{
    thread::scope(
        thread::scope_env(),
        rt,
        |scope| -> Result<Vec<Joined<O, S>>, RunFault>
            requires { AllReady O.types S.post S.is_open S.has_closed (G.types_of shared.morsels.now) shared.decks.now.items members.items }
            ensures honest { IfOk result (λ js. EachHonest O.Stands O.op S.Stands S.task S.post S.bounds (R.route_of shared.entry.router.now) (G.morsel_of shared.entry.morsels.now) members.items js.items) }
            ensures fault { IfErr result (λ e. (e ≡ NoMemory) ⊎ (e ≡ NoThread)) }
        { run_in_scope(scope, rt, alloc, shared, watch, members) },
    )
}

/// Runs each worker to its end in a thread of its own; they come back in the order in which they were given. No worker
/// takes a step before all threads were started: where one is refused, none does. `watch` is told how far the run has come.
pub fn run_in_threads<
    O: Source + CountsRows + Send + Drop,
    S: Sends + Send + Drop,
    G: Morsels + Sync,
    R: Router + Sync,
    H: Gate + Sync,
    V: Watch,
    T: Threads + Wait + Sync,
>(
    rt: &T,
    alloc: Global,
    morsels: &G,
    router: &R,
    gate: &H,
    watch: &V,
    decks: &Vec<SharedDeck>,
    members: Vec<CrewMember<O, S>>,
) -> Result<Vec<Joined<O, S>>, RunFault>
    requires { AllReady O.types S.post S.is_open S.has_closed (G.types_of morsels.now) decks.now.items members.items }
    ensures honest { IfOk result (λ js. EachHonest O.Stands O.op S.Stands S.task S.post S.bounds (R.route_of router.now) (G.morsel_of morsels.now) members.items js.items) }
    ensures fault { IfErr result (λ e. (e ≡ NoMemory) ⊎ (e ≡ NoThread)) }
{
    let start = Start::new(alloc, members.len())?;
    let board = Board::new(members.len());
    let shared = Shared {
        morsels,
        router,
        gate,
        decks,
        start: &start,
        board: &board,
    };
    watch.begin();
    let joined = run_from(rt, alloc, shared, watch, members);
    watch.end();
    joined
}
