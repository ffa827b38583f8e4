//! Workers: the operators of a fragment at one place, step by step.

use crate::intake::{Drained, ExchangeInput, Intake};
use crate::tree::Tree;
use crate::wires::{Morsels, Wires};
use std::alloc::Global;
use vx_exchange_ends::Sends;
use vx_exec_setup::StepCounts;
use vx_ops::{Code, Fault, Got, Polled, Source};
use vx_plan_nodes::Router;
use vx_ports::{Packet, Put};

// Where a worker stands.
#[derive(Clone, Copy)]
enum WorkerState {
    /// It draws morsels, takes packets, turns operators and puts packets.
    Running,
    /// It failed and closes its ports with Fault.
    Failing(Fault),
    /// Its ports are closed; it takes and drops what its producers send.
    Draining(Fault),
    /// All its rows went on their way.
    Well,
    /// It failed, its ports are closed, and its producers have closed theirs.
    Failed(Fault),
}

/// How a worker ended.
#[derive(Clone, Copy)]
pub enum WorkerOutcome {
    /// It took all that came, and all its rows went on their way.
    Well,
    /// By a fault of its own, or one that came in a packet.
    Failed(Fault),
}

/// What a step did.
#[derive(Clone, Copy, Debug, PartialEq, Eq)]
pub enum StepOutcome {
    /// The worker went on.
    Moved,
    /// A port was full, or no packet had come.
    Waiting,
    /// The worker has ended.
    Ended,
}

/// Calls: `new (step | outcome | tree | counts)* into_sender`.
///
/// A worker: the tree of its fragment, and what accepts the rows that the tree's top returns.
pub struct Worker<O, S> {
    tree: Tree<O>,
    sender: S,
    // A packet that is to be put next, and its consumer.
    pending: Option<(u32, Packet)>,
    is_over: bool,
    phase: WorkerState,
    intake: Intake,
    // Fault for each consumer, the last of which goes first.
    closing: Vec<Packet>,
    node: u32,
    counts: StepCounts,
}

impl<O: Drop, S: Drop> Drop for Worker<O, S> {
    fn drop(self) {
        let Worker {
            tree: _,
            sender: _,
            pending: _,
            is_over: _,
            phase: _,
            intake: _,
            closing: _,
            node: _,
            counts: _,
        } = self;
    }
}

impl<O: Source, S: Sends> Worker<O, S> {
    ghost use Rattle.std.specs.Prelude.{◌≡◌, ◌+◌, ℕ, List, [], length, true, false, None, Some, IfSome, IfNone, IsSome, ◌↔◌, map};
    ghost use Rattle.std.specs.List.{All};
    ghost use Rattle.vx_rows_values.specs.Values.{Row};
    ghost use Rattle.vx_rows_values.specs.declared.value.ColType.{ColType};
    ghost use Rattle.vx_plan_nodes.specs.Routes.{Routing};
    ghost use Rattle.vx_ports.specs.Packets.{PacketView, closes};
    ghost use Rattle.vx_ops.specs.Ledger.{fresh};
    ghost use Rattle.vx_exchange_ends.specs.Tasks.{post_types};
    ghost use Rattle.vx_exchange_ends.specs.Sending.{RoutesAs};
    ghost use Rattle.vx_worker.specs.Trace.{Event, Trace, added, empty_trace, IsNoMemory};
    ghost use Rattle.vx_worker.specs.Trees.{shape, TreeStands, IsFormed};
    ghost use Rattle.vx_worker.specs.Remaining.{TreeStarts, pending_count, Spends, Starts};
    ghost use Rattle.vx_worker.specs.Wishes.{Numbered, TreeTyped, tree_types, fresh_reads};
    ghost use Rattle.vx_worker.specs.Answering.{Answered};
    ghost use Rattle.vx_worker.specs.Intake.{source_of, IsFresh};
    ghost use Rattle.vx_exec_setup.specs.Counts.{no_steps};
    ghost use Rattle.vx_worker.specs.Counts.{with_event, with_answer};
    ghost use Rattle.vx_worker.specs.Worker.{closing_of, with_pending, with_all, outcome_of, sender_of, tree_of, counts_of, inputs_of, role_of, IsReady, IsReadyIn, IsGoing, IsClosing, WorkerStands, EndsAs};

    /// A worker that made no step. `node` is the number of its tree's top; `closing` is a Fault for each consumer, by rising place; `inputs` are the
    /// producers from which its tree takes, all of which it drains if it fails.
    pub fn new(
        alloc: Global,
        tree: Tree<O>,
        sender: S,
        node: u32,
        closing: Vec<Packet>,
        inputs: Vec<ExchangeInput>,
    ) -> Worker<O, S>
        requires numbered { (low : ℕ) × (high : ℕ) × Numbered low high tree }
        requires tree { TreeStands O.Stands tree fresh_reads fresh }
        requires types { tree_types O.types tree ≡ post_types (S.post sender) }
        requires open { S.is_open sender ≡ true }
        requires closing { closing.items ≡ closing_of (S.post sender) }
        requires inputs { All IsFresh inputs.items }
        ensures ready { (m : ℕ → List ColType) → TreeTyped O.types m tree → IsReady O.types S.post S.is_open S.has_closed m result }
        ensures role { role_of O.op S.post S.bounds result
            ≡ record { frag = shape O.op tree; post = S.post sender; bounds = S.bounds sender; inputs = map source_of inputs.items } }
        ensures stands { (goes : Routing) (m : ℕ → ℕ → List Row) → S.Stands sender goes fresh (λ _. [])
            → WorkerStands O.Stands O.op S.Stands S.task goes m result empty_trace }
        ensures starts { TreeStarts O.op O.most O.idle tree → ((j : ℕ) → S.held sender j ≡ 0)
            → Starts O.most O.idle S.post S.held S.unclosed (shape O.op tree) result }
        ensures counts { counts_of result ≡ no_steps }
    {
        Worker {
            tree,
            sender,
            pending: None,
            is_over: false,
            phase: WorkerState::Running,
            intake: Intake::new(alloc, inputs),
            closing,
            node,
            counts: StepCounts::new(),
        }
    }

    /// How the worker ended; none while it has not.
    pub fn outcome(&self) -> Option<WorkerOutcome>
        ensures outcome { result ≡ outcome_of self.now }
        ensures honest { IfSome result (λ o. (goes : Routing) (m : ℕ → ℕ → List Row) (t : Trace)
            → WorkerStands O.Stands O.op S.Stands S.task goes m self.now t → EndsAs O.op S.task goes m o self.now t) }
    {
        match self.phase {
            WorkerState::Running => None,
            WorkerState::Failing(_) => None,
            WorkerState::Draining(_) => None,
            WorkerState::Well => Some(WorkerOutcome::Well),
            WorkerState::Failed(fault) => Some(WorkerOutcome::Failed(fault)),
        }
    }

    /// One step: at most one draw, one take or one put. An ended worker stays as it is.
    pub fn step<G: Morsels, R: Router, W: Wires>(
        &mut self,
        morsels: &G,
        router: &R,
        wires: &mut W,
    ) -> StepOutcome
        requires { IsReady O.types S.post S.is_open S.has_closed (G.types_of morsels.now) self.old }
        ensures ready { IsReady O.types S.post S.is_open S.has_closed (G.types_of morsels.now) self.new }
        ensures role { role_of O.op S.post S.bounds self.new ≡ role_of O.op S.post S.bounds self.old }
        ensures stands { (e : Event) × W.Does wires.old e wires.new × ((goes : Routing)
            → RoutesAs (S.post (sender_of self.old)) (S.bounds (sender_of self.old)) (R.route_of router.now) goes
            → (t : Trace) → WorkerStands O.Stands O.op S.Stands S.task goes (G.morsel_of morsels.now) self.old t
            → WorkerStands O.Stands O.op S.Stands S.task goes (G.morsel_of morsels.now) self.new (added t e))
            × Answered O.Stands O.want (W.IsFull wires.old) (W.LacksMemory wires.old) self.old self.new e result
            × (counts_of self.new ≡ with_answer (with_event (counts_of self.old) e) result)
            × ((goes : Routing) (t : Trace) → IsFormed (shape O.op (tree_of self.old))
            → WorkerStands O.Stands O.op S.Stands S.task goes (G.morsel_of morsels.now) self.old t
            → Spends O.most O.idle S.post S.held S.unclosed (G.morsel_of morsels.now) (shape O.op (tree_of self.old)) (inputs_of self.old) self.old self.new t e result) }
        ensures ended { (result ≡ StepOutcome.Ended) ↔ IsSome (outcome_of self.new) }
        ensures honest { IfSome (outcome_of self.new) (λ o. (goes : Routing) (t : Trace)
            → WorkerStands O.Stands O.op S.Stands S.task goes (G.morsel_of morsels.now) self.new t
            → EndsAs O.op S.task goes (G.morsel_of morsels.now) o self.new t) }
        ensures still { IsSome (outcome_of self.old) → self.new ≡ self.old }
    {
        match self.advance(morsels, router, wires) {
            StepOutcome::Waiting => {
                self.counts.add_wait();
                return StepOutcome::Waiting;
            }
            stepped => return stepped,
        }
    }

    // One step, by where the worker stands. It is not counted yet whether it waited.
    fn advance<G: Morsels, R: Router, W: Wires>(
        &mut self,
        morsels: &G,
        router: &R,
        wires: &mut W,
    ) -> StepOutcome
        requires { IsReady O.types S.post S.is_open S.has_closed (G.types_of morsels.now) self.old }
        ensures ready { IsReady O.types S.post S.is_open S.has_closed (G.types_of morsels.now) self.new }
        ensures role { role_of O.op S.post S.bounds self.new ≡ role_of O.op S.post S.bounds self.old }
        ensures stands { (e : Event) × W.Does wires.old e wires.new × ((goes : Routing)
            → RoutesAs (S.post (sender_of self.old)) (S.bounds (sender_of self.old)) (R.route_of router.now) goes
            → (t : Trace) → WorkerStands O.Stands O.op S.Stands S.task goes (G.morsel_of morsels.now) self.old t
            → WorkerStands O.Stands O.op S.Stands S.task goes (G.morsel_of morsels.now) self.new (added t e))
            × Answered O.Stands O.want (W.IsFull wires.old) (W.LacksMemory wires.old) self.old self.new e result
            × (counts_of self.new ≡ with_event (counts_of self.old) e)
            × ((goes : Routing) (t : Trace) → IsFormed (shape O.op (tree_of self.old))
            → WorkerStands O.Stands O.op S.Stands S.task goes (G.morsel_of morsels.now) self.old t
            → Spends O.most O.idle S.post S.held S.unclosed (G.morsel_of morsels.now) (shape O.op (tree_of self.old)) (inputs_of self.old) self.old self.new t e result) }
        ensures ended { (result ≡ StepOutcome.Ended) ↔ IsSome (outcome_of self.new) }
        ensures honest { IfSome (outcome_of self.new) (λ o. (goes : Routing) (t : Trace)
            → WorkerStands O.Stands O.op S.Stands S.task goes (G.morsel_of morsels.now) self.new t
            → EndsAs O.op S.task goes (G.morsel_of morsels.now) o self.new t) }
        ensures still { IsSome (outcome_of self.old) → self.new ≡ self.old }
    {
        match self.phase {
            WorkerState::Well => StepOutcome::Ended,
            WorkerState::Failed(_) => StepOutcome::Ended,
            WorkerState::Failing(fault) => self.close(fault, wires),
            WorkerState::Draining(fault) => self.drain(fault, wires),
            WorkerState::Running => self.run(morsels, router, wires),
        }
    }

    // One step of a worker that has not failed: a packet that is here goes first, then those that its sending end holds.
    fn run<G: Morsels, R: Router, W: Wires>(
        &mut self,
        morsels: &G,
        router: &R,
        wires: &mut W,
    ) -> StepOutcome
        requires running { self.old.phase ≡ WorkerState.Running }
        requires ready { IsReady O.types S.post S.is_open S.has_closed (G.types_of morsels.now) self.old }
        ensures ready { IsReady O.types S.post S.is_open S.has_closed (G.types_of morsels.now) self.new }
        ensures role { role_of O.op S.post S.bounds self.new ≡ role_of O.op S.post S.bounds self.old }
        ensures stands { (e : Event) × W.Does wires.old e wires.new × ((goes : Routing)
            → RoutesAs (S.post self.old.sender) (S.bounds self.old.sender) (R.route_of router.now) goes
            → (t : Trace) → WorkerStands O.Stands O.op S.Stands S.task goes (G.morsel_of morsels.now) self.old t
            → WorkerStands O.Stands O.op S.Stands S.task goes (G.morsel_of morsels.now) self.new (added t e))
            × Answered O.Stands O.want (W.IsFull wires.old) (W.LacksMemory wires.old) self.old self.new e result
            × (counts_of self.new ≡ with_event (counts_of self.old) e)
            × ((goes : Routing) (t : Trace) → IsFormed (shape O.op (tree_of self.old))
            → WorkerStands O.Stands O.op S.Stands S.task goes (G.morsel_of morsels.now) self.old t
            → Spends O.most O.idle S.post S.held S.unclosed (G.morsel_of morsels.now) (shape O.op (tree_of self.old)) (inputs_of self.old) self.old self.new t e result) }
        ensures ended { (result ≡ StepOutcome.Ended) ↔ IsSome (outcome_of self.new) }
    {
        if self.pending.is_some() {
            return self.send(wires);
        }
        match self.sender.next() {
            Some(next) => {
                self.pending = Some(next);
                return self.send(wires);
            }
            None => {
                if self.is_over {
                    self.phase = WorkerState::Well;
                    return StepOutcome::Ended;
                }
                return self.pull(morsels, router, wires);
            }
        }
    }

    // Puts the packet that is here.
    fn send<W: Wires>(&mut self, wires: &mut W) -> StepOutcome
        requires running { self.old.phase ≡ WorkerState.Running }
        requires held { IsSome self.old.pending }
        requires going { IsGoing S.post S.is_open S.has_closed self.old }
        ensures ready { IsReadyIn S.post S.is_open S.has_closed self.new.phase self.new }
        ensures tree { self.new.tree ≡ self.old.tree }
        ensures sender { self.new.sender ≡ self.old.sender }
        ensures intake { self.new.intake ≡ self.old.intake }
        ensures stands { (e : Event) × W.Does wires.old e wires.new × ((goes : Routing) (m : ℕ → ℕ → List Row) (t : Trace)
            → WorkerStands O.Stands O.op S.Stands S.task goes m self.old t
            → WorkerStands O.Stands O.op S.Stands S.task goes m self.new (added t e))
            × Answered O.Stands O.want (W.IsFull wires.old) (W.LacksMemory wires.old) self.old self.new e result
            × (counts_of self.new ≡ with_event (counts_of self.old) e)
            × ((goes : Routing) (m : ℕ → ℕ → List Row) (t : Trace) → IsFormed (shape O.op (tree_of self.old))
            → WorkerStands O.Stands O.op S.Stands S.task goes m self.old t
            → Spends O.most O.idle S.post S.held S.unclosed m (shape O.op (tree_of self.old)) (inputs_of self.old) self.old self.new t e result) }
        ensures goes_on { (outcome_of self.new ≡ None) × (result ≡ StepOutcome.Ended → ⊥) }
    {
        match self.pending.take() {
            None => unreachable!("a packet is held"),
            Some((to, packet)) => match wires.put(to, packet) {
                Put::Done => {
                    self.counts.add_put();
                    return StepOutcome::Moved;
                }
                Put::Full(packet) => {
                    self.pending = Some((to, packet));
                    return StepOutcome::Waiting;
                }
                Put::NoMemory(_) => return self.fail(self.no_memory()),
            },
        }
    }

    // Gets what the tree wishes, turns it, and hands what it gives to the sending end.
    fn pull<G: Morsels, R: Router, W: Wires>(
        &mut self,
        morsels: &G,
        router: &R,
        wires: &mut W,
    ) -> StepOutcome
        requires running { self.old.phase ≡ WorkerState.Running }
        requires ready { IsReady O.types S.post S.is_open S.has_closed (G.types_of morsels.now) self.old }
        requires empty { self.old.pending ≡ None }
        requires goes_on { self.old.is_over ≡ false }
        ensures ready { IsReady O.types S.post S.is_open S.has_closed (G.types_of morsels.now) self.new }
        ensures role { role_of O.op S.post S.bounds self.new ≡ role_of O.op S.post S.bounds self.old }
        ensures stands { (e : Event) × W.Does wires.old e wires.new × ((goes : Routing)
            → RoutesAs (S.post self.old.sender) (S.bounds self.old.sender) (R.route_of router.now) goes
            → (t : Trace) → WorkerStands O.Stands O.op S.Stands S.task goes (G.morsel_of morsels.now) self.old t
            → WorkerStands O.Stands O.op S.Stands S.task goes (G.morsel_of morsels.now) self.new (added t e))
            × Answered O.Stands O.want (W.IsFull wires.old) (W.LacksMemory wires.old) self.old self.new e result
            × (counts_of self.new ≡ with_event (counts_of self.old) e)
            × ((goes : Routing) (t : Trace) → IsFormed (shape O.op (tree_of self.old))
            → WorkerStands O.Stands O.op S.Stands S.task goes (G.morsel_of morsels.now) self.old t
            → Spends O.most O.idle S.post S.held S.unclosed (G.morsel_of morsels.now) (shape O.op (tree_of self.old)) (inputs_of self.old) self.old self.new t e result) }
        ensures goes_on { (outcome_of self.new ≡ None) × (result ≡ StepOutcome.Ended → ⊥) }
    {
        let wish = self.tree.wants();
        match self.intake.fetch(wish, morsels, wires) {
            Err(_) => return self.fail(self.no_memory()),
            Ok(got) => {
                let nothing_came = matches!(got, Got::Packet(None));
                match self.tree.turn(got) {
                    Polled::Waiting if nothing_came => return StepOutcome::Waiting,
                    Polled::Waiting => return StepOutcome::Moved,
                    Polled::Fault(fault) => return self.fail(fault),
                    Polled::Gave(rows) => match self.sender.accept(router, Polled::Gave(rows)) {
                        Ok(()) => return StepOutcome::Moved,
                        Err(_) => return self.fail(self.no_memory()),
                    },
                    Polled::End => match self.sender.accept(router, Polled::End) {
                        Ok(()) => {
                            self.is_over = true;
                            return StepOutcome::Moved;
                        }
                        Err(_) => return self.fail(self.no_memory()),
                    },
                }
            }
        }
    }

    // Memory was refused to this worker.
    fn no_memory(&self) -> Fault
        ensures { IsNoMemory result }
    {
        Fault::Own {
            code: Code::NoMemory,
            node: self.node,
        }
    }

    // From now on it closes its ports. A packet that is here is dropped.
    fn fail(&mut self, fault: Fault) -> StepOutcome
        ensures phase { self.new.phase ≡ WorkerState.Failing fault }
        ensures pending { self.new.pending ≡ None }
        ensures tree { self.new.tree ≡ self.old.tree }
        ensures sender { self.new.sender ≡ self.old.sender }
        ensures intake { self.new.intake ≡ self.old.intake }
        ensures closing { self.new.closing.items ≡ self.old.closing.items }
        ensures counts { counts_of self.new ≡ counts_of self.old }
        ensures moved { result ≡ StepOutcome.Moved }
    {
        self.phase = WorkerState::Failing(fault);
        self.pending = None;
        StepOutcome::Moved
    }

    // Puts the next packet that closes a port; once all were put it drains.
    fn close<W: Wires>(&mut self, fault: Fault, wires: &mut W) -> StepOutcome
        requires failing { self.old.phase ≡ WorkerState.Failing fault }
        requires closing { IsClosing self.old }
        ensures ready { IsReadyIn S.post S.is_open S.has_closed self.new.phase self.new }
        ensures tree { self.new.tree ≡ self.old.tree }
        ensures sender { self.new.sender ≡ self.old.sender }
        ensures intake { self.new.intake ≡ self.old.intake }
        ensures stands { (e : Event) × W.Does wires.old e wires.new × ((goes : Routing) (m : ℕ → ℕ → List Row) (t : Trace)
            → WorkerStands O.Stands O.op S.Stands S.task goes m self.old t
            → WorkerStands O.Stands O.op S.Stands S.task goes m self.new (added t e))
            × Answered O.Stands O.want (W.IsFull wires.old) (W.LacksMemory wires.old) self.old self.new e result
            × (counts_of self.new ≡ with_event (counts_of self.old) e)
            × ((goes : Routing) (m : ℕ → ℕ → List Row) (t : Trace) → IsFormed (shape O.op (tree_of self.old))
            → WorkerStands O.Stands O.op S.Stands S.task goes m self.old t
            → Spends O.most O.idle S.post S.held S.unclosed m (shape O.op (tree_of self.old)) (inputs_of self.old) self.old self.new t e result) }
        ensures goes_on { (outcome_of self.new ≡ None) × (result ≡ StepOutcome.Ended → ⊥) }
    {
        match self.next_closing() {
            None => {
                self.phase = WorkerState::Draining(fault);
                return StepOutcome::Moved;
            }
            Some((to, packet)) => match wires.put(to, packet) {
                Put::Done => {
                    self.counts.add_put();
                    return StepOutcome::Moved;
                }
                Put::Full(refused) => {
                    self.pending = Some((to, refused));
                    return StepOutcome::Waiting;
                }
                Put::NoMemory(_) => unreachable!("a packet that closes is never refused"),
            },
        }
    }

    // Takes out the packet that is here, or the last of those that close the ports.
    fn next_closing(&mut self) -> Option<(u32, Packet)>
        requires { IsClosing self.old }
        ensures closes { IfSome result (λ x. closes x.1.content ≡ true) }
        ensures closing { IsClosing self.new }
        ensures some { IfSome result (λ x. (put : ℕ → List PacketView)
            → with_all (with_pending put self.old.pending) self.old.closing.items ≡ with_all (with_pending put (Some x)) self.new.closing.items) }
        ensures fewer { IfSome result (λ x. length self.old.closing.items + pending_count self.old.pending ≡ length self.new.closing.items + 1) }
        ensures none { IfNone result ((self.old.pending ≡ None) × (self.old.closing.items ≡ [])) }
        ensures pending { self.new.pending ≡ None }
        ensures tree { self.new.tree ≡ self.old.tree }
        ensures sender { self.new.sender ≡ self.old.sender }
        ensures intake { self.new.intake ≡ self.old.intake }
        ensures counts { counts_of self.new ≡ counts_of self.old }
        ensures phase { self.new.phase ≡ self.old.phase }
    {
        match self.pending.take() {
            Some(next) => return Some(next),
            None => match self.closing.pop() {
                Some(packet) => return Some((packet.to(), packet)),
                None => return None,
            },
        }
    }

    // Takes and drops; once each producer has closed the worker has ended.
    fn drain<W: Wires>(&mut self, fault: Fault, wires: &mut W) -> StepOutcome
        requires { self.old.phase ≡ WorkerState.Draining fault }
        ensures ready { IsReadyIn S.post S.is_open S.has_closed self.new.phase self.new }
        ensures tree { self.new.tree ≡ self.old.tree }
        ensures sender { self.new.sender ≡ self.old.sender }
        ensures sources { inputs_of self.new ≡ inputs_of self.old }
        ensures stands { (e : Event) × W.Does wires.old e wires.new × ((goes : Routing) (m : ℕ → ℕ → List Row) (t : Trace)
            → WorkerStands O.Stands O.op S.Stands S.task goes m self.old t
            → WorkerStands O.Stands O.op S.Stands S.task goes m self.new (added t e))
            × Answered O.Stands O.want (W.IsFull wires.old) (W.LacksMemory wires.old) self.old self.new e result
            × (counts_of self.new ≡ with_event (counts_of self.old) e)
            × ((goes : Routing) (m : ℕ → ℕ → List Row) (t : Trace) → IsFormed (shape O.op (tree_of self.old))
            → WorkerStands O.Stands O.op S.Stands S.task goes m self.old t
            → Spends O.most O.idle S.post S.held S.unclosed m (shape O.op (tree_of self.old)) (inputs_of self.old) self.old self.new t e result) }
        ensures ended { (result ≡ StepOutcome.Ended) ↔ IsSome (outcome_of self.new) }
    {
        match self.intake.drain(wires) {
            Drained::Dropped => return StepOutcome::Moved,
            Drained::Nothing => return StepOutcome::Waiting,
            Drained::All => {
                self.phase = WorkerState::Failed(fault);
                return StepOutcome::Ended;
            }
        }
    }
}

impl<O, S> Worker<O, S> {
    ghost use Rattle.std.specs.Prelude.{◌≡◌};
    ghost use Rattle.vx_worker.specs.Worker.{tree_of, counts_of};

    /// Its operators.
    pub fn tree(&self) -> &Tree<O>
        ensures { result.now ≡ tree_of self.now }
    {
        &self.tree
    }

    /// What it counted of its steps so far.
    pub fn counts(&self) -> StepCounts
        ensures { result ≡ counts_of self.now }
    {
        self.counts
    }
}

impl<O: Drop, S> Worker<O, S> {
    ghost use Rattle.std.specs.Prelude.{◌≡◌};
    ghost use Rattle.vx_worker.specs.Worker.{sender_of};

    /// What took the rows that the tree's top gave: at the root it holds them.
    pub fn into_sender(self) -> S
        ensures { result ≡ sender_of self }
    {
        let Worker {
            tree: _,
            sender,
            pending: _,
            is_over: _,
            phase: _,
            intake: _,
            closing: _,
            node: _,
            counts: _,
        } = self;
        sender
    }
}
