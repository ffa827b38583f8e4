//! From what all threads of a run gave back to what the run comes to.

ghost use Rattle.std.specs.Prelude.{◌≡◌, ◌≤◌, ℕ, Bool, List, map, IfOk};
ghost use Rattle.vx_rows_values.specs.Values.{Row};
ghost use Rattle.std.specs.List.{All};
ghost use Rattle.vx_plan_nodes.specs.Plan.{Plan};
ghost use Rattle.vx_plan_nodes.specs.Workers.{worker_group_at};
ghost use Rattle.vx_exec_layout.specs.Layout.{spans_of};
ghost use Rattle.vx_worker.specs.Fragment.{RunModel};
ghost use Rattle.vx_exec_steps.specs.Ready.{Settled};
ghost use Rattle.vx_exec_steps.specs.Headline.{Answers, IsAccepted};
ghost use Rattle.vx_exec_steps.specs.Endings.{ReportsFirst};
ghost use Rattle.vx_exec_steps.specs.Verdicts.{Judged};
ghost use Rattle.vx_exec_steps.specs.declared.verdict.RunState.TheVariants.{Unfinished};
ghost use Rattle.vx_exec_assembly.specs.Assembly.{WasRun};
ghost use Rattle.vx_exec_assembly.specs.Parts.{worker_in};
ghost use Rattle.vx_exec_assembly.specs.Spans.{IsSmall};

use crate::closing::close_decks;
use crate::plans::reunite_spans;
use crate::taking::{ThreadResults, take_apart};
use std::alloc::{AllocError, Global};
use vx_exchange_ends::Sends;
use vx_exec_layout::Layout;
use vx_exec_spawn::Joined;
use vx_exec_steps::{RunState, judge};
use vx_exec_threads::DeckPlace;
use vx_morsel_decks::SharedDeck;
use vx_ops::Source;
use vx_worker::Worker;

/// Brings together what the threads of a plan's workers gave back, in the order of their numbers: the two ends of each
/// ring, and each deck with its seats. Returns the workers, and what the run comes to: the same that a run by steps in
/// one thread is worth. `places` has whose each deck is.
pub fn assemble<O: Source + Drop, S: Sends + Drop>(
    alloc: Global,
    layout: &Layout,
    decks: Vec<SharedDeck>,
    places: &[DeckPlace],
    joined: Vec<Joined<O, S>>,
) -> Result<(Vec<Worker<O, S>>, RunState), AllocError>
    requires small { All IsSmall layout.now.spans.items }
    requires ran { (hash : List ℕ → Row → ℕ → ℕ) × (m : ℕ → ℕ → List Row) × (W : RunModel) × (p : Plan) × (W.sizes ≡ worker_group_at layout.now.worker_groups.items) × (layout.now.spans.items ≡ spans_of (worker_group_at layout.now.worker_groups.items) p 0 1)
        × WasRun O.Stands O.op S.Stands S.task S.post S.bounds hash m W p decks.items places.now joined.items }
    ensures workers { IfOk result (λ r. r.0.items ≡ map worker_in joined.items) }
    ensures judged { IfOk result (λ r. Judged r.0.items r.1) }
    ensures whole { (hash : List ℕ → Row → ℕ → ℕ) (m : ℕ → ℕ → List Row) (W : RunModel) (p : Plan) → W.sizes ≡ worker_group_at layout.now.worker_groups.items → layout.now.spans.items ≡ spans_of (worker_group_at layout.now.worker_groups.items) p 0 1
        → WasRun O.Stands O.op S.Stands S.task S.post S.bounds hash m W p decks.items places.now joined.items
        → IfOk result (λ r. r.1 ≡ Unfinished → ⊥) }
    ensures settled { (hash : List ℕ → Row → ℕ → ℕ) (m : ℕ → ℕ → List Row) (W : RunModel) (p : Plan) → W.sizes ≡ worker_group_at layout.now.worker_groups.items → layout.now.spans.items ≡ spans_of (worker_group_at layout.now.worker_groups.items) p 0 1
        → WasRun O.Stands O.op S.Stands S.task S.post S.bounds hash m W p decks.items places.now joined.items
        → IfOk result (λ r. Settled S.task W p r.0.items r.1) }
    ensures answers { (hash : List ℕ → Row → ℕ → ℕ) (m : ℕ → ℕ → List Row) (W : RunModel) (p : Plan) (is_total : Bool) → W.sizes ≡ worker_group_at layout.now.worker_groups.items → layout.now.spans.items ≡ spans_of (worker_group_at layout.now.worker_groups.items) p 0 1
        → WasRun O.Stands O.op S.Stands S.task S.post S.bounds hash m W p decks.items places.now joined.items
        → IsAccepted W is_total p
        → IfOk result (λ r. Answers S.task W is_total p r.0.items r.1) }
    ensures first { (hash : List ℕ → Row → ℕ → ℕ) (m : ℕ → ℕ → List Row) (W : RunModel) (p : Plan) (is_total : Bool) → W.sizes ≡ worker_group_at layout.now.worker_groups.items → layout.now.spans.items ≡ spans_of (worker_group_at layout.now.worker_groups.items) p 0 1
        → WasRun O.Stands O.op S.Stands S.task S.post S.bounds hash m W p decks.items places.now joined.items
        → IsAccepted W is_total p
        → IfOk result (λ r. ReportsFirst W p r.1) }
{
    let ThreadResults {
        workers,
        mut outs,
        mut ins,
        draws,
    } = take_apart(alloc, joined)?;
    reunite_spans(&mut outs, &mut ins, layout.spans());
    close_decks(alloc, decks, places, draws)?;
    let verdict = judge(workers.as_slice());
    Ok((workers, verdict))
}
