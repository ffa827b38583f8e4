//! What is told of a run while it goes on.

ghost use Rattle.std.specs.Prelude.{◌≡◌};
ghost use Rattle.vx_worker.specs.Worker.{tree_of};
ghost use Rattle.vx_exec_steps.specs.Watching.{top_of};

use vx_exec_watch::{Board, CountsRows, Watch};
use vx_worker::{Tree, Worker};

// How many steps of a worker, or rounds, there are before the rows are told again. A watch may ask a clock, which takes about as long as one
// of the shortest steps.
const STEPS_BETWEEN: u64 = 16;

// The number of the root's worker.
const ROOT: usize = 0;

// The operator at the top of a tree.
fn top_of<O>(tree: &Tree<O>) -> &O
    ensures { result.now ≡ top_of tree.now }
{
    match tree {
        Tree::Leaf(_, operator) => operator,
        Tree::One(operator, _) => operator,
        Tree::Two(operator, _, _) => operator,
    }
}

// How many rows the top of a worker's fragment gave. Those of the root's worker are rows of the answer.
fn rows_given<O: CountsRows, S>(worker: &Worker<O, S>) -> u64
    ensures { result ≡ O.given (top_of (tree_of worker.now)) }
{
    top_of(worker.tree()).rows_given()
}

/// Tells `watch` at each sixteenth round how many rows the root of these workers has given.
pub fn tell_rows<O: CountsRows, S, V: Watch>(watch: &V, workers: &[Worker<O, S>], rounds: u64) {
    if rounds % STEPS_BETWEEN > 0 {
        return;
    }
    if let Some(root) = workers.get(ROOT) {
        watch.note(rows_given(root));
    }
}

/// Posts on the board at each sixteenth step of the root's worker how many rows the root has given. Of the others nothing is posted.
pub fn post_rows<O: CountsRows, S>(
    board: &Board,
    number: usize,
    worker: &Worker<O, S>,
    steps: u64,
) {
    if number == ROOT && steps % STEPS_BETWEEN == 0 {
        board.post(rows_given(worker));
    }
}
