//! Sets of columns that a node was asked for, with those that it answered.

ghost use Rattle.std.specs.Prelude.{◌≡◌, ◌≤◌, ℕ, true, None, IfSome, IfOk, length, slice_get, Some};
ghost use Rattle.vx_rows_values.specs.Limits.{max_columns};
ghost use Rattle.vx_catalog_relations.specs.Relation.{Relation};
ghost use Rattle.vx_plan_nodes.specs.Plan.{Plan};
ghost use Rattle.vx_plan_nodes.specs.Types.{width, well_formed};
ghost use Rattle.vx_plan_facts.specs.ColumnSetView.{set_of_columns};
ghost use Rattle.vx_plan_facts.specs.Asking.{IsAnswer};
ghost use Rattle.vx_plan_facts.specs.Known.{DetermineSame};

use crate::column_set::ColumnSet;
use std::alloc::{AllocError, Global};

/// How many answers of a node are kept: those to the 64 beginnings of an order, and to 16 keys twice.
const KEPT: usize = 96;

// A set of columns, and the columns of a node that it determines.
#[derive(Clone, Copy)]
struct Answer {
    asked: ColumnSet,
    found: ColumnSet,
}

/// The last answers of a node.
#[derive(Drop)]
pub struct Answers {
    // At most `KEPT`. From then on the oldest is replaced.
    kept: Vec<Answer>,
    // The place of the oldest, or the place past the last one, which stands for the first.
    oldest: usize,
}

// The answer to a set that holds what was asked once and is held by what was answered: the same again.
fn answer_to(answer: &Answer, set: &ColumnSet) -> Option<ColumnSet>
    ensures { (catalog : ℕ → Relation) (p : Plan) → well_formed catalog p ≡ true → IsAnswer catalog p (set_of_columns answer.now.asked) (set_of_columns answer.now.found)
        → IfSome result (λ a. IsAnswer catalog p (set_of_columns set.now) (set_of_columns a)) }
{
    if answer.asked.is_within(set) && set.is_within(&answer.found) {
        Some(answer.found)
    } else {
        None
    }
}

// Adds what was answered to a set that holds what was asked.
fn add_answer(answer: &Answer, set: &mut ColumnSet)
    ensures { (catalog : ℕ → Relation) (p : Plan) → well_formed catalog p ≡ true → width catalog p ≤ max_columns
        → IsAnswer catalog p (set_of_columns answer.now.asked) (set_of_columns answer.now.found) → DetermineSame catalog p (set_of_columns set.old) (set_of_columns set.new) }
{
    if answer.asked.is_within(set) {
        set.put_all(&answer.found);
    }
}

/// So many nodes that were not asked yet.
pub fn no_answers(alloc: Global, nodes: usize) -> Result<Vec<Answers>, AllocError>
    ensures count { IfOk result (λ v. length v.items ≡ nodes) }
    ensures none { IfOk result (λ v. (n : ℕ) (a : _) → slice_get v.items n ≡ Some a → (i : ℕ) → slice_get a.kept.items i ≡ None) }
{
    let mut answers = Vec::new(alloc);
    for _ in 0..nodes {
        answers.push(Answers {
            kept: Vec::new(alloc),
            oldest: 0,
        })?;
    }
    Ok(answers)
}

impl Answers {
    ghost use Rattle.vx_plan_facts.specs.AnswersView.{AreAnswersOf};

    /// The answer to a set, if one of those that are kept tells it.
    pub fn find(&self, set: &ColumnSet) -> Option<ColumnSet>
        ensures { (catalog : ℕ → Relation) (p : Plan) → well_formed catalog p ≡ true → AreAnswersOf catalog p self.now
            → IfSome result (λ a. IsAnswer catalog p (set_of_columns set.now) (set_of_columns a)) }
    {
        for answer in &self.kept {
            let told = answer_to(answer, set);
            if told.is_some() {
                return told;
            }
        }
        None
    }

    /// The set with the answers to sets that it holds.
    pub fn added_to(&self, set: &ColumnSet) -> ColumnSet
        ensures { (catalog : ℕ → Relation) (p : Plan) → well_formed catalog p ≡ true → width catalog p ≤ max_columns → AreAnswersOf catalog p self.now
            → DetermineSame catalog p (set_of_columns set.now) (set_of_columns result) }
    {
        let mut larger = *set;
        for answer in &self.kept {
            add_answer(answer, &mut larger);
        }
        larger
    }

    /// Keeps an answer, in the place of the oldest one if there are as many as are kept. If memory is refused it is not kept: an
    /// answer that is lost is found again.
    pub fn keep(&mut self, asked: &ColumnSet, found: &ColumnSet)
        ensures { (catalog : ℕ → Relation) (p : Plan) → AreAnswersOf catalog p self.old → IsAnswer catalog p (set_of_columns asked.now) (set_of_columns found.now)
            → AreAnswersOf catalog p self.new }
    {
        let newest = Answer {
            asked: *asked,
            found: *found,
        };
        if self.kept.len() < KEPT {
            let _ = self.kept.push(newest);
        } else {
            let place = self.oldest % KEPT;
            self.kept[place] = newest;
            self.oldest = place + 1;
        }
    }
}
