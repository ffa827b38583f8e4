//! What columns of a node determine, with what its inputs say.

ghost use Rattle.std.specs.Prelude.{◌≡◌, ◌<◌, ◌&&◌, ℕ, nat_lt, true, false, List, length, map, option_map, Some};
ghost use Rattle.vx_rows_values.specs.Limits.{max_columns};
ghost use Rattle.vx_catalog_relations.specs.Relation.{Relation};
ghost use Rattle.vx_plan_nodes.specs.Plan.{Plan};
ghost use Rattle.vx_plan_nodes.specs.Types.{width};
ghost use Rattle.vx_plan_nodes.specs.Outline.{plan_of};
ghost use Rattle.vx_plan_facts.specs.Determined.{Columns, determined, determined_aside};
ghost use Rattle.vx_plan_facts.specs.DeterminedFacts.{Within};
ghost use Rattle.vx_plan_facts.specs.FactsView.{facts_of};
ghost use Rattle.vx_plan_facts.specs.ColumnSetView.{set_of_columns};
ghost use Rattle.vx_plan_facts.specs.Asking.{IsAnswer, Asked, with_keys};
ghost use Rattle.vx_plan_facts.specs.AskingView.{input_of, answer_of};
ghost use Rattle.vx_plan_facts.specs.AnswersView.{AreKept, IsKnownAmong, IsKnownWith, InputIsKnownAmong};

use crate::answers::Answers;
use crate::closing::closed;
use crate::column_set::ColumnSet;
use crate::copies::Input;
use crate::facts::ColumnFacts;
use crate::inputs::{inputs, put_copies, sources};
use vx_plan_nodes::TypedNode;

// Whether all that would be asked stands in the last answer.
fn is_answered(asked: &ColumnSet, answer: &Option<ColumnSet>) -> bool
    ensures all { result ≡ true → (last : Columns) × (answer_of answer.now ≡ Some last) × Within (set_of_columns asked.now) last }
    ensures one { result ≡ false → (last : Columns) → answer_of answer.now ≡ Some last → (x : ℕ) × (x < max_columns) × (set_of_columns asked.now x ≡ true) × (last x ≡ false) }
{
    match answer {
        Some(last) => asked.is_within(last),
        None => false,
    }
}

// Asks an input, unless all that would be asked stands in its last answer, and puts the copies of its answer in.
#[cycle(determined)]
fn ask(
    input: Option<Input<'_>>,
    width: usize,
    facts: &[ColumnFacts<'_>],
    answers: &mut [Answers],
    found: &mut ColumnSet,
    answer: &mut Option<ColumnSet>,
) -> bool
    requires { (catalog : ℕ → Relation) × (all : List Plan) × InputIsKnownAmong catalog all (map facts_of facts.now) answers.old width (option_map input_of input) }
    ensures asked { (catalog : ℕ → Relation) (all : List Plan) → InputIsKnownAmong catalog all (map facts_of facts.now) answers.old width (option_map input_of input.entry)
        → Asked catalog width (option_map input_of input.entry) result (set_of_columns found.old) (set_of_columns found.new) (answer_of answer.old) (answer_of answer.new) }
    ensures kept { (catalog : ℕ → Relation) (all : List Plan) → InputIsKnownAmong catalog all (map facts_of facts.now) answers.old width (option_map input_of input.entry)
        → AreKept catalog all (length (map facts_of facts.now)) answers.new }
{
    let Some(input) = input else {
        return false;
    };
    let asked = sources(input.copies, width, found);
    if is_answered(&asked, answer) {
        return false;
    }
    let new = determined(input.node, facts, answers, &asked);
    put_copies(input.copies, width, &new, found);
    *answer = Some(new);
    true
}

// What the set determines at a node if it claimed these keys. Each answer of an input that is asked again has a column more
// than the one before.
#[cycle(determined)]
fn with_keys(
    node: &TypedNode,
    keys: &[Vec<usize>],
    facts: &[ColumnFacts<'_>],
    answers: &mut [Answers],
    set: &ColumnSet,
) -> ColumnSet
    requires { (catalog : ℕ → Relation) × (all : List Plan) × IsKnownWith catalog all (map facts_of facts.now) answers.old (map (λ k. k.items) keys.now) (plan_of node.now) }
    ensures answer { (catalog : ℕ → Relation) (all : List Plan) → IsKnownWith catalog all (map facts_of facts.now) answers.old (map (λ k. k.items) keys.now) (plan_of node.now)
        → (c : ℕ) → set_of_columns result c ≡ (nat_lt c (width catalog (plan_of node.now)) && determined catalog (with_keys (map (λ k. k.items) keys.now) (plan_of node.now)) (set_of_columns set.now) c) }
    ensures kept { (catalog : ℕ → Relation) (all : List Plan) → IsKnownWith catalog all (map facts_of facts.now) answers.old (map (λ k. k.items) keys.now) (plan_of node.now)
        → AreKept catalog all (length (map facts_of facts.now)) answers.new }
{
    let own = &facts[node.head().number as usize];
    let width = own.width();
    let (left, right) = inputs(node, facts);
    let mut found = closed(own, keys, set);
    let mut lefts = None;
    let mut rights = None;
    while ask(left, width, facts, answers, &mut found, &mut lefts)
        || ask(right, width, facts, answers, &mut found, &mut rights)
    {
        found = closed(own, keys, &found);
    }
    found
}

/// The columns of a node that those of a set determine. A column of the set that the node does not have is not among them.
#[cycle(determined)]
pub fn determined(
    node: &TypedNode,
    facts: &[ColumnFacts<'_>],
    answers: &mut [Answers],
    set: &ColumnSet,
) -> ColumnSet
    requires { (catalog : ℕ → Relation) × (all : List Plan) × IsKnownAmong catalog all (map facts_of facts.now) answers.old (plan_of node.now) }
    ensures answer { (catalog : ℕ → Relation) (all : List Plan) → IsKnownAmong catalog all (map facts_of facts.now) answers.old (plan_of node.now)
        → IsAnswer catalog (plan_of node.now) (set_of_columns set.now) (set_of_columns result) }
    ensures kept { (catalog : ℕ → Relation) (all : List Plan) → IsKnownAmong catalog all (map facts_of facts.now) answers.old (plan_of node.now)
        → AreKept catalog all (length (map facts_of facts.now)) answers.new }
{
    let number = node.head().number as usize;
    if let Some(found) = answers[number].find(set) {
        return found;
    }
    let larger = answers[number].added_to(set);
    let keys = node.head().claim.keys.as_slice();
    let found = with_keys(node, keys, facts, answers, &larger);
    answers[number].keep(set, &found);
    found
}

/// The same, with the keys that the node itself claims left aside.
pub fn determined_aside(
    node: &TypedNode,
    facts: &[ColumnFacts<'_>],
    answers: &mut [Answers],
    set: &ColumnSet,
) -> ColumnSet
    requires { (catalog : ℕ → Relation) × (all : List Plan) × IsKnownAmong catalog all (map facts_of facts.now) answers.old (plan_of node.now) }
    ensures answer { (catalog : ℕ → Relation) (all : List Plan) → IsKnownAmong catalog all (map facts_of facts.now) answers.old (plan_of node.now)
        → (c : ℕ) → set_of_columns result c ≡ (nat_lt c (width catalog (plan_of node.now)) && determined_aside catalog (plan_of node.now) (set_of_columns set.now) c) }
    ensures kept { (catalog : ℕ → Relation) (all : List Plan) → IsKnownAmong catalog all (map facts_of facts.now) answers.old (plan_of node.now)
        → AreKept catalog all (length (map facts_of facts.now)) answers.new }
{
    with_keys(node, &[], facts, answers, set)
}
