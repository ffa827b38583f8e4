//! Words for nodes and phases, and the names of relations.

ghost use Rattle.std.specs.Prelude.{◌≡◌, ◌++◌, map, IfOk, OnOk};
ghost use Rattle.vx_catalog_relations.specs.Catalog.{relation_at};
ghost use Rattle.vx_plan_nodes.specs.Outline.{outline_of};
ghost use Rattle.vx_plan_nodes.specs.TypedView.{resolved_of};
ghost use Rattle.volcano_stats.specs.Words.{op_words, word_at, phase_word};

use crate::phases::WorkPhase;
use std::alloc::{AllocError, Global};
use vx_catalog_relations::Catalog;
use vx_check_formats::op_word;
use vx_plan_nodes::{TypedNode, TypedPlan};

// Adds the word of the node, and then those of the nodes below it.
fn add_words<'w>(words: &mut Vec<&'w str>, node: &TypedNode) -> Result<(), AllocError>
    ensures { OnOk result (map (λ w. w.now) words.new.items ≡ map (λ w. w.now) words.old.items ++ op_words (outline_of node.now)) }
{
    words.push(op_word(node))?;
    match node {
        TypedNode::Scan(_, _) => Ok(()),
        TypedNode::Unary(_, _, input) => add_words(words, input),
        TypedNode::Binary(_, _, left, right) => {
            add_words(words, left)?;
            add_words(words, right)
        }
        TypedNode::Exchange(_, _, input) => add_words(words, input),
    }
}

/// Of each node of a plan its operator in a word, by the numbers of the nodes.
pub fn operator_words<'w>(alloc: Global, plan: &TypedPlan) -> Result<Vec<&'w str>, AllocError>
    ensures { IfOk result (λ v. map (λ w. w.now) v.items ≡ op_words (resolved_of plan.now).root) }
{
    let mut words = Vec::new(alloc);
    add_words(&mut words, plan.root())?;
    Ok(words)
}

/// The word of the node with this number; past the end the empty one.
pub fn word_at<'w>(words: &[&'w str], node: u32) -> &'w str
    ensures { result.now ≡ word_at (map (λ w. w.now) words.now) node }
{
    match words.get(node as usize) {
        Some(word) => word,
        None => "",
    }
}

/// The name of the relation with this number; past the end the empty one.
pub fn relation_name(catalog: &Catalog, relation: usize) -> &str
    ensures { result.now ≡ (relation_at catalog.now relation).name }
{
    if relation < catalog.len() {
        return catalog.get(relation).name();
    }
    ""
}

/// A phase in a word.
pub fn phase_word(phase: WorkPhase) -> &'static str
    ensures { result.now ≡ phase_word phase }
{
    match phase {
        WorkPhase::Read => "read",
        WorkPhase::Catalog => "catalog",
        WorkPhase::Plan => "plan",
        WorkPhase::Plans => "plans",
        WorkPhase::Check => "check",
        WorkPhase::Load => "load",
        WorkPhase::Run => "run",
        WorkPhase::Write => "write",
    }
}
