//! What is said of a plan whose claims do not follow: the node, what it claims, and what is there.

use crate::fault::PlaceFault;
use crate::paths::node_path;
use crate::plans::{add_place, add_plan};
use crate::source_text::SourceText;
use std::alloc::{AllocError, Global};
use volcano_diagnostics::{Diagnostic, Label, Note};
use vx_catalog_relations::Catalog;
use vx_check_directions::planned;
use vx_check_failures::{Failure, failures};
use vx_check_rules::Rule;
use vx_check_sentences::{Explanation, explanation};
use vx_plan_json::{Plan, PlanFault};
use vx_plan_nodes::TypedPlan;

/// A plan over a catalog as it is judged, if it fits.
pub fn fitted(
    alloc: Global,
    plan: &Plan,
    catalog: &Catalog,
) -> Result<Option<TypedPlan>, PlaceFault> {
    match planned(alloc, plan, catalog) {
        Ok(plan) => Ok(Some(plan)),
        Err(PlanFault::NoMemory) => Err(PlaceFault::NoMemory),
        Err(_) => Ok(None),
    }
}

/// The first node of a plan at which a claim does not follow, if there is one.
pub fn first_failure(alloc: Global, plan: &TypedPlan) -> Result<Option<Failure>, AllocError> {
    let failures = failures(alloc, plan)?;
    Ok(failures.first().copied())
}

// Adds a sentence behind a label, unless it is empty.
fn add_sentence(found: &mut Diagnostic, label: Label, text: String) -> Result<(), AllocError> {
    if text.is_empty() {
        return Ok(());
    }
    found.add_note(Note { label, text })
}

fn add_explanation(found: &mut Diagnostic, said: Explanation) -> Result<(), AllocError> {
    add_sentence(found, Label::Claimed, said.claimed)?;
    add_sentence(found, Label::Shown, said.shown)?;
    add_sentence(found, Label::Help, said.help)
}

// The numbers of the nodes that fail, this one first.
fn marked(alloc: Global, plan: &TypedPlan, node: u32) -> Result<Vec<u32>, AllocError> {
    let mut nodes = Vec::new(alloc);
    nodes.push(node)?;
    for failure in failures(alloc, plan)? {
        nodes.push(failure.node)?;
    }
    Ok(nodes)
}

/// What is said of a node at which a claim does not follow.
pub fn check_diagnostic(
    alloc: Global,
    source: &SourceText<'_>,
    plan: &Plan,
    typed: &TypedPlan,
    draws_all: bool,
    (rule, node): (Rule, u32),
) -> Result<Diagnostic, AllocError> {
    let mut found = Diagnostic::in_file(alloc, source.file)?;
    if let Some(path) = node_path(alloc, plan, node)? {
        add_place(alloc, &mut found, source, path.as_str(), None)?;
    }
    let nodes = marked(alloc, typed, node)?;
    add_plan(alloc, &mut found, plan, draws_all, nodes.as_slice())?;
    if let Some(said) = explanation(alloc, typed, node, rule)? {
        add_explanation(&mut found, said)?;
    }
    Ok(found)
}
