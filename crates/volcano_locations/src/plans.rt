//! What is said of a plan that is refused: where in its document, and the node at fault.

use crate::fault::PlaceFault;
use crate::paths::{node_path, size_path};
use crate::source_text::{SourceText, add_form, add_name, add_position};
use std::alloc::{AllocError, Global};
use volcano_diagnostics::Diagnostic;
use volcano_documents::Document;
use vx_plan_drawing::{lines_around, marked_lines};
use vx_plan_json::{Plan, PlanFault};

// How many lines of a plan are drawn around a node.
const AROUND: usize = 8;

/// The plan of a text, if it is one.
pub fn plan_of(alloc: Global, source: &SourceText<'_>) -> Result<Option<Plan>, PlaceFault> {
    let Some(value) = source.value(alloc)? else {
        return Ok(None);
    };
    match Plan::of_value(alloc, &value) {
        Ok(plan) => Ok(Some(plan)),
        Err(PlanFault::NoMemory) => Err(PlaceFault::NoMemory),
        Err(_) => Ok(None),
    }
}

/// Adds the plan with marks at these nodes: all of it, or the lines around the first one.
pub fn add_plan(
    alloc: Global,
    found: &mut Diagnostic,
    plan: &Plan,
    draws_all: bool,
    nodes: &[u32],
) -> Result<(), AllocError> {
    if draws_all {
        found.plan = marked_lines(alloc, plan, nodes)?;
    } else if let Some(node) = nodes.first() {
        found.plan = lines_around(alloc, plan, *node, AROUND)?;
    }
    Ok(())
}

// The name that a fault gives, if it stands at the node at fault, and whether it stands there twice.
fn name_of(fault: &PlanFault) -> Option<(&str, bool)> {
    match fault {
        PlanFault::UnknownRelation { name, .. }
        | PlanFault::UnknownColumn { name, .. }
        | PlanFault::UnknownRange { name, .. }
        | PlanFault::BadSize { name } => Some((name.as_str(), false)),
        PlanFault::DuplicateColumn { name, .. } | PlanFault::BadRange { name } => {
            Some((name.as_str(), true))
        }
        _ => None,
    }
}

// The path to what a fault is about, if the plan has it.
fn fault_path(alloc: Global, plan: &Plan, fault: &PlanFault) -> Result<Option<String>, AllocError> {
    if let PlanFault::BadRange { .. } = fault {
        return Ok(Some(String::from_str(alloc, "document.ranges")?));
    }
    if let PlanFault::BadSize { name } = fault {
        return size_path(alloc, plan, name.as_str());
    }
    match fault.node() {
        Some(node) => node_path(alloc, plan, node),
        None => Ok(None),
    }
}

/// Adds where the node at this path is, or where this name stands there.
pub fn add_place(
    alloc: Global,
    found: &mut Diagnostic,
    source: &SourceText<'_>,
    path: &str,
    name: Option<(&str, bool)>,
) -> Result<(), AllocError> {
    let steps = source.steps_to(alloc, path)?;
    if let Some((name, is_later)) = name {
        if add_name(alloc, found, source.text, steps.as_slice(), name, is_later)? {
            return Ok(());
        }
    }
    found.path = Some(String::from_str(alloc, path)?);
    add_position(alloc, found, source.text, steps.as_slice())
}

// Adds where a plan that is read does not fit.
fn add_fault(
    alloc: Global,
    found: &mut Diagnostic,
    source: &SourceText<'_>,
    draws_all: bool,
    fault: &PlanFault,
) -> Result<(), PlaceFault> {
    let Some(plan) = plan_of(alloc, source)? else {
        return Ok(());
    };
    if let Some(path) = fault_path(alloc, &plan, fault)? {
        add_place(alloc, found, source, path.as_str(), name_of(fault))?;
    }
    if let Some(node) = fault.node() {
        let nodes = [node];
        add_plan(alloc, found, &plan, draws_all, &nodes)?;
    }
    Ok(())
}

// Adds where a text is no plan: what its form does not allow, or the node.
fn add_misread(
    alloc: Global,
    found: &mut Diagnostic,
    source: &SourceText<'_>,
    fault: &PlanFault,
) -> Result<(), AllocError> {
    if add_form(alloc, found, source, Document::Plan)? {
        return Ok(());
    }
    match fault {
        PlanFault::BadNode { path } => add_place(alloc, found, source, path.as_str(), None),
        _ => Ok(()),
    }
}

/// What is said of a plan that is refused.
pub fn plan_diagnostic(
    alloc: Global,
    source: &SourceText<'_>,
    draws_all: bool,
    fault: &PlanFault,
) -> Result<Diagnostic, PlaceFault> {
    let mut found = Diagnostic::in_file(alloc, source.file)?;
    match fault {
        PlanFault::NotJson | PlanFault::BadNode { .. } => {
            add_misread(alloc, &mut found, source, fault)?;
        }
        _ => add_fault(alloc, &mut found, source, draws_all, fault)?,
    }
    Ok(found)
}
