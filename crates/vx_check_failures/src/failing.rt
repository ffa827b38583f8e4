//! All nodes at which a test fails.

ghost use Rattle.std.specs.Prelude.{◌≡◌, ◌++◌, List, map, option_map, slice_get, IfOk, OnOk};
ghost use Rattle.vx_catalog_relations.specs.Relation.{Relation};
ghost use Rattle.vx_catalog_relations.specs.Catalog.{relation_at};
ghost use Rattle.vx_plan_nodes.specs.Plan.{number};
ghost use Rattle.vx_plan_nodes.specs.Outline.{outline_of, plan_of};
ghost use Rattle.vx_plan_nodes.specs.Outputs.{HasOutputs};
ghost use Rattle.vx_check_rules.specs.Exactly.{KeysNameColumns};
ghost use Rattle.vx_check_rules.specs.Refusal.{or_else, refused_at};
ghost use Rattle.vx_check_rules.specs.Tables.{tests_by, root_tests_by};
ghost use Rattle.vx_check_rules.specs.TableView.{derives, Judges, StaysTable};
ghost use Rattle.vx_check_rules.specs.Checked.{refusal_of_plan};
ghost use Rattle.vx_check_failures.specs.Failures.{listed, failures_below};
ghost use Rattle.vx_check_failures.specs.FailureView.{failure_is, failures_of_plan};

use crate::failure::Failure;
use std::alloc::{AllocError, Global};
use vx_catalog_relations::Catalog;
use vx_check_rules::{Table, failure_at, root_failure, table_of};
use vx_plan_nodes::{TypedNode, TypedPlan};

// The node with the first of its tests that fails.
fn failed_at(catalog: &Catalog, table: &mut Table<'_>, node: &TypedNode) -> Option<Failure>
    requires judges { Judges catalog.now table.old (plan_of node.now) }
    requires outputs { HasOutputs (relation_at catalog.now) (outline_of node.now) }
    requires keys { KeysNameColumns (relation_at catalog.now) (plan_of node.now) }
    ensures failure { option_map failure_is result ≡ refused_at (number (plan_of node.now)) (tests_by (derives table.old) (relation_at catalog.now) (plan_of node.now)) }
    ensures stays { StaysTable table.old table.new (plan_of node.now) }
{
    let rule = failure_at(catalog, table, node)?;
    let node = node.head().number;
    Some(Failure { node, rule })
}

// The root with the first of its own tests that fails.
fn failed_root(is_total: bool, table: &mut Table<'_>, root: &TypedNode) -> Option<Failure>
    requires { (catalog : List Relation) × Judges catalog table.old (plan_of root.now) × HasOutputs (relation_at catalog) (outline_of root.now) }
    ensures failure { (catalog : List Relation) → Judges catalog table.old (plan_of root.now) → HasOutputs (relation_at catalog) (outline_of root.now)
        → option_map failure_is result ≡ refused_at (number (plan_of root.now)) (root_tests_by (derives table.old) (relation_at catalog) is_total (plan_of root.now)) }
    ensures stays { StaysTable table.old table.new (plan_of root.now) }
{
    let rule = root_failure(is_total, table, root)?;
    let node = root.head().number;
    Some(Failure { node, rule })
}

// Puts the failure behind the others, if there is one.
fn put(failures: &mut Vec<Failure>, failure: Option<Failure>) -> Result<(), AllocError>
    ensures { OnOk result (map failure_is failures.new.items ≡ map failure_is failures.old.items ++ listed (option_map failure_is failure)) }
{
    if let Some(failure) = failure {
        failures.push(failure)?;
    }
    Ok(())
}

// Puts the failures of the nodes below a node, and then its own, if there is one, behind the others.
fn put_failures(
    failures: &mut Vec<Failure>,
    catalog: &Catalog,
    table: &mut Table<'_>,
    node: &TypedNode,
    own: Option<Failure>,
) -> Result<(), AllocError>
    requires judges { Judges catalog.now table.old (plan_of node.now) }
    requires outputs { HasOutputs (relation_at catalog.now) (outline_of node.now) }
    requires keys { KeysNameColumns (relation_at catalog.now) (plan_of node.now) }
    ensures failures { OnOk result (map failure_is failures.new.items ≡ map failure_is failures.old.items ++ (failures_below (tests_by (derives table.old) (relation_at catalog.now)) (plan_of node.now) ++ listed (option_map failure_is own))) }
    ensures stays { OnOk result (StaysTable table.old table.new (plan_of node.now)) }
{
    match node {
        TypedNode::Scan(_, _) => put(failures, own),
        TypedNode::Unary(_, _, input) | TypedNode::Exchange(_, _, input) => {
            let below = failed_at(catalog, table, input);
            put_failures(failures, catalog, table, input, below)?;
            put(failures, own)
        }
        TypedNode::Binary(_, _, left, right) => {
            let below = failed_at(catalog, table, left);
            put_failures(failures, catalog, table, left, below)?;
            let beside = failed_at(catalog, table, right);
            put_failures(failures, catalog, table, right, beside)?;
            put(failures, own)
        }
    }
}

// The root with the first of its tests that fails, its own after those of every node.
fn failed_at_root(
    catalog: &Catalog,
    is_total: bool,
    table: &mut Table<'_>,
    root: &TypedNode,
) -> Option<Failure>
    requires judges { Judges catalog.now table.old (plan_of root.now) }
    requires outputs { HasOutputs (relation_at catalog.now) (outline_of root.now) }
    requires keys { KeysNameColumns (relation_at catalog.now) (plan_of root.now) }
    ensures failure { option_map failure_is result ≡ or_else (refused_at (number (plan_of root.now)) (tests_by (derives table.old) (relation_at catalog.now) (plan_of root.now)))
        (refused_at (number (plan_of root.now)) (root_tests_by (derives table.old) (relation_at catalog.now) is_total (plan_of root.now))) }
    ensures stays { StaysTable table.old table.new (plan_of root.now) }
{
    match failed_at(catalog, table, root) {
        Some(failure) => Some(failure),
        None => failed_root(is_total, table, root),
    }
}

/// All nodes at which a test of the rule table that the plan asks for fails, in post-order, each with the first of its
/// tests that fails. Each node is judged by what it and its inputs claim, whether or not the claims of the inputs follow.
/// The first is the one that the checker refuses.
pub fn failures(alloc: Global, plan: &TypedPlan) -> Result<Vec<Failure>, AllocError>
    ensures all { IfOk result (λ v. map failure_is v.items ≡ failures_of_plan plan.now) }
    ensures first { IfOk result (λ v. slice_get (map failure_is v.items) 0 ≡ refusal_of_plan plan.now) }
{
    let mut failures = Vec::new(alloc);
    let mut table = table_of(alloc, plan)?;
    let catalog = plan.catalog();
    let root = plan.root();
    let own = failed_at_root(catalog, plan.is_total(), &mut table, root);
    put_failures(&mut failures, catalog, &mut table, root, own)?;
    Ok(failures)
}
