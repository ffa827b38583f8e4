//! The claim that a rule table shows at a node.

ghost use Rattle.std.specs.Prelude.{◌≡◌, true, false, option_map, IfOk, IfSome, OnOk};
ghost use Rattle.vx_catalog_relations.specs.Catalog.{relation_at};
ghost use Rattle.vx_plan_nodes.specs.Plan.{size, is_one};
ghost use Rattle.vx_plan_nodes.specs.Outline.{claim_of, part_of, outline_of, plan_of};
ghost use Rattle.vx_plan_nodes.specs.Outputs.{HasOutputs};
ghost use Rattle.vx_check_rules.specs.Behaviour.{node_part};
ghost use Rattle.vx_check_rules.specs.Carried.{Shows, carried};
ghost use Rattle.vx_check_rules.specs.Exactly.{keys_name_columns};
ghost use Rattle.vx_check_rules.specs.RuleView.{rule_of};
ghost use Rattle.vx_check_rules.specs.TableView.{derives, Judges, StaysTable};
ghost use Rattle.vx_check_failures.specs.Shown.{is_of_claim, derived_claim, is_had, if_had, shown_claim_by};

use crate::derived::derived_claim;
use std::alloc::{AllocError, Global};
use vx_catalog_relations::Catalog;
use vx_check_rules::{Rule, Table, failure_at, has_one_worker, node_keys, node_order, node_part};
use vx_plan_nodes::{Claim, Part, TypedNode};

// Whether no test of the operator fails, where this is the first test of a node that does.
fn is_of_claim(rule: Option<Rule>) -> bool
    ensures { result ≡ is_of_claim (option_map rule_of rule) }
{
    match rule {
        None => true,
        Some(Rule::PartNotShown) | Some(Rule::OrderNotShown) | Some(Rule::KeyNotShown) => true,
        Some(_) => false,
    }
}

// The claim that is carried up to a node.
fn claim_at(alloc: Global, catalog: &Catalog, node: &TypedNode) -> Result<Option<Claim>, AllocError>
    requires { HasOutputs (relation_at catalog.now) (outline_of node.now) }
    ensures { IfOk result (λ o. option_map claim_of o ≡ option_map (carried (relation_at catalog.now) (plan_of node.now)) (node_part (relation_at catalog.now) (plan_of node.now))) }
{
    let Some(part) = node_part(alloc, node)? else {
        return Ok(None);
    };
    let order = node_order(alloc, catalog, node)?;
    let keys = node_keys(alloc, catalog, node)?;
    Ok(Some(Claim { part, order, keys }))
}

// Whether a node has such a part: one worker's is none of several.
fn is_had(node: &TypedNode, part: &Part) -> bool
    ensures { result ≡ is_had (is_one (size (plan_of node.now))) (part_of part.now) }
{
    match part {
        Part::One => has_one_worker(node),
        Part::Any | Part::All | Part::Routed(_, _) => true,
    }
}

// The claim, if its part is one that the node has.
fn if_had(node: &TypedNode, claim: Claim) -> Option<Claim>
    ensures { option_map claim_of result ≡ if_had (is_one (size (plan_of node.now))) (claim_of claim) }
{
    if is_had(node, &claim.part) {
        Some(claim)
    } else {
        None
    }
}

/// The claim that a rule table shows at a node in place of the node's own, over the claims that its inputs make, where
/// the operator fits them. With what the table of claims alone shows no test of the node's claim fails.
pub fn shown_claim(
    alloc: Global,
    catalog: &Catalog,
    table: &mut Table<'_>,
    node: &TypedNode,
) -> Result<Option<Claim>, AllocError>
    requires judges { Judges catalog.now table.old (plan_of node.now) }
    requires outputs { HasOutputs (relation_at catalog.now) (outline_of node.now) }
    requires keys { keys_name_columns (relation_at catalog.now) (plan_of node.now) ≡ true }
    ensures claim { IfOk result (λ o. option_map claim_of o ≡ shown_claim_by (derives table.old) (relation_at catalog.now) (plan_of node.now)) }
    ensures shown { derives table.old ≡ false → IfOk result (λ o. IfSome o (λ c. Shows (relation_at catalog.now) (plan_of node.now) (claim_of c))) }
    ensures stays { OnOk result (StaysTable table.old table.new (plan_of node.now)) }
{
    if !is_of_claim(failure_at(catalog, table, node)) {
        return Ok(None);
    }
    match table {
        Table::First => claim_at(alloc, catalog, node),
        Table::Second(known) => {
            let claim = derived_claim(alloc, catalog, node, known)?;
            Ok(if_had(node, claim))
        }
    }
}
